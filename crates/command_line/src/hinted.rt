//! The hints that `--explain` prints for a line that a session rejects.

ghost use Rattle.std.specs.Prelude.{◌≡◌, [], false};

use alone::Hints;
use control::{Cause, Fault};
use explain::faults_text;
use std::alloc::{AllocError, Global};

/// The hint for a request with a bad word.
const REQUEST: &[u8] = b"  expected: a request that `#> help` lists\n";

const RANGE: &[u8] = b"  expected: a moment up to 10^15 ns, and a time of 1 ns at least\n";

/// Hints for faulty lines, if `wanted` is true.
#[derive(Clone, Copy)]
pub struct LineHints {
    pub wanted: bool,
}

// Returns the hint for a faulty request. A request is a comment in a scenario, so `explain` knows
// nothing about it.
fn hint_for_request(line: &[u8], cause: Cause) -> Option<&'static [u8]> {
    if !line.starts_with(b"#>") {
        return None;
    }
    match cause {
        Cause::BadWord => Some(REQUEST),
        Cause::OutOfRange => Some(RANGE),
        _ => None,
    }
}

impl Hints for LineHints {
    ghost may_say = { λ hints _ _ hint. hints.wanted ≡ false → hint ≡ [] };

    fn hint(&self, alloc: Global, line: &[u8], cause: Cause) -> Result<Vec<u8>, AllocError> {
        if !self.wanted {
            return Ok(Vec::new(alloc));
        }
        if let Some(hint) = hint_for_request(line, cause) {
            return Vec::from_slice(alloc, hint);
        }
        let mut text = Vec::from_slice(alloc, line)?;
        text.push(b'\n')?;
        faults_text(alloc, text.as_slice(), &Fault { line: 1, cause })
    }
}
