//! Reads the whole text of a scenario.

ghost use Rattle.std.specs.Prelude.{◌≡◌, ℕ, List, IfOk, IfErr};
ghost use Rattle.alone.specs.Bytes.{IsRead, TakesFew};
ghost use Rattle.alone.specs.Reports.{IsInputFault, reader_failed};

use crate::ends::{Inlet, read_some};
use crate::fault::RunFault;
use std::alloc::Global;

/// The maximum length of a scenario's text, in bytes.
const LIMIT: usize = 16_777_216;

const CHUNK: usize = 65_536;

/// Reads the text up to its end. Of a text that is too long for a scenario, it reads only one byte
/// past the limit, to show that.
#[tactic(auto, using(crate::proofs::ReadFacts::few_left, crate::proofs::ReadFacts::few_kept))]
pub fn read_text<R: Inlet>(alloc: Global, reader: &mut R) -> Result<Vec<u8>, RunFault>
    ensures text { IfOk result
        (λ text. IsRead (R.remaining reader.old) (R.remaining reader.new) text.items) }
    ensures gives { (bytes : List ℕ) × R.gives reader.old bytes reader.new
        × IfOk result (λ text. text.items ≡ bytes) }
    ensures taken { TakesFew (R.remaining reader.old) (R.remaining reader.new) }
    ensures fault { IfErr result IsInputFault }
    ensures failed { R.failed reader.new ≡ reader_failed result }
{
    let mut text = Vec::new(alloc);
    let mut chunk = [0u8; CHUNK];
    while text.len() <= LIMIT {
        let room = CHUNK.min(LIMIT + 1 - text.len());
        let Ok(count) = read_some(reader, &mut chunk[..room]) else {
            return Err(RunFault::Read);
        };
        if count == 0 {
            break;
        }
        let Ok(()) = text.extend_from_slice(&chunk[..count]) else {
            return Err(RunFault::Memory);
        };
    }
    Ok(text)
}
