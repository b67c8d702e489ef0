//! The messages on standard error other than the one line of a fault: explanations, exceeded
//! limits, and the hint for a stray argument.

use alone::Limits;
use explain::Text;
use std::str;

/// Prints ASCII bytes on standard error.
pub fn print(rt: &impl Eprint, bytes: &[u8]) {
    if let Ok(text) = str::from_utf8(bytes) {
        // There is nowhere else to report that this can't be printed.
        let _ = eprint!(rt; "{text}");
    }
}

fn is_plain(byte: u8) -> bool {
    byte.is_ascii_alphanumeric() || byte == b'.' || byte == b'_' || byte == b'-' || byte == b'/'
}

fn is_command(word: &str) -> bool {
    word == "alone" || word == "run" || word == "check" || word == "live"
}

/// Prints how to pass a file to a command, if there is a surplus argument after the command.
pub fn hint_at(rt: &impl Eprint, command: &str, stray: Option<&str>) {
    let Some(stray) = stray else {
        return;
    };
    if !is_command(command) {
        return;
    }
    let file = if stray.bytes().all(is_plain) {
        stray
    } else {
        "FILE"
    };
    let _ = eprintln!(rt; "dnlab reads standard input: dnlab {command} < {file}");
}

/// Prints which experiment of a text, by its number from 0, exceeds the limit of steps, and the
/// limit that the whole scenario needs.
pub fn tell_steps(rt: &impl Eprint, text: &[u8], number: u64, total: u64, limits: &Limits) {
    let most = limits.steps.unwrap_or(u64::MAX);
    let mut place = Text::new(text);
    let Some(stand) = place.seek(number.saturating_add(1), None) else {
        return;
    };
    let line = stand.number;
    let name = str::from_utf8(stand.experiment).unwrap_or("");
    let _ = eprintln!(rt;
        "steps: line {line}: experiment {name} goes past --max-steps {most}; --max-steps {total} lets all run"
    );
}

/// Prints that the reports exceed the limit of output, and the limit that they need.
pub fn tell_output(rt: &impl Eprint, bytes: u64, limits: &Limits) {
    let most = limits.output.unwrap_or(u64::MAX);
    let _ = eprintln!(rt;
        "output: the reports go past --max-output {most}; --max-output {bytes} lets them out"
    );
}
