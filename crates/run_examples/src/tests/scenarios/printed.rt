//! Each cause as it is printed: by itself, and with its line. The words are those of
//! docs/reference/scenario.md.

use super::limits::experiments;
use super::*;

/// Checks that the output is the start and then the word.
fn is_text(rt: &impl Abort, printed: Result<String, AllocError>, start: &str, word: &str) {
    let printed = printed.expect(rt, "memory");
    assert!(rt;
        printed.as_str().strip_prefix(start) == Some(word),
        "{start}{word}"
    );
}

/// Checks the word of a cause, by itself and with the minimum and the maximum line.
fn is_printed(rt: &(impl Abort + AllocGlobal), cause: Cause, word: &str) {
    is_text(rt, format!(in rt.alloc(); "{cause}"), "", word);
    let least = Fault { line: 0, cause };
    is_text(rt, format!(in rt.alloc(); "{least}"), "line 0: ", word);
    let line = u64::MAX;
    let greatest = Fault { line, cause };
    let start = "line 18446744073709551615: ";
    is_text(rt, format!(in rt.alloc(); "{greatest}"), start, word);
}

#[test]
fn words_of_causes(rt: HostRuntime) {
    is_printed(&rt, Cause::TooBig, "toobig");
    is_printed(&rt, Cause::Cut, "cut");
    is_printed(&rt, Cause::TooLong, "toolong");
    is_printed(&rt, Cause::BadByte, "badbyte");
    is_printed(&rt, Cause::BadWord, "badword");
    is_printed(&rt, Cause::OutOfRange, "outofrange");
    is_printed(&rt, Cause::NoEnd, "noend");
    is_printed(&rt, Cause::TooMany, "toomany");
    is_printed(&rt, Cause::SameName, "samename");
    is_printed(&rt, Cause::NoExperiment, "noexperiment");
    is_printed(&rt, Cause::AfterEnd, "afterend");
    is_printed(&rt, Cause::Backwards, "backwards");
}

/// Returns the output for these bytes.
fn printed_text(alloc: Global, bytes: &[u8]) -> Result<String, AllocError> {
    match parse_scenario(alloc, bytes) {
        Err(ParseError::Fault(fault)) => format!(in alloc; "{fault}"),
        Err(ParseError::NoMemory) => format!(in alloc; "memory"),
        Ok(_) => format!(in alloc; "no fault"),
    }
}

/// Checks the output for a text.
fn prints(rt: &(impl Abort + AllocGlobal), text: &str, line: &str) {
    is_text(rt, printed_text(rt.alloc(), text.as_bytes()), "", line);
}

/// Two whole experiments with the same name.
const TWICE: &str = "experiment a seed 0 budget 1\n@0 end\nexperiment a seed 0 budget 1\n@0 end\n";

/// Checks a text for each cause except `toobig`, with the line that is printed for it; a text that
/// is too big is in `limits`.
#[test]
fn lines_of_texts(rt: HostRuntime) {
    for (text, line) in &[
        ("experiment a seed 0 budget 1", "line 1: cut"),
        ("# a comment\n\t\n", "line 2: badbyte"),
        ("word\n", "line 1: badword"),
        ("\n\nexperiment a seed 0 budget 0\n", "line 3: outofrange"),
        ("experiment a seed 0 budget 1\n", "line 2: noend"),
        (TWICE, "line 3: samename"),
        ("@0 end\n", "line 1: noexperiment"),
        (
            "experiment a seed 0 budget 1\n@0 end\n@0 end\n",
            "line 3: afterend",
        ),
        (
            "experiment a seed 0 budget 1\n@1 show\n@0 end\n",
            "line 3: backwards",
        ),
        ("experiment a seed 0 budget 1\n@0 end\n", "no fault"),
    ] {
        prints(&rt, text, line);
    }
    let long = format!(in rt.alloc(); "#{:<512}\n", "").expect(&rt, "memory");
    prints(&rt, long.as_str(), "line 1: toolong");
    let many = experiments(&rt, 257, "");
    prints(&rt, many.as_str(), "line 513: toomany");
}
