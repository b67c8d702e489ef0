//! The limits of a whole text: its bytes and its experiments.

use super::*;

/// Returns a valid scenario of 16777216 bytes: one experiment, then comments of 512 bytes with
/// their line feeds, which keeps the test fast.
fn greatest_text(rt: &(impl Abort + AllocGlobal)) -> String {
    let head = "experiment a seed 0 budget 1\n@0 end\n";
    let mut text = format!(in rt.alloc(); "{head}#{:<474}\n", "").expect(rt, "memory");
    let comment = format!(in rt.alloc(); "#{:<510}\n", "x");
    append(rt, &mut text, comment, 32_767);
    text
}

/// Appends a line to a text `count` times.
fn append(
    rt: &(impl Abort + AllocGlobal),
    text: &mut String,
    line: Result<String, AllocError>,
    count: usize,
) {
    let line = line.expect(rt, "memory");
    for _ in 0..count {
        assert!(rt; text.push_str(line.as_str()).is_ok());
    }
}

#[test]
fn greatest_text_is_read(rt: HostRuntime) {
    let text = greatest_text(&rt);
    assert!(rt; text.as_str().len() == 16_777_216);
    assert!(rt; experiments_in(rt.alloc(), text.as_str().as_bytes()) == Some(1));
}

/// Checks that one more byte is too big, and that this cause precedes all others: here the last
/// line is also cut, too long, and no line of a scenario.
#[test]
fn one_byte_more_is_too_big(rt: HostRuntime) {
    let mut text = greatest_text(&rt);
    assert!(rt; text.push('\n').is_ok());
    has_fault(&rt, text.as_str().as_bytes(), 0, Cause::TooBig);
    let mut words = String::new(rt.alloc());
    append(
        &rt,
        &mut words,
        format!(in rt.alloc(); "{:<512}", "word"),
        32_768,
    );
    has_fault(&rt, words.as_str().as_bytes(), 1, Cause::Cut);
    assert!(rt; words.push(' ').is_ok());
    has_fault(&rt, words.as_str().as_bytes(), 0, Cause::TooBig);
}

/// Returns this number of experiments, each of two lines, and lines after them.
pub fn experiments(rt: &(impl Abort + AllocGlobal), count: u32, behind: &str) -> String {
    let mut text = String::new(rt.alloc());
    for i in 0..count {
        let lines = format!(in rt.alloc(); "experiment e{i} seed 0 budget 1\n@0 end\n");
        append(rt, &mut text, lines, 1);
    }
    assert!(rt; text.push_str(behind).is_ok());
    text
}

/// Checks the fault after this number of whole experiments.
fn wants_behind(rt: &(impl Abort + AllocGlobal), count: u32, lines: &str, line: u64, cause: Cause) {
    let text = experiments(rt, count, lines);
    wants(rt, text.as_str(), line, cause);
}

#[test]
fn too_many_experiments(rt: HostRuntime) {
    let most = experiments(&rt, 256, "");
    assert!(rt; experiments_in(rt.alloc(), most.as_str().as_bytes()) == Some(256));
    let other = "experiment other seed 0 budget 1\n";
    wants_behind(&rt, 256, other, 513, Cause::TooMany);
    // Its name is also that of an earlier experiment.
    let again = "experiment e0 seed 0 budget 1\n";
    wants_behind(&rt, 256, again, 513, Cause::TooMany);
    wants_behind(&rt, 255, again, 511, Cause::SameName);
    // The 257th experiment begins while the 256th has no end, also with the name of an earlier one.
    let two = "experiment x seed 0 budget 1\nexperiment y seed 0 budget 1\n";
    wants_behind(&rt, 255, two, 512, Cause::NoEnd);
    let twice = "experiment x seed 0 budget 1\nexperiment e0 seed 0 budget 1\n";
    wants_behind(&rt, 255, twice, 512, Cause::NoEnd);
    // A fault of the line itself is reported first.
    let none = "experiment e0 seed 0 budget 0\n";
    wants_behind(&rt, 256, none, 513, Cause::OutOfRange);
    wants_behind(&rt, 256, "experiment e0 seed 0\n", 513, Cause::BadWord);
    wants_behind(&rt, 256, "@0 show\n", 513, Cause::AfterEnd);
}
