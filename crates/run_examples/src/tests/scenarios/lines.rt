//! Each cause in each kind of line, and which of two faults is reported.

use super::*;

/// Each kind of command, in its shortest form.
const COMMANDS: [&str; 13] = [
    "add 1 deny ip from any to any",
    "delete 1",
    "pipe 1 config bw 1",
    "pipe delete 1",
    "pipe show",
    "show",
    "inject udp 1.2.3.4 5 6.7.8.9 10 40",
    "train 2 udp 1.2.3.4 5 6.7.8.9 10 40 count 1 gap 0",
    "flow 3 1.2.3.4 5 6.7.8.9 10 smss 64 segments 1",
    "stop 3",
    "one_pass 1",
    "trace 1",
    "end",
];

/// Checks the fault of the line after an experiment's first line. No line feed is added to it.
fn wants_after_head(rt: &(impl Abort + AllocGlobal), line: &str, cause: Cause) {
    let text = format!(in rt.alloc(); "experiment a seed 0 budget 1\n{line}");
    wants_made(rt, text, 2, cause);
}

/// Checks the fault of a line that was formatted for it.
fn wants_line(rt: &(impl Abort + AllocGlobal), line: Result<String, AllocError>, cause: Cause) {
    let line = line.expect(rt, "memory");
    wants_after_head(rt, line.as_str(), cause);
}

fn has_own_causes(rt: &(impl Abort + AllocGlobal), command: &str) {
    let alloc = rt.alloc();
    wants_line(rt, format!(in alloc; "@0 {command}"), Cause::Cut);
    wants_line(rt, format!(in alloc; "@0 {command:<510}\n"), Cause::TooLong);
    wants_line(rt, format!(in alloc; "@0 {command}\t\n"), Cause::BadByte);
    wants_line(rt, format!(in alloc; "@0 {command} word\n"), Cause::BadWord);
    wants_line(rt, format!(in alloc; "{command}\n"), Cause::BadWord);
    let late = format!(in alloc; "@1000000000000001 {command}\n");
    wants_line(rt, late, Cause::OutOfRange);
}

/// Checks the causes that depend on one line only.
#[test]
fn own_causes_at_each_command(rt: HostRuntime) {
    for command in &COMMANDS {
        has_own_causes(&rt, command);
    }
}

/// Each kind of command without its last word, or with one in another case.
const CUT_SHORT: [&str; 19] = [
    "@0 add 1 deny ip from any to\n",
    "@0 Add 1 deny ip from any to any\n",
    "@0 delete\n",
    "@0 pipe 1 config bw\n",
    "@0 pipe 1 Config\n",
    "@0 pipe delete\n",
    "@0 pipe\n",
    "@0 pipe Show\n",
    "@0\n",
    "@ show\n",
    "@01 show\n",
    "@-1 show\n",
    "@0 inject udp 1.2.3.4 5 6.7.8.9 10\n",
    "@0 train 2 udp 1.2.3.4 5 6.7.8.9 10 40 count 1 gap\n",
    "@0 flow 3 1.2.3.4 5 6.7.8.9 10 smss 64 segments\n",
    "@0 stop\n",
    "@0 one_pass\n",
    "@0 trace\n",
    "@0 END\n",
];

#[test]
fn bad_words_at_each_command(rt: HostRuntime) {
    for line in &CUT_SHORT {
        wants_after_head(&rt, line, Cause::BadWord);
    }
}

/// Checks the causes that depend on the lines before. A time that equals the previous one is valid.
fn has_placed_causes(rt: &(impl Abort + AllocGlobal), command: &str) {
    let alloc = rt.alloc();
    let first = format!(in alloc; "\n@0 {command}\n");
    wants_made(rt, first, 2, Cause::NoExperiment);
    let head = "experiment a seed 0 budget 1\n";
    let behind = format!(in alloc; "{head}@0 end\n#\n@0 {command}\n");
    wants_made(rt, behind, 4, Cause::AfterEnd);
    let back = format!(in alloc; "{head}@5 show\n\n@4 {command}\n");
    wants_made(rt, back, 4, Cause::Backwards);
    let equal = format!(in alloc; "{head}@5 show\n@5 {command}\n@4 show\n");
    let cause = match command {
        "end" => Cause::AfterEnd,
        _ => Cause::Backwards,
    };
    wants_made(rt, equal, 4, cause);
}

#[test]
fn placed_causes_at_each_command(rt: HostRuntime) {
    for command in &COMMANDS {
        has_placed_causes(&rt, command);
    }
}

#[test]
fn causes_at_an_experiment(rt: HostRuntime) {
    let begins = "experiment b seed 0 budget 1 steps 1";
    let alloc = rt.alloc();
    wants(&rt, begins, 1, Cause::Cut);
    wants_made(&rt, format!(in alloc; "{begins:<513}\n"), 1, Cause::TooLong);
    wants_made(&rt, format!(in alloc; "{begins:<512}\n"), 2, Cause::NoEnd);
    for (line, cause) in &[
        ("experiment b seed 0 budget 1\r\n", Cause::BadByte),
        ("experiment b seed 0 budget 1 steps\n", Cause::BadWord),
        ("experiment b seed 0 budget 1 steps 1 1\n", Cause::BadWord),
        ("experiment b seed 0\n", Cause::BadWord),
        ("experiment b budget 1 seed 0\n", Cause::BadWord),
        ("experiment b seed 00 budget 1\n", Cause::BadWord),
        ("Experiment b seed 0 budget 1\n", Cause::BadWord),
        ("experiment b.c seed 0 budget 1\n", Cause::BadWord),
        (
            "experiment 123456789012345678901234567890123 seed 0 budget 1\n",
            Cause::BadWord,
        ),
        (
            "experiment 12345678901234567890123456789012 seed 0 budget 0\n",
            Cause::OutOfRange,
        ),
        ("experiment b seed 0 budget 65536\n", Cause::OutOfRange),
        ("experiment b seed 0 budget 1 steps 0\n", Cause::OutOfRange),
        (
            "experiment b seed 0 budget 1 steps 10000001\n",
            Cause::OutOfRange,
        ),
    ] {
        wants(&rt, line, 1, *cause);
    }
}

/// Checks comments and lines without words, which are judged by their length and bytes like every
/// line.
#[test]
fn causes_at_skipped_lines(rt: HostRuntime) {
    wants(&rt, "#", 1, Cause::Cut);
    wants(&rt, "\n  # comment", 2, Cause::Cut);
    wants(&rt, " ", 1, Cause::Cut);
    has_fault(&rt, b"\r\n", 1, Cause::BadByte);
    has_fault(&rt, b"#\r\n", 1, Cause::BadByte);
    has_fault(&rt, b" \t \n", 1, Cause::BadByte);
    for byte in b"\x00\x1f\x7f\x80\xff" {
        has_fault(&rt, &[b'#', b' ', *byte, b'\n'], 1, Cause::BadByte);
    }
    has_fault(&rt, b"# \xc3\xa9\n", 1, Cause::BadByte);
    assert!(rt; experiments_in(rt.alloc(), b"# from   to ~ !\n\n   \n") == Some(0));
    assert!(rt; experiments_in(rt.alloc(), b"\n") == Some(0));
    // A word that only contains the sign is not a comment.
    wants(&rt, "experiment# b\n", 1, Cause::BadWord);
}

/// Checks an experiment or a text without an end: the line after the last is reported.
#[test]
fn no_end_at_the_end(rt: HostRuntime) {
    wants(
        &rt,
        "experiment a seed 0 budget 1\n@0 show\n",
        3,
        Cause::NoEnd,
    );
    wants(
        &rt,
        "experiment a seed 0 budget 1\n\n# x\n \n",
        5,
        Cause::NoEnd,
    );
    wants(
        &rt,
        "experiment a seed 0 budget 1\n@0 end\nexperiment b seed 0 budget 1\n",
        4,
        Cause::NoEnd,
    );
}

/// Checks that a time is compared only within its experiment.
#[test]
fn moments_begin_anew(rt: HostRuntime) {
    wants(
        &rt,
        "experiment a seed 0 budget 1\n@9 end\nexperiment b seed 0 budget 1\n@3 show\n@2 end\n",
        5,
        Cause::Backwards,
    );
}

/// Checks two faults in one line. The later cause also occurs alone elsewhere in these tests.
#[test]
fn two_faults_in_one_line(rt: HostRuntime) {
    let alloc = rt.alloc();
    wants_line(&rt, format!(in alloc; "{:<513}", "\t"), Cause::Cut);
    wants_line(
        &rt,
        format!(in alloc; "{:<513}\n", "\tword"),
        Cause::TooLong,
    );
    for (line, cause) in &[
        ("@0 en", Cause::Cut),
        ("@1000000000000001 show", Cause::Cut),
        ("\tword\n", Cause::BadByte),
        ("@0 delete 100000\r\n", Cause::BadByte),
        ("@0 delete 100000 1\n", Cause::BadWord),
        ("@1000000000000001 delete 01\n", Cause::BadWord),
        ("experiment a seed 0\n", Cause::BadWord),
        ("experiment a seed 0 budget 0\n", Cause::OutOfRange),
        ("experiment a seed 0 budget 1\n", Cause::NoEnd),
    ] {
        wants_after_head(&rt, line, *cause);
    }
    wants(&rt, "@0 delete 01\n", 1, Cause::BadWord);
    wants(&rt, "@0 delete 100000\n", 1, Cause::OutOfRange);
    let ended = "experiment a seed 0 budget 1\n@5 end\n";
    for (line, cause) in &[
        ("@4 delete 01\n", Cause::BadWord),
        ("@4 delete 100000\n", Cause::OutOfRange),
        ("@4 delete 1\n", Cause::AfterEnd),
        (
            "experiment a seed 18446744073709551616 budget 1\n",
            Cause::OutOfRange,
        ),
    ] {
        let text = format!(in alloc; "{ended}{line}");
        wants_made(&rt, text, 3, *cause);
    }
}

/// Checks the fault of this line, which is followed by a faulty one.
fn is_first_fault(rt: &(impl Abort + AllocGlobal), line: &str, next: &str, cause: Cause) {
    let text = format!(in rt.alloc(); "experiment a seed 0 budget 1\n@5 show\n{line}{next}");
    wants_made(rt, text, 3, cause);
}

/// Checks that the first of two faulty lines is reported, whatever the order of the causes.
#[test]
fn two_faulty_lines(rt: HostRuntime) {
    for (line, cause) in &[
        ("\t\n", Cause::BadByte),
        ("@5 word\n", Cause::BadWord),
        ("@5 delete 100000\n", Cause::OutOfRange),
        ("experiment b seed 0 budget 1\n", Cause::NoEnd),
        ("@4 show\n", Cause::Backwards),
    ] {
        is_first_fault(&rt, line, "@5 en", *cause);
        is_first_fault(&rt, line, "\t\n", *cause);
        is_first_fault(&rt, line, "@5 delete 01\n", *cause);
        is_first_fault(&rt, line, "@1 show\n", *cause);
    }
    wants(&rt, "@0 show\nexperiment", 1, Cause::NoExperiment);
}
