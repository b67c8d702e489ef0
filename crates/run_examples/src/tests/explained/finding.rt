//! The findings in a text and in a report, and their output, written by hand.

use control::{Cause, Fault};
use emu_model::{DropCause, FlowNumber, Load, Record, Refusal};
use explain::*;
use report::Archive;
use std::alloc::AllocError;
use std::process::Abort;
use std::test::*;

fn fault(line: u64, cause: Cause) -> Fault {
    Fault { line, cause }
}

/// Checks the output for the fault of this text.
fn shows(rt: &(impl Abort + AllocGlobal), text: &str, fault: &Fault, wanted: &str) {
    let found = find(text.as_bytes(), fault);
    let shown = show_finding(rt.alloc(), &found).expect(rt, "memory");
    assert!(rt; shown.as_slice() == wanted.as_bytes(), "in {text}");
}

#[test]
fn faults(rt: HostRuntime) {
    for (text, line, cause, wanted) in [
        (
            "experiment a seed 0 budget 1\n@0 pipe 1 config plr 5%\n",
            2,
            Cause::BadWord,
            "  @0 pipe 1 config plr 5%
                       ^^
  expected: a loss rate of 0 to 1: 0 or 1, alone or with a point and 1 to 6 digits
  example: @0 pipe 1 config plr 0.05
  hint: no percent sign: 5% is 0.05
",
        ),
        (
            "experiment a seed 0 budget 1\n@7 show\n@5 show\n",
            3,
            Cause::Backwards,
            "  @5 show
  ^^
  expected: a moment not below that of the command before it
  before: line 2: @7 show
",
        ),
        (
            "experiment a seed 0 budget 1\n",
            2,
            Cause::NoEnd,
            "  expected: `end`, as the last command of the experiment before
  example: @5000000000 end
  before: line 1: experiment a seed 0 budget 1
",
        ),
    ] {
        shows(&rt, text, &fault(line, cause), wanted);
    }
}

#[test]
fn places(rt: HostRuntime) {
    for (line, index, start, width) in [
        ("@0 show", 0, 0, 2),
        ("@0 show", 1, 3, 4),
        ("@0 show", 2, 7, 0),
        ("@0 show", 9, 7, 0),
        ("  @0   show ", 0, 2, 2),
        ("  @0   show ", 1, 7, 4),
        ("  @0   show ", 2, 12, 0),
        ("", 0, 0, 0),
    ] {
        let place = span_of_word(line.as_bytes(), index);
        assert!(rt; place == Span { start, width }, "word {index} of {line}");
    }
    assert!(rt; line_at(b"a\nb\n", 2) == Some(b"b".as_slice()));
    assert!(rt; line_at(b"a\nb\n", 3) == Some(b"".as_slice()));
    assert!(rt; line_at(b"a\nb\n", 4).is_none());
    assert!(rt; line_at(b"a\nb\n", 0).is_none());
}

const SCENARIO: &str = "# refused commands
experiment a seed 0 budget 1
@0 one_pass 1
@0 delete 7

@0 end
experiment b seed 0 budget 1
@0 add 0 allow ip from any to any
@0 end
";

fn refusal(experiment: u64, command: u64, code: u64) -> RefusedCommand {
    RefusedCommand {
        experiment,
        command,
        code,
    }
}

/// Returns the account of the records of some experiments.
fn account(
    rt: &(impl Abort + AllocGlobal),
    experiments: &[&[Record]],
) -> Result<Account, AllocError> {
    let mut account = Account::new(rt.alloc());
    for (place, records) in experiments.iter().enumerate() {
        let mut archive = Archive::new(rt.alloc());
        archive.append(records)?;
        account.take(place as u64 + 1, &archive)?;
    }
    Ok(account)
}

fn done_record(command: u64) -> Record {
    Record::CommandDone { moment: 0, command }
}

fn refusal_record(command: u64, refusal: Refusal) -> Record {
    Record::CommandRefused {
        moment: 0,
        command,
        refusal,
    }
}

/// Returns the records of two experiments, each with a command that is refused.
fn refused_records() -> ([Record; 3], [Record; 1]) {
    (
        [
            done_record(0),
            refusal_record(1, Refusal::NoRule),
            done_record(2),
        ],
        [refusal_record(0, Refusal::BadNumber)],
    )
}

#[test]
fn refusals(rt: HostRuntime) {
    let (first, second) = refused_records();
    let account = account(&rt, &[&first, &second]).expect(&rt, "memory");
    assert!(rt; account.refusals() == [refusal(1, 1, 13), refusal(2, 0, 10)].as_slice());
    assert!(rt; account.notes().is_empty());
}

/// Checks the output for the command that was refused.
fn tells(rt: &(impl Abort + AllocGlobal), text: &mut Text, refusal: &RefusedCommand, wanted: &str) {
    let refused = text.find(refusal).expect(rt, "a line");
    let shown = show_refused(rt.alloc(), &refused).expect(rt, "memory");
    assert!(rt; shown.as_slice() == wanted.as_bytes());
}

#[test]
fn lines_of_commands(rt: HostRuntime) {
    let mut text = Text::new(SCENARIO.as_bytes());
    tells(
        &rt,
        &mut text,
        &refusal(1, 1, 13),
        "line 4: refused 13
  @0 delete 7
  experiment: a
  means: no rule has this number
  hint: it was never added, is deleted by now, or its `add` was refused: `show` lists the rules
",
    );
    tells(
        &rt,
        &mut text,
        &refusal(2, 0, 10),
        "line 8: refused 10
  @0 add 0 allow ip from any to any
  experiment: b
  means: it isn't a number that a rule may have
  hint: a rule's number is 1 to 65534; 65535 is the last rule, which denies what is left and stays
",
    );
    assert!(rt; text.find(&refusal(2, 7, 10)).is_none());
}

fn drop_of(moment: u64, load: Load, cause: DropCause) -> Record {
    Record::PacketDropped {
        moment,
        packet: moment,
        load,
        cause,
    }
}

/// Returns the load of a flow's packet: a segment, or an acknowledgement.
fn load_of(rt: &impl Abort, number: u16, is_segment: bool) -> Load {
    let flow = FlowNumber::new(number).expect(rt, "a flow's number");
    if is_segment {
        Load::Seg { flow, first: 0 }
    } else {
        Load::Ack { flow, upto: 2920 }
    }
}

fn note(experiment: u64, subject: Subject, first: u64, count: u64) -> Note {
    Note {
        experiment,
        subject,
        first,
        count,
    }
}

/// Returns the drop of a flow's packet: a segment, or an acknowledgement.
fn drop_of_flow(
    rt: &impl Abort,
    moment: u64,
    number: u16,
    is_segment: bool,
    cause: DropCause,
) -> Record {
    drop_of(moment, load_of(rt, number, is_segment), cause)
}

fn spent_record(moment: u64) -> Record {
    Record::StepsSpent { moment }
}

#[test]
fn notes(rt: HostRuntime) {
    let first = [
        drop_of(5, Load::Plain, DropCause::Denied),
        drop_of_flow(&rt, 6, 7, true, DropCause::Denied),
        drop_of_flow(&rt, 7, 8, true, DropCause::Full),
        drop_of_flow(&rt, 8, 7, true, DropCause::Denied),
        drop_of_flow(&rt, 8, 7, false, DropCause::Denied),
        drop_of(9, Load::Plain, DropCause::Budget),
        drop_of_flow(&rt, 9, 9, false, DropCause::Budget),
        spent_record(10),
    ];
    let second = [
        drop_of(3, Load::Plain, DropCause::Denied),
        drop_of(4, Load::Plain, DropCause::Lost),
        done_record(0),
    ];
    let account = account(&rt, &[&first, &second]).expect(&rt, "memory");
    let wanted = [
        note(1, Subject::DeniedPlain, 5, 1),
        note(1, Subject::DeniedData(7), 6, 2),
        note(1, Subject::DeniedAck(7), 8, 1),
        note(1, Subject::OverBudget, 9, 2),
        note(1, Subject::Spent, 10, 1),
        note(2, Subject::DeniedPlain, 3, 1),
    ];
    assert!(rt; account.notes() == wanted.as_slice());
    assert!(rt; account.refusals().is_empty());
}

const FAULTS: &str = "experiment a seed 0 budget 1
@0 shw
@5 show
@4 show
@3 bad
experiment b seed 0 budget 1
@5 show
@4 show
@3 show
@x end
experiment a seed 0 budget 0
@0";

/// Checks the faults after this one.
fn follow(rt: &(impl Abort + AllocGlobal), first: &Fault, wanted: &[Fault]) {
    let found = faults_behind(rt.alloc(), FAULTS.as_bytes(), first).expect(rt, "memory");
    assert!(rt; found.as_slice() == wanted);
}

#[test]
fn faults_behind_the_first(rt: HostRuntime) {
    let wanted = [
        fault(5, Cause::BadWord),
        fault(8, Cause::Backwards),
        fault(10, Cause::BadWord),
        fault(11, Cause::OutOfRange),
        fault(12, Cause::Cut),
    ];
    follow(&rt, &fault(2, Cause::BadWord), &wanted);
    follow(&rt, &fault(13, Cause::NoEnd), &[]);
}

#[test]
fn a_fault_with_its_line(rt: HostRuntime) {
    let fault = fault(12, Cause::Cut);
    let found = find(FAULTS.as_bytes(), &fault);
    let shown = show_found(rt.alloc(), &fault, &found).expect(&rt, "memory");
    let wanted = "line 12: cut
  @0
    ^
  expected: a line feed at the end of the last line
  hint: the text was cut off, or the editor left the last line feed out
";
    assert!(rt; shown.as_slice() == wanted.as_bytes());
}

// Checks that each call either reports a failed allocation or returns a complete result.
#[test]
fn memory_refused(rt: HostRuntime) {
    let fault = fault(4, Cause::AfterEnd);
    if let Ok(shown) = show_finding(rt.alloc(), &find(SCENARIO.as_bytes(), &fault)) {
        assert!(rt; shown.len() > 20);
    }
    let (first, second) = refused_records();
    if let Ok(account) = account(&rt, &[&first, &second]) {
        assert!(rt; account.refusals().len() == 2);
    }
    if let Ok(found) = faults_behind(rt.alloc(), FAULTS.as_bytes(), &fault) {
        assert!(rt; found.len() == 5);
    }
}
