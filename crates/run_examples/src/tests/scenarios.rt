use control::*;
use emu_model::{Command, Discipline, FlowSpec, PipeConfig, Rule, Timing};
use std::alloc::{AllocError, Global};
use std::process::Abort;

mod limits;
mod lines;
mod printed;

/// Returns the fault of these bytes.
fn fault_of(alloc: Global, bytes: &[u8]) -> Option<Fault> {
    match parse_scenario(alloc, bytes) {
        Err(ParseError::Fault(fault)) => Some(fault),
        _ => None,
    }
}

/// Returns the number of experiments, if the bytes are a scenario.
fn experiments_in(alloc: Global, bytes: &[u8]) -> Option<usize> {
    match parse_scenario(alloc, bytes) {
        Ok(scenario) => Some(scenario.experiments().len()),
        Err(_) => None,
    }
}

/// Checks the fault of a text.
fn wants(rt: &(impl Abort + AllocGlobal), text: &str, line: u64, cause: Cause) {
    let found = fault_of(rt.alloc(), text.as_bytes());
    assert!(rt; found == Some(Fault { line, cause }), "in {text}");
}

/// Checks the fault of a text that was formatted for it.
fn wants_made(
    rt: &(impl Abort + AllocGlobal),
    text: Result<String, AllocError>,
    line: u64,
    cause: Cause,
) {
    let text = text.expect(rt, "memory");
    wants(rt, text.as_str(), line, cause);
}

/// Checks the fault of bytes that can't be printed.
fn has_fault(rt: &(impl Abort + AllocGlobal), bytes: &[u8], line: u64, cause: Cause) {
    assert!(rt; fault_of(rt.alloc(), bytes) == Some(Fault { line, cause }));
}

/// Checks the fault of the second line, after an experiment's first line.
fn wants_second(rt: &(impl Abort + AllocGlobal), line: &str, cause: Cause) {
    let text = format!(in rt.alloc(); "experiment a seed 0 budget 1\n{line}\n");
    wants_made(rt, text, 2, cause);
}

/// Checks the fault of each of these second lines.
fn want_second(rt: &(impl Abort + AllocGlobal), lines: &[&str], cause: Cause) {
    for line in lines {
        wants_second(rt, line, cause);
    }
}

const BAD_WORDS: [&str; 32] = [
    "@0 delete 01",
    "@0 delete 123456789012345678901",
    "@0 pipe 1 config plr 2",
    "@0 pipe 1 config plr 0.1234567",
    "@0 pipe 1 config bw 1 bw 1",
    "@0 pipe 1 config codel ecn",
    "@0 pipe 1 config codel target 5 bw 1 interval 100",
    "@0 pipe 1 config mask",
    "@0 pipe 1 config mask all src-ip 0xff",
    "@0 pipe 1 config mask proto 0x100",
    "@0 pipe 1 config mask src-ip 0x1 src-ip 0x1",
    "@0 pipe 1 config droptail codel",
    "@0 pipe 1 config delay 1s",
    "@0 pipe 1 config bw 1mbit/s",
    "@0 pipe 1 config queue 1kb",
    "@0 pipe 01 config",
    "@0 pipe show 1",
    "@0 add 1 deny ip from any to any 1 2",
    "@0 add 1 deny icmp from any to any",
    "@0 add 1 deny ip from 10.0.0 to any",
    "@0 add 1 deny ip from 1.2.3.4.5 to any",
    "@0 inject ip 10.0.0.1 1 10.0.0.2 2 40",
    "@0 train 1 udp 10.0.0.1 1 10.0.0.2 2 40 count 1",
    "@0 flow 1 10.0.0.1 1 10.0.0.2 2 smss 1 segments 1 rto 1 rto adaptive",
    "@0 one_pass",
    "@0 trace",
    "@0 trace on",
    "@0 end now",
    "@1000000000000001 shw",
    "0 show",
    "experiment B seed 0 budget 1",
    "experiment b seed 0 budget 1 steps",
];

const OUT_OF_RANGE: [&str; 20] = [
    "@0 delete 100000",
    "@0 delete 99999999999999999999",
    "@1000000000000001 show",
    "@0 inject udp 10.0.0.256 1 10.0.0.2 2 40",
    "@0 inject udp 10.0.0.1 1 10.0.0.2 2 39",
    "@0 pipe 1 config plr 1.1",
    "@0 pipe 1 config bw 11Gbit/s",
    "@0 pipe 1 config bw 99999999999999999999GByte/s",
    "@0 pipe 1 config queue 1025K",
    "@0 pipe 1 config codel target 61s",
    "@0 add 1 deny ip from 10.0.0.0/33 to any",
    "@0 add 1 deny ip from any 20-10 to any",
    "@0 add 1 pipe 0 ip from any to any",
    "@0 train 1 udp 10.0.0.1 1 10.0.0.2 2 40 count 0 gap 0",
    "@0 flow 1 10.0.0.1 1 10.0.0.2 2 smss 63 segments 1",
    "@0 flow 1 10.0.0.1 1 10.0.0.2 2 smss 64 segments 1 rto 60001",
    "@0 one_pass 2",
    "@0 trace 2",
    "@0 stop 0",
    "experiment b seed 18446744073709551616 budget 1",
];

#[test]
fn faulty_lines(rt: HostRuntime) {
    want_second(&rt, &BAD_WORDS, Cause::BadWord);
    want_second(&rt, &OUT_OF_RANGE, Cause::OutOfRange);
    wants_second(&rt, "experiment b seed 0 budget 1", Cause::NoEnd);
    wants_second(&rt, "\t# a tab", Cause::BadByte);
    wants_second(&rt, "@0 end\r", Cause::BadByte);
}

#[test]
fn faults_between_lines(rt: HostRuntime) {
    wants(&rt, "experiment a seed 0 budget 1\n", 2, Cause::NoEnd);
    wants(&rt, "experiment a seed 0 budget 1\n@0 en", 2, Cause::Cut);
    wants(&rt, "# a comment\n\n ", 3, Cause::Cut);
    wants(&rt, "@0 show\n", 1, Cause::NoExperiment);
    wants(
        &rt,
        "experiment a seed 0 budget 1\n@0 end\n@0 show\n",
        3,
        Cause::AfterEnd,
    );
    // Two faults in one line: the command is after the end, and its time is before that of the end.
    wants(
        &rt,
        "experiment a seed 0 budget 1\n@5 end\n@4 show\n",
        3,
        Cause::AfterEnd,
    );
    wants(
        &rt,
        "experiment a seed 0 budget 1\n@5 show\n@4 end\n",
        3,
        Cause::Backwards,
    );
    wants(
        &rt,
        "experiment a seed 0 budget 1\n@0 end\nexperiment a seed 0 budget 1\n",
        3,
        Cause::SameName,
    );
    // The previous experiment has no end, and its name is repeated.
    wants(
        &rt,
        "experiment a seed 0 budget 1\n@0 show\nexperiment a seed 0 budget 1\n",
        3,
        Cause::NoEnd,
    );
    // Two faulty lines, of which the first is reported.
    wants(
        &rt,
        "experiment a seed 0 budget 1\n@0 delete 100000\n@0 delete 01\n",
        2,
        Cause::OutOfRange,
    );
}

/// Checks that 512 bytes are a line, and that 513 are too long, if they begin like this and
/// continue with spaces.
fn has_length(rt: &(impl Abort + AllocGlobal), start: &str) {
    let fits = format!(in rt.alloc(); "{start:<512}\n").expect(rt, "memory");
    assert!(rt; experiments_in(rt.alloc(), fits.as_str().as_bytes()) == Some(0));
    wants_made(
        rt,
        format!(in rt.alloc(); "{start:<513}\n"),
        1,
        Cause::TooLong,
    );
}

#[test]
fn lengths(rt: HostRuntime) {
    has_length(&rt, "");
    has_length(&rt, "#");
    assert!(rt; experiments_in(rt.alloc(), b"") == Some(0));
}

/// Each kind of command, and options that are not in their usual order.
const KINDS: &str =
    "experiment a-1_b seed 18446744073709551615  budget 7 steps 9\n# x\n\n @0 add 100 skipto 200 tcp from 10.0.0.0/8 1-2 to any 80\n@1 pipe 3 config plr 0.25 codel interval 50 target 1us mask dst-ip 0xFF proto 0x6 queue 8KB delay 3ms bw 2Mbit/s\n@1 pipe 4 config\n@1 train 2 udp 1.2.3.4 5 6.7.8.9 10 40 count 3 gap 4\n@1 flow 9 1.2.3.4 5 6.7.8.9 10 smss 64 segments 2 rto adaptive window 7\n@1 one_pass 1\n@1 trace 1\n@1 delete 5\n@1 stop 9\n@1 pipe delete 3\n@1 pipe show\n@1 show\n@1 inject tcp 1.2.3.4 5 6.7.8.9 10 1500\n@2 end\nexperiment b seed 0 budget 1\n@0 end\n";

fn has_rule(rt: &impl Abort, rule: &Rule) {
    assert!(rt; rule.number.get() == 100);
    assert!(rt; rule.src.address() == 167_772_160);
    assert!(rt; rule.src.length().get() == 8);
    assert!(rt; rule.dst.length().get() == 0);
}

fn has_config(rt: &impl Abort, config: &PipeConfig) {
    assert!(rt; config.bw.get() == 2_000_000);
    assert!(rt; config.delay.get() == 3);
    assert!(rt; config.plr.get() == 250_000);
    assert!(rt; config.mask.dst == 255);
}

fn has_codel(rt: &impl Abort, discipline: &Discipline) {
    let Discipline::ControlledDelay { target, interval } = discipline else {
        assert!(rt; false);
        return;
    };
    assert!(rt; target.get() == 1_000);
    assert!(rt; interval.get() == 50_000_000);
}

fn has_flow(rt: &impl Abort, flow: &FlowSpec) {
    assert!(rt; flow.src == 16_909_060);
    assert!(rt; flow.rwnd.get() == 7);
    assert!(rt; flow.ssthresh.get() == 65_535);
    match flow.timing {
        Timing::Adaptive => {}
        Timing::Fixed(_) => assert!(rt; false),
    }
}

/// Returns a number for each kind of command.
fn kind(command: &Command) -> u32 {
    match command {
        Command::Add(_) => 1,
        Command::Delete(_) => 2,
        Command::Config { .. } => 3,
        Command::PipeDelete(_) => 4,
        Command::PipeShow => 5,
        Command::Show => 6,
        Command::Inject(_) => 7,
        Command::Train { .. } => 8,
        Command::Flow { .. } => 9,
        Command::Stop(_) => 10,
        Command::OnePass(_) => 11,
        Command::End => 12,
        Command::Trace(_) => 13,
    }
}

/// Checks the worked numbers of a command.
fn has_numbers(rt: &impl Abort, command: &Command) {
    match command {
        Command::Add(rule) => has_rule(rt, rule),
        Command::Config { pipe, config } => {
            if pipe.get() == 3 {
                has_config(rt, config);
                has_codel(rt, &config.discipline);
            }
        }
        Command::Flow { flow, .. } => has_flow(rt, flow),
        _ => {}
    }
}

/// Checks two experiments with 15 commands in all, of each kind.
fn has_every_kind(rt: &impl Abort, scenario: &Scenario) {
    let mut commands = 0u32;
    let mut kinds = 0u32;
    for experiment in scenario.experiments() {
        for timed in experiment.commands.as_slice() {
            commands = commands.saturating_add(1);
            kinds = kinds.saturating_add(kind(&timed.command));
            has_numbers(rt, &timed.command);
        }
    }
    assert!(rt; scenario.experiments().len() == 2);
    assert!(rt; (commands, kinds) == (15, 106));
}

/// Checks each kind of command. The test also runs with each allocation failing in turn, and out of
/// memory is then the only other result.
#[test]
fn every_kind(rt: HostRuntime) {
    match parse_scenario(rt.alloc(), KINDS.as_bytes()) {
        Err(ParseError::NoMemory) => {}
        Err(ParseError::Fault(_)) => assert!(rt; false),
        Ok(scenario) => has_every_kind(&rt, &scenario),
    }
}
