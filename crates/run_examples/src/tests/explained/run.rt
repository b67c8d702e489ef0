//! Warnings, written by hand.

use control::parse_scenario;
use emu_model::{PipeNumber, Protocol};
use explain::{Concern, Ends, Note, Sent, Subject, Warning, warnings};
use std::process::Abort;
use std::test::*;

const SCENARIO: &str = "experiment a seed 3 budget 9
@0 add 100 pipe 1 tcp from 10.0.0.0/8 to any 80
@0 add 200 pipe 7 ip from any to 11.0.0.0/8
@0 pipe 1 config delay 5
@0 flow 1 10.0.0.1 1000 12.0.0.1 80 smss 1000 segments 5
@5 inject udp 1.2.3.4 1 5.6.7.8 2 100
@9 end
";

/// Checks the warnings of the scenario's only experiment.
fn warns(rt: &(impl Abort + AllocGlobal), notes: Option<&[Note]>, wanted: &[Warning]) {
    let scenario = parse_scenario(rt.alloc(), SCENARIO.as_bytes())
        .ok()
        .expect(rt, "a scenario");
    let experiment = scenario.experiments().first().expect(rt, "an experiment");
    let commands = experiment.commands.as_slice();
    let found = warnings(rt.alloc(), 1, experiment.spec.seed, commands, notes).expect(rt, "memory");
    assert!(rt; found.as_slice() == wanted);
}

fn of_all(concern: Concern) -> Warning {
    Warning {
        command: None,
        concern,
    }
}

fn of_command(command: u64, concern: Concern) -> Warning {
    Warning {
        command: Some(command),
        concern,
    }
}

/// Returns the warning about acknowledgements of the flow, from 12.0.0.1:80 to 10.0.0.1:1000, with
/// their number if it was counted.
fn no_way_back(count: Option<u64>) -> Concern {
    Concern::NoWay {
        ends: Ends {
            proto: Protocol::Tcp,
            src: 0x0c00_0001,
            sport: 80,
            dst: 0x0a00_0001,
            dport: 1000,
        },
        sent: Sent::Acks,
        count,
        other: true,
    }
}

/// Returns the warning about the single packet, from 1.2.3.4:1 to 5.6.7.8:2.
fn no_way() -> Concern {
    Concern::NoWay {
        ends: Ends {
            proto: Protocol::Udp,
            src: 0x0102_0304,
            sport: 1,
            dst: 0x0506_0708,
            dport: 2,
        },
        sent: Sent::Packets,
        count: None,
        other: false,
    }
}

fn no_pipe() -> Concern {
    Concern::NoPipe(PipeNumber::new(7).unwrap())
}

fn note(experiment: u64, subject: Subject, first: u64, count: u64) -> Note {
    Note {
        experiment,
        subject,
        first,
        count,
    }
}

#[test]
fn by_the_scenario(rt: HostRuntime) {
    let wanted = [
        of_all(Concern::UnusedSeed),
        of_command(1, no_pipe()),
        of_command(3, no_way_back(None)),
        of_command(4, no_way()),
    ];
    warns(&rt, None, &wanted);
}

#[test]
fn behind_a_run(rt: HostRuntime) {
    let notes = [
        note(1, Subject::DeniedAck(1), 7, 2),
        note(2, Subject::Spent, 7, 1),
        note(1, Subject::OverBudget, 6, 3),
        note(1, Subject::Spent, 8, 1),
    ];
    let wanted = [
        of_command(3, no_way_back(Some(2))),
        of_all(Concern::OverBudget { first: 6, count: 3 }),
        of_all(Concern::Spent { moment: 8, end: 9 }),
        of_all(Concern::UnusedSeed),
        of_command(1, no_pipe()),
        of_command(4, no_way()),
    ];
    warns(&rt, Some(&notes), &wanted);
}
