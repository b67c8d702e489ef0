//! Faulty words, by their numbers in the line, and the hints for them.

use control::{Behind, Check, Expected, FlowSeen, FlowWord, RuleWord, blame, blame_behind};
use explain::{byte_hint, expected_at, hint, range_hint};
use std::process::Abort;
use std::test::*;

/// Checks the number of the first faulty word of each line, or that there is none.
fn blames(rt: &impl Abort, check: Check, lines: &[(&str, Option<usize>)]) {
    for (line, index) in lines {
        let found = blame(line.as_bytes(), check).map(|blamed| blamed.index);
        assert!(rt; found == *index, "in {line}");
    }
}

#[test]
fn words_without_their_form(rt: HostRuntime) {
    blames(
        &rt,
        Check::Forms,
        &[
            ("", Some(0)),
            ("experiment a seed 0 budget 1", None),
            ("experiment a seed 0 budget 1 step 5", Some(6)),
            ("experiment a seed 0 budget 1 steps", Some(7)),
            ("@0 add 1 allow ip from any to any", None),
            ("@0 add 1 allow ip from any 5 to any 6-7", None),
            ("@0 add 1 skipto to ip from any to any", Some(4)),
            ("@0 add 1 pipe 2 ip from any 5 any", Some(9)),
            ("@0 add 1 deny ip from any to any 1 2", Some(10)),
            ("@0 pipe show now", Some(3)),
            ("@0 pipe delete", Some(3)),
            (
                "@0 train 1 udp 1.2.3.4 1 1.2.3.4 2 99 count 1 gap",
                Some(12),
            ),
            ("@0 pipe 1 config mask proto 0xff src-ip 0x1 codel", None),
            ("@0 pipe 1 config mask proto 0xff proto 0xff", Some(7)),
            ("@0 pipe 1 config codel target 1 target 2", Some(7)),
            ("@0 flow 1 1.2.3.4 1 1.2.3.4 2 smss 9 segments 9", None),
        ],
    );
}

#[test]
fn numbers_outside_their_range(rt: HostRuntime) {
    blames(
        &rt,
        Check::Ranges,
        &[
            (
                "@0 flow 1 1.2.3.4 1 1.2.3.4 2 smss 99 segments 9 rto adaptive",
                None,
            ),
            ("@0 flow 1 1.2.3.4 1 1.2.3.4 2 smss 9 segments 9", Some(8)),
            ("@0 stop 0", Some(2)),
        ],
    );
}

#[test]
fn words_behind(rt: HostRuntime) {
    let line = b"@0 inject udp 10.0.0 1 10.0.0.2 70000 9 ";
    let first = blame(line, Check::Ranges).expect(&rt, "the address is at fault");
    assert!(rt; first.index == 3);
    let Behind::Fault(second) = blame_behind(line, &first) else {
        panic!(rt; "the port is at fault too");
    };
    assert!(rt; second.index == 6);
    let Behind::Fault(third) = blame_behind(line, &second) else {
        panic!(rt; "the size is at fault too");
    };
    assert!(rt; third.index == 7);
    assert!(rt; matches!(blame_behind(line, &third), Behind::Fine));
    let line = b"@0 inject udp 10.0.0 1 10.0.0.2 7";
    let first = blame(line, Check::Ranges).expect(&rt, "the address is at fault");
    let Behind::Fault(second) = blame_behind(line, &first) else {
        panic!(rt; "the size is lacking");
    };
    assert!(rt; second.index == 7);
    assert!(rt; matches!(blame_behind(line, &second), Behind::Unsure));
}

#[test]
fn hints(rt: HostRuntime) {
    let seen = FlowSeen {
        ssthresh: true,
        window: false,
        timing: false,
    };
    let option = Expected::Flow(FlowWord::Setting(seen));
    assert!(rt; expected_at(option, b"ssthresh").expected == "each option at most once");
    assert!(rt; hint(option, b"ssthresh").is_none());
    let ports = Expected::Rule(RuleWord::LastPorts);
    assert!(rt;
        hint(ports, b"80,90")
            == Some("no lists: a rule has one port or one range; write a rule for each")
    );
    assert!(rt; hint(Expected::Stopped, b"#") == Some("a comment has a line of its own"));
    assert!(rt;
        range_hint(ports, b"9-3") == Some("the first port is above the last: turn them round")
    );
    assert!(rt; range_hint(ports, b"1-70000").is_none());
    assert!(rt; byte_hint(b"\tshow") == "it is a tab: put spaces between words");
}
