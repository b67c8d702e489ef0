//! Worked numbers, each counted by hand. A test is proved safe too, so the calls are in functions
//! of their own, and the tests are tables.

use crate::tests::wants::assert_same;
use emu_model::{
    Action, Load, Packet, PipeNumber, Place, PortRange, Prefix, PrefixLength, Protocol,
    ProtocolMatch, Refusal, Rule, RuleNumber, Size, Verdict,
};
use emu_rules::{AddError, CountedRule, RuleList};
use std::alloc::Global;
use std::process::Abort;
use std::test::Fail;

/// A call, with the numbers of a rule and of what the rule names. A call after a place has the
/// place's number and order.
#[derive(Clone, Copy)]
enum Call {
    Allow(u32),
    Deny(u32),
    Count(u32),
    Skip(u32, u32),
    Pipe(u32, u16),
    Delete(u32),
    Send,
    Look,
    SendAfter(u32, u64),
    Classify,
    ClassifyAfter(u32, u64),
}

// Returns the nearest number in the range. The tables have no number outside it.

fn number(n: u32) -> RuleNumber {
    RuleNumber::new(n.min(99999)).unwrap()
}

fn pipe_number(n: u16) -> PipeNumber {
    PipeNumber::new(n.max(1)).unwrap()
}

fn prefix(address: u32, len: u8) -> Prefix {
    Prefix::new(address, PrefixLength::new(len.min(32)).unwrap())
}

fn place(n: u32, order: u64) -> Place {
    Place {
        number: number(n),
        order,
    }
}

/// Returns a rule that matches every packet.
fn rule(n: u32, action: Action) -> Rule {
    Rule {
        number: number(n),
        action,
        proto: ProtocolMatch::AnyProtocol,
        src: prefix(0, 0),
        sports: None,
        dst: prefix(0, 0),
        dports: None,
    }
}

/// Returns a packet of 1000 bytes.
fn packet(proto: Protocol, src: u32, sport: u16, dst: u32, dport: u16) -> Packet {
    Packet {
        proto,
        src,
        sport,
        dst,
        dport,
        size: Size::new(1000).unwrap(),
        number: 0,
        load: Load::Plain,
        place: place(0, 0),
    }
}

/// Returns a udp packet of 1000 bytes from 10.0.0.1:1000 to 10.0.0.2:2000.
fn udp() -> Packet {
    packet(Protocol::Udp, 0x0a00_0001, 1000, 0x0a00_0002, 2000)
}

fn word(verdict: Verdict) -> &'static str {
    match verdict {
        Verdict::OverTheLink => "allow",
        Verdict::Dropped => "deny",
        Verdict::IntoPipe(_, _) => "pipe",
    }
}

fn refusal_word(refusal: Refusal) -> &'static str {
    match refusal as u8 {
        10 => "bad number",
        11 => "bad skip",
        12 => "rules full",
        13 => "no rule",
        _ => "another",
    }
}

fn add(list: &mut RuleList, added: Rule) -> &'static str {
    match list.add(added) {
        Ok(()) => "ok",
        Err(AddError::NoMemory) => "no memory",
        Err(AddError::Refused(refusal)) => refusal_word(refusal),
    }
}

fn add_plain(list: &mut RuleList, n: u32, action: Action) -> &'static str {
    add(list, rule(n, action))
}

fn delete(list: &mut RuleList, n: u32) -> &'static str {
    match list.delete(number(n)) {
        Ok(()) => "ok",
        Err(refusal) => refusal_word(refusal),
    }
}

fn send(list: &mut RuleList) -> &'static str {
    word(list.verdict(&udp()))
}

fn look(list: &RuleList) -> &'static str {
    word(list.find(&udp()))
}

fn send_after(list: &mut RuleList, n: u32, order: u64) -> &'static str {
    word(list.verdict_after(place(n, order), &udp()))
}

fn classify(list: &mut RuleList) -> &'static str {
    word(list.classify_rule(&udp()).verdict)
}

fn classify_after(list: &mut RuleList, n: u32, order: u64) -> &'static str {
    word(list.classify_rule_after(place(n, order), &udp()).verdict)
}

fn answer(list: &mut RuleList, call: Call) -> &'static str {
    match call {
        Call::Allow(n) => add_plain(list, n, Action::Allow),
        Call::Deny(n) => add_plain(list, n, Action::Deny),
        Call::Count(n) => add_plain(list, n, Action::Count),
        Call::Skip(n, to) => add_plain(list, n, Action::SkipTo(number(to))),
        Call::Pipe(n, pipe) => add_plain(list, n, Action::Pipe(pipe_number(pipe))),
        Call::Delete(n) => delete(list, n),
        Call::Send => send(list),
        Call::Look => look(list),
        Call::SendAfter(n, order) => send_after(list, n, order),
        Call::Classify => classify(list),
        Call::ClassifyAfter(n, order) => classify_after(list, n, order),
    }
}

/// Checks that each call has its result.
fn answers(rt: &impl Abort, list: &mut RuleList, wanted: &[(Call, &'static str)]) {
    for (place, (call, want)) in wanted.iter().enumerate() {
        assert_same(rt, (place, answer(list, *call)), (place, *want));
    }
}

/// Returns true if a rule has this number, order, packets and bytes.
fn is_line(counted: &CountedRule, want: (u32, u64, u64, u64)) -> bool {
    let place = counted.place();
    counted.rule().number.get() == want.0
        && place.order == want.1
        && counted.packets() == want.2
        && counted.bytes() == want.3
}

/// Checks that the listing has these lines: number, order, packets, bytes.
fn lists(rt: &impl Abort, list: &mut RuleList, wanted: &[(u32, u64, u64, u64)]) {
    assert_same(rt, list.len(), wanted.len());
    for (place, want) in wanted.iter().enumerate() {
        let is_there = place < list.len() && is_line(&list.rule_at(place), *want);
        assert_same(rt, (place, is_there), (place, true));
    }
}

/// Returns true if a packet of 1000 bytes is sent to this pipe, with this place.
fn finds_pipe(list: &RuleList, wanted: (u16, u32, u64)) -> bool {
    let verdict = list.find(&udp());
    match verdict {
        Verdict::IntoPipe(pipe, place) => {
            (pipe.get(), place.number.get(), place.order) == wanted
        }
        _ => false,
    }
}

const JUMP: [(Call, &'static str); 6] = [
    (Call::Pipe(300, 1), "ok"),
    (Call::Count(100), "ok"),
    (Call::Skip(100, 300), "ok"),
    (Call::Deny(200), "ok"),
    (Call::Look, "pipe"),
    (Call::Send, "pipe"),
];

#[test]
fn jump_to_a_pipe(rt: HostRuntime) -> Result<(), Fail> {
    let mut list = RuleList::new(rt.alloc())?;
    answers(&rt, &mut list, &JUMP);
    lists(
        &rt,
        &mut list,
        &[
            (100, 1, 1, 1000),
            (100, 2, 1, 1000),
            (200, 3, 0, 0),
            (300, 0, 1, 1000),
            (65535, 0, 0, 0),
        ],
    );
    assert_holds!(&rt; finds_pipe(&list, (1, 300, 0)));
    Ok(())
}

/// Fills the list.
fn skip_from_all(rt: &impl Abort, list: &mut RuleList) {
    for n in 1..257 {
        assert_same(rt, (n, answer(list, Call::Skip(n, 65535))), (n, "ok"));
    }
}

const BEFORE_FULL: [(Call, &'static str); 4] = [
    (Call::Allow(65535), "bad number"),
    (Call::Skip(300, 300), "bad skip"),
    (Call::Delete(7), "no rule"),
    (Call::Delete(65535), "bad number"),
];

const FULL: [(Call, &'static str); 3] = [
    (Call::Allow(300), "rules full"),
    (Call::Skip(300, 65536), "bad skip"),
    (Call::Send, "deny"),
];

#[test]
fn refusals(rt: HostRuntime) -> Result<(), Fail> {
    let mut list = RuleList::new(rt.alloc())?;
    answers(&rt, &mut list, &BEFORE_FULL);
    skip_from_all(&rt, &mut list);
    answers(&rt, &mut list, &FULL);
    Ok(())
}

const REPLACED: [(Call, &'static str); 9] = [
    (Call::Pipe(100, 1), "ok"),
    (Call::Allow(300), "ok"),
    (Call::Send, "pipe"),
    (Call::SendAfter(100, 0), "allow"),
    (Call::Delete(100), "ok"),
    (Call::ClassifyAfter(100, 0), "allow"),
    (Call::Deny(100), "ok"),
    (Call::ClassifyAfter(100, 0), "deny"),
    (Call::SendAfter(100, 0), "deny"),
];

#[test]
fn rule_replaced_behind_a_pipe(rt: HostRuntime) -> Result<(), Fail> {
    let mut list = RuleList::new(rt.alloc())?;
    answers(&rt, &mut list, &REPLACED);
    lists(
        &rt,
        &mut list,
        &[(100, 2, 1, 1000), (300, 1, 1, 1000), (65535, 0, 0, 0)],
    );
    Ok(())
}

const FOUND_BEFORE: [(Call, &'static str); 11] = [
    (Call::Classify, "deny"),
    (Call::Send, "deny"),
    (Call::Allow(6), "ok"),
    (Call::Classify, "allow"),
    (Call::Send, "allow"),
    (Call::ClassifyAfter(1, 0), "allow"),
    (Call::Delete(3), "ok"),
    (Call::SendAfter(1, 0), "allow"),
    (Call::Delete(6), "ok"),
    (Call::Classify, "deny"),
    (Call::SendAfter(1, 0), "deny"),
];

/// Adds and removes rules between packets of one flow, in a list that is long enough for paths.
#[test]
fn what_was_found_before_changes(rt: HostRuntime) -> Result<(), Fail> {
    let mut list = made_at_last(rt.alloc())?;
    grows_to(&rt, &mut list, 6);
    answers(&rt, &mut list, &FOUND_BEFORE);
    lists(
        &rt,
        &mut list,
        &[
            (1, 0, 2, 2000),
            (2, 1, 4, 4000),
            (4, 3, 4, 4000),
            (5, 4, 4, 4000),
            (65535, 0, 2, 2000),
        ],
    );
    Ok(())
}

const COUNTED: [(Call, &'static str); 11] = [
    (Call::Skip(3, 5), "ok"),
    (Call::Allow(7), "ok"),
    (Call::Classify, "allow"),
    (Call::Send, "allow"),
    (Call::Send, "allow"),
    (Call::Delete(2), "ok"),
    (Call::Count(2), "ok"),
    (Call::Classify, "allow"),
    (Call::Send, "allow"),
    (Call::ClassifyAfter(2, 7), "allow"),
    (Call::SendAfter(2, 7), "allow"),
];

/// Checks that packets of one flow are counted by their path, and that the counts are added to its
/// rules when they are listed, and when one is removed.
#[test]
fn what_a_path_counted(rt: HostRuntime) -> Result<(), Fail> {
    let mut list = made_at_last(rt.alloc())?;
    grows_to(&rt, &mut list, 6);
    answers(&rt, &mut list, &COUNTED);
    lists(
        &rt,
        &mut list,
        &[
            (1, 0, 3, 3000),
            (2, 7, 1, 1000),
            (3, 2, 4, 4000),
            (3, 5, 4, 4000),
            (4, 3, 0, 0),
            (5, 4, 4, 4000),
            (7, 6, 4, 4000),
            (65535, 0, 0, 0),
        ],
    );
    assert_same(&rt, send(&mut list), "allow");
    Ok(())
}

/// Creates a list, and retries once if an allocation fails.
fn made_at_last(alloc: Global) -> Result<RuleList, Fail> {
    match RuleList::new(alloc) {
        Ok(list) => Ok(list),
        Err(_) => Ok(RuleList::new(alloc)?),
    }
}

/// Adds a rule for each number below an end, one after the other.
fn grows_to(rt: &impl Abort, list: &mut RuleList, end: u32) {
    for n in 1..end {
        assert_same(rt, (n, grows(list, n)), (n, true));
    }
}

/// Adds a rule, and retries once if an allocation fails, after which the list must be unchanged.
fn grows(list: &mut RuleList, n: u32) -> bool {
    let before = list.len();
    let first = answer(list, Call::Count(n));
    if first == "ok" {
        return list.len() > before;
    }
    list.len() == before && answer(list, Call::Count(n)) == "ok"
}

/// Checks growth. Passes with ample memory, and if any one allocation fails.
#[test]
fn memory_may_be_refused(rt: HostRuntime) -> Result<(), Fail> {
    let mut list = made_at_last(rt.alloc())?;
    grows_to(&rt, &mut list, 20);
    Ok(())
}

/// Returns the rule allow udp from 10.0.0.0/30 1000-1001 to 10.0.0.2/32 2000-2000.
fn narrow_rule() -> Rule {
    Rule {
        number: number(100),
        action: Action::Allow,
        proto: ProtocolMatch::OnlyUdp,
        src: prefix(0x0a00_0000, 30),
        sports: PortRange::new(1000, 1001),
        dst: prefix(0x0a00_0002, 32),
        dports: PortRange::new(2000, 2000),
    }
}

/// The packets, given by their protocol, source and destination, each with its port, and the
/// verdicts, worked out by hand.
const MATCHES: [(Protocol, u32, u16, u32, u16, &'static str); 8] = [
    (Protocol::Udp, 0x0a00_0001, 1000, 0x0a00_0002, 2000, "allow"),
    (Protocol::Udp, 0x0a00_0003, 1001, 0x0a00_0002, 2000, "allow"),
    (Protocol::Tcp, 0x0a00_0001, 1000, 0x0a00_0002, 2000, "deny"),
    (Protocol::Udp, 0x0a00_0004, 1000, 0x0a00_0002, 2000, "deny"),
    (Protocol::Udp, 0x0a00_0001, 1002, 0x0a00_0002, 2000, "deny"),
    (Protocol::Udp, 0x0a00_0001, 999, 0x0a00_0002, 2000, "deny"),
    (Protocol::Udp, 0x0a00_0001, 1000, 0x0a00_0003, 2000, "deny"),
    (Protocol::Udp, 0x0a00_0001, 1000, 0x0a00_0002, 2001, "deny"),
];

/// Checks that the only rule of this list matches the right packets.
fn matches_as_told(rt: &impl Abort, list: &RuleList) {
    for (place, (proto, src, sport, dst, dport, want)) in MATCHES.iter().enumerate() {
        let sent = packet(*proto, *src, *sport, *dst, *dport);
        assert_same(rt, (place, word(list.find(&sent))), (place, *want));
    }
}

#[test]
fn what_a_rule_matches(rt: HostRuntime) -> Result<(), Fail> {
    let mut list = RuleList::new(rt.alloc())?;
    assert_same(&rt, add(&mut list, narrow_rule()), "ok");
    matches_as_told(&rt, &list);
    Ok(())
}

/// Returns the rule allow udp from any 1-300 to any.
fn low_ports() -> Rule {
    Rule {
        proto: ProtocolMatch::OnlyUdp,
        sports: PortRange::new(1, 300),
        ..rule(10, Action::Allow)
    }
}

/// Checks that each of 3000 flows has its own verdict, first predicted and then counted.
fn take_turns(list: &mut RuleList) -> bool {
    for sport in 1..3001 {
        let sent = packet(Protocol::Udp, 0x0a00_0001, sport, 0x0a00_0002, 2000);
        let want = if sport <= 300 { "allow" } else { "deny" };
        if word(list.classify_rule(&sent).verdict) != want || word(list.verdict(&sent)) != want {
            return false;
        }
    }
    true
}

const DENIALS: [(Call, &'static str); 4] = [
    (Call::Deny(20), "ok"),
    (Call::Deny(21), "ok"),
    (Call::Deny(22), "ok"),
    (Call::Deny(23), "ok"),
];

/// Checks more flows than there are places for paths, in turn, so that they replace each other.
#[test]
fn flows_at_one_place(rt: HostRuntime) -> Result<(), Fail> {
    let mut list = RuleList::new(rt.alloc())?;
    assert_same(&rt, add(&mut list, low_ports()), "ok");
    answers(&rt, &mut list, &DENIALS);
    assert_holds!(&rt; take_turns(&mut list));
    assert_holds!(&rt; take_turns(&mut list));
    lists(
        &rt,
        &mut list,
        &[
            (10, 0, 600, 600_000),
            (20, 1, 5400, 5_400_000),
            (21, 2, 0, 0),
            (22, 3, 0, 0),
            (23, 4, 0, 0),
            (65535, 0, 0, 0),
        ],
    );
    Ok(())
}
