//! Sessions over memory, and a scenario's bytes through the pure core.

use super::*;
use alone::{NoHints, live, reports_of};

/// Returns the result of a session, and its output.
fn talk(alloc: Global, lines: &str) -> (Result<(), RunFault>, Vec<u8>) {
    let mut reader = Device::new(lines.as_bytes());
    let mut writer = Device::new(Vec::new(alloc));
    let outcome = live(alloc, &mut reader, &mut writer, &NoHints, None);
    (outcome, writer.into_inner())
}

/// A link on which 1000 bytes at 1 Mbit/s take 8 ms, followed by 10 ms of delay: the packet arrives
/// at 18 ms, and the reply is sent 1 ns later.
const ASKED: &str = "experiment by-hand seed 1 budget 10\n\
    @0 pipe 1 config bw 1Mbit/s delay 10\n\
    @0 add 100 pipe 1 ip from any to any\n\
    @0 inject udp 10.0.0.1 1000 10.0.0.2 2000 1000\n\
    #> next\n\
    #> until @1000000000 first\n\
    @18000001 inject udp 10.0.0.2 2000 10.0.0.1 1000 40\n\
    #> until @10\n\
    #> until @1000000000 first\n\
    @28320002 end\n";

const ANSWERED: &str = "experiment by-hand\n\
    #< ok\n\
    0 ok 0\n\
    #< ok\n\
    0 ok 1\n\
    #< ok\n\
    0 ok 2\n\
    #< packet 0\n\
    #< next 8000000\n\
    8000000 finish 0 1.0\n\
    18000000 deliver 0 plain\n\
    #< now 18000001\n\
    18000001 ok 3\n\
    #< packet 1\n\
    #< fault backwards\n\
    18320001 finish 1 1.0\n\
    28320001 deliver 1 plain\n\
    #< now 28320002\n\
    28320002 ok 4\n\
    counters 2 2 0 0 0 0 0 0 0 0 0\n\
    #< over 28320002\n";

#[test]
fn reacts_by_hand(rt: HostRuntime) {
    let (outcome, written) = talk(rt.alloc(), ASKED);
    assert!(rt; outcome == Ok(()));
    assert!(rt; written.as_slice() == ANSWERED.as_bytes());
}

/// The link of `ASKED`. The packet finishes at 8 ms, and nothing is due after its delivery. From
/// `next on` to `next off`, each answer that doesn't report the time itself has the next due.
const ADDED: &str = "#> next on\n\
    experiment by-hand seed 1 budget 10\n\
    @0 pipe 1 config bw 1Mbit/s delay 10\n\
    @0 add 100 pipe 1 ip from any to any\n\
    #> next on\n\
    @0 inject udp 10.0.0.1 1000 10.0.0.2 2000 1000\n\
    #> next\n\
    #> until @8000001\n\
    @8000001 delete 7\n\
    #> until @1000000000 first\n\
    experiment other seed 1 budget 10\n\
    #> use by-hand\n\
    #> next of\n\
    #> next off\n\
    #> until @18000002\n\
    #> next on\n\
    @18000002 end\n\
    #> show all\n";

const ADDED_ANSWERED: &str = "#< fault noexperiment\n\
    experiment by-hand\n\
    #< ok\n\
    0 ok 0\n\
    #< ok\n\
    0 ok 1\n\
    #< ok\n\
    #< ok next none\n\
    0 ok 2\n\
    #< packet 0 next 8000000\n\
    #< next 8000000\n\
    8000000 finish 0 1.0\n\
    #< now 8000001 next 18000000\n\
    8000001 refused 3 13\n\
    #< refused 13 next 18000000\n\
    18000000 deliver 0 plain\n\
    #< now 18000001 next none\n\
    experiment other\n\
    #< ok\n\
    #: by-hand\n\
    #< ok next none\n\
    #< fault badword\n\
    #< ok\n\
    #< now 18000002\n\
    #< ok next none\n\
    18000002 ok 4\n\
    counters 1 1 0 0 0 0 0 0 0 0 0\n\
    #< over 18000002\n\
    #< ok over 18000002\n";

#[test]
fn adds_the_next_due_by_hand(rt: HostRuntime) {
    let (_outcome, written) = talk(rt.alloc(), ADDED);
    assert!(rt; written.as_slice() == ADDED_ANSWERED.as_bytes());
}

/// One packet in each experiment. Only the second one is traced: `trace on` changes none that has
/// begun, and neither does `trace off`.
const TRACED: &str = "experiment before seed 1 budget 1\n\
    #> trace on\n\
    @0 add 100 allow ip from any to any\n\
    @0 inject udp 10.0.0.1 1000 10.0.0.2 2000 1000\n\
    @1 trace 0\n\
    @2 end\n\
    experiment traced seed 1 budget 1\n\
    #> next on\n\
    #> trace off\n\
    @0 trace 0\n\
    @0 inject udp 10.0.0.1 1000 10.0.0.2 2000 1000\n\
    @0 end\n\
    #> trace\n\
    #> trace onn\n\
    experiment after seed 1 budget 1\n\
    @0 inject udp 10.0.0.1 1000 10.0.0.2 2000 1000\n\
    @0 end\n";

const TRACED_ANSWERED: &str = "experiment before\n\
    #< ok\n\
    #< ok\n\
    0 ok 0\n\
    #< ok\n\
    0 ok 1\n\
    #< packet 0\n\
    1 ok 2\n\
    #< ok\n\
    1 deliver 0 plain\n\
    2 ok 3\n\
    counters 1 1 0 0 0 0 0 0 0 0 0\n\
    #< over 2\n\
    experiment traced\n\
    #< ok\n\
    #< ok next none\n\
    #< ok next none\n\
    0 ok 0\n\
    #< ok next none\n\
    0 ok 1\n\
    0 make 0 plain udp 10.0.0.1 1000 10.0.0.2 2000 1000\n\
    0 drop 0 plain denied\n\
    #< packet 0 next none\n\
    0 ok 2\n\
    counters 1 0 0 1 0 0 0 0 0 0 0\n\
    #< over 0\n\
    #< fault badword\n\
    #< fault badword\n\
    experiment after\n\
    #< ok\n\
    0 ok 0\n\
    0 drop 0 plain denied\n\
    #< packet 0\n\
    0 ok 1\n\
    counters 1 0 0 1 0 0 0 0 0 0 0\n\
    #< over 0\n";

#[test]
fn traces_experiments_that_begin_later(rt: HostRuntime) {
    let (_outcome, written) = talk(rt.alloc(), TRACED);
    assert!(rt; written.as_slice() == TRACED_ANSWERED.as_bytes());
}

#[test]
fn ends_as_a_text_does(rt: HostRuntime) {
    let (outcome, written) = talk(rt.alloc(), "experiment a seed 1 budget 1\n@0 end");
    let cause = Cause::Cut;
    assert!(rt; outcome == Err(RunFault::Scenario(Fault { line: 2, cause })));
    assert!(rt; written.as_slice() == "experiment a\n#< ok\n".as_bytes());
    let (outcome, _written) = talk(rt.alloc(), "experiment a seed 1 budget 1\n");
    let cause = Cause::NoEnd;
    assert!(rt; outcome == Err(RunFault::Scenario(Fault { line: 2, cause })));
}

#[test]
fn reports_from_bytes(rt: HostRuntime) -> Result<(), Fail> {
    let reports = reports_of(rt.alloc(), texts::ONE_PACKET.as_bytes()).map_err(|_e| "reports")?;
    assert!(rt; reports.each().len() == 1);
    for report in reports.each() {
        let text = report.text(rt.alloc()).map_err(|_e| "text")?;
        assert!(rt; text.as_slice() == texts::ONE_PACKET_REPORT.as_bytes());
    }
    let fault = reports_of(rt.alloc(), b"@0 end\n").err();
    let cause = Cause::NoExperiment;
    assert!(rt; fault == Some(RunFault::Scenario(Fault { line: 1, cause })));
    Ok(())
}
