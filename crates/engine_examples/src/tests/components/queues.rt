//! The numbers of the control law, the limits, runs with CoDel, and failed allocations.

ghost use Rattle.emu_model.specs.Moments.{IsMoment};

use crate::tests::wants::assert_same;
use emu_model::{CodelTime, KByteLimit, QueueLimit, Size, SlotLimit};
use queue_disc::*;
use std::alloc::{AllocError, Global};
use std::process::Abort;

const MILLISECOND: u64 = 1_000_000;

fn size(rt: &impl Abort, bytes: u16) -> Size {
    Size::new(bytes).expect(rt, "a size")
}

fn slots(rt: &impl Abort, count: u16) -> QueueLimit {
    QueueLimit::Slots(SlotLimit::new(count).expect(rt, "a limit"))
}

fn time(rt: &impl Abort, nanoseconds: u64) -> CodelTime {
    CodelTime::new(nanoseconds).expect(rt, "a time")
}

fn cause(refused: Result<(), Refused<u32>>) -> Option<EnqueueError> {
    match refused {
        Ok(()) => None,
        Err(refused) => Some(refused.cause),
    }
}

#[test]
fn control_law_rounds_down(rt: HostRuntime) {
    let interval = time(&rt, 100 * MILLISECOND);
    assert_same(&rt, control_law(112_000_000, 1, interval), 212_000_000);
    assert_same(&rt, control_law(212_000_000, 2, interval), 282_710_678);
    let longest = time(&rt, 60_000 * MILLISECOND);
    assert_same(&rt, control_law(0, 4, longest), 30_000 * MILLISECOND);
    assert_same(&rt, control_law(7, u32::MAX, time(&rt, 1000)), 7);
}

/// Checks that a packet is accepted, or refused for this cause, at ten times its number.
fn comes(
    rt: &impl Abort,
    tail: &mut DropTail<u32>,
    packet: u32,
    bytes: u16,
    wanted: Option<EnqueueError>,
) {
    let now = 10 * u64::from(packet);
    let answer = cause(tail.enqueue(packet, size(rt, bytes), now));
    assert_holds!(rt; answer == wanted);
}

/// Checks that a packet is accepted by a CoDel queue, or refused for this cause, at ten times its
/// number.
fn comes_to_codel(
    rt: &impl Abort,
    queue: &mut Codel<u32>,
    packet: u32,
    bytes: u16,
    wanted: Option<EnqueueError>,
) {
    let now = 10 * u64::from(packet);
    let answer = cause(queue.enqueue(packet, size(rt, bytes), now));
    assert_holds!(rt; answer == wanted);
}

const FULL: Option<EnqueueError> = Some(EnqueueError::Full);

/// Returns the number, size and time stamp of a dequeued packet.
fn parts(given: Option<Queued<u32>>) -> Option<(u32, u16, u64)> {
    match given {
        Some(waiting) => Some((waiting.item, waiting.size.get(), waiting.stamp)),
        None => None,
    }
}

fn slots_limit(rt: &impl Abort, queue: &mut DropTail<u32>) {
    comes(rt, queue, 5, 40, None);
    comes(rt, queue, 6, 1500, None);
    comes(rt, queue, 7, 40, FULL);
    assert_same(rt, (queue.waiting(), queue.bytes()), (2, 1540));
    queue.set_limit(slots(rt, 1));
    assert_same(rt, parts(queue.dequeue()), Some((5, 40, 50)));
    comes(rt, queue, 8, 40, FULL);
    assert_same(rt, (queue.waiting(), queue.bytes()), (1, 1500));
}

#[test]
fn slots_limit_what_waits(rt: HostRuntime) {
    let mut queue = DropTail::new(rt.alloc(), slots(&rt, 2));
    slots_limit(&rt, &mut queue);
}

fn kbytes_limit(rt: &impl Abort, queue: &mut DropTail<u32>) {
    comes(rt, queue, 0, 1500, FULL);
    comes(rt, queue, 1, 600, None);
    comes(rt, queue, 2, 600, FULL);
    comes(rt, queue, 3, 424, None);
    assert_same(rt, (queue.waiting(), queue.bytes()), (2, 1024));
}

#[test]
fn kbytes_limit_what_waits(rt: HostRuntime) {
    let kbyte = KByteLimit::new(1).expect(&rt, "a limit");
    let mut queue = DropTail::new(rt.alloc(), QueueLimit::KBytes(kbyte));
    kbytes_limit(&rt, &mut queue);
}

/// The fate of a packet, and its time.
#[derive(Clone, Copy, Debug, PartialEq)]
enum Event {
    Dropped(u64, u32),
    Given(u64, u32),
}

fn codel(rt: &(impl Abort + AllocGlobal)) -> Codel<u32> {
    let (target, interval) = (time(rt, 5 * MILLISECOND), time(rt, 100 * MILLISECOND));
    Codel::new(rt.alloc(), slots(rt, 50), target, interval)
}

/// Enqueues `count` packets of 1000 bytes at a time, numbered from `first` on.
fn come(rt: &impl Abort, queue: &mut Codel<u32>, first: u32, count: u32, now: u64) {
    for place in 0..count {
        let packet = first.saturating_add(place);
        let answer = cause(queue.enqueue(packet, size(rt, 1000), now));
        assert_same(rt, answer, None);
    }
}

fn note(rt: &impl Abort, events: &mut Vec<Event>, event: Event) {
    assert_holds!(rt; events.push(event).is_ok());
}

/// Records the drops of a dequeue at a time, and the packets that it returns from `from` on.
fn note_all(
    rt: &impl Abort,
    events: &mut Vec<Event>,
    now: u64,
    from: u64,
    dequeued: &Dequeued<u32>,
) {
    for waiting in &dequeued.dropped {
        note(rt, events, Event::Dropped(now, waiting.item));
    }
    if let Some(waiting) = &dequeued.given {
        if from <= now {
            note(rt, events, Event::Given(now, waiting.item));
        }
    }
}

/// Dequeues once at a time.
fn leave(rt: &impl Abort, queue: &mut Codel<u32>, now: u64, from: u64, events: &mut Vec<Event>)
    requires { IsMoment now }
{
    let dequeued = queue.dequeue(now).ok().expect(rt, "memory");
    note_all(rt, events, now, from, &dequeued);
}

/// Dequeues every 8 ms, from `first` times 8 ms to before `end` times 8 ms.
fn serve(
    rt: &impl Abort,
    queue: &mut Codel<u32>,
    first: u16,
    end: u16,
    from: u64,
    events: &mut Vec<Event>,
) {
    for turn in first..end {
        leave(rt, queue, 8 * MILLISECOND * u64::from(turn), from, events);
    }
}

fn are(rt: &impl Abort, events: &Vec<Event>, wanted: &[Event]) {
    assert_holds!(rt; events.as_slice() == wanted);
}

/// Checks the events of a queue in which this number of packets arrive at time 0.
fn serves_all(rt: &(impl Abort + AllocGlobal), packets: u32, from: u64, wanted: &[Event]) {
    let mut queue = codel(rt);
    come(rt, &mut queue, 0, packets, 0);
    let mut events = Vec::new(rt.alloc());
    serve(rt, &mut queue, 0, 40, from, &mut events);
    are(rt, &events, wanted);
}

const OF_THIRTY: [Event; 4] = [
    Event::Dropped(112 * MILLISECOND, 14),
    Event::Given(208 * MILLISECOND, 27),
    Event::Given(216 * MILLISECOND, 28),
    Event::Given(224 * MILLISECOND, 29),
];

#[test]
fn codel_drops_once_of_thirty(rt: HostRuntime) {
    serves_all(&rt, 30, 208 * MILLISECOND, &OF_THIRTY);
}

const OF_FORTY: [Event; 5] = [
    Event::Dropped(112 * MILLISECOND, 14),
    Event::Dropped(216 * MILLISECOND, 28),
    Event::Given(280 * MILLISECOND, 37),
    Event::Given(288 * MILLISECOND, 38),
    Event::Given(296 * MILLISECOND, 39),
];

#[test]
fn codel_drops_twice_of_forty(rt: HostRuntime) {
    serves_all(&rt, 40, 280 * MILLISECOND, &OF_FORTY);
}

const AT_THE_NANOSECOND: [Event; 6] = [
    Event::Dropped(112 * MILLISECOND, 14),
    Event::Dropped(216 * MILLISECOND, 28),
    Event::Given(280 * MILLISECOND, 37),
    Event::Given(282_710_677, 38),
    Event::Dropped(282_710_678, 39),
    Event::Given(282_710_678, 40),
];

/// Checks that packets 14 and 28 are dropped, at 112 and at 216 ms. The next drop is due 100 ms
/// divided by the square root of 2, which is 70710678.1 ns, after 212 ms, and not a nanosecond
/// earlier.
#[test]
fn codel_drops_at_the_nanosecond(rt: HostRuntime) {
    let mut queue = codel(&rt);
    come(&rt, &mut queue, 0, 44, 0);
    let mut events = Vec::new(rt.alloc());
    serve(&rt, &mut queue, 0, 36, 280 * MILLISECOND, &mut events);
    leave(&rt, &mut queue, 282_710_677, 0, &mut events);
    leave(&rt, &mut queue, 282_710_678, 0, &mut events);
    are(&rt, &events, &AT_THE_NANOSECOND);
}

const BEGUN_AGAIN: [Event; 6] = [
    Event::Dropped(112 * MILLISECOND, 14),
    Event::Given(216 * MILLISECOND, 28),
    Event::Given(320 * MILLISECOND, 41),
    Event::Dropped(328 * MILLISECOND, 42),
    Event::Given(328 * MILLISECOND, 43),
    Event::Given(336 * MILLISECOND, 44),
];

/// Checks that dropping ends at 216 ms with thirty packets, when 1000 bytes are left. Of the
/// packets that arrive then, only one is dropped, the first that is dequeued 100 ms after 224 ms.
/// If the queue were still dropping, drops would be due since 212 ms.
#[test]
fn codel_begins_again_after_it_ended(rt: HostRuntime) {
    let mut queue = codel(&rt);
    come(&rt, &mut queue, 0, 30, 0);
    let mut events = Vec::new(rt.alloc());
    serve(&rt, &mut queue, 0, 28, 216 * MILLISECOND, &mut events);
    assert_same(&rt, queue.bytes(), 1000);
    come(&rt, &mut queue, 30, 20, 216 * MILLISECOND);
    serve(&rt, &mut queue, 28, 43, 320 * MILLISECOND, &mut events);
    are(&rt, &events, &BEGUN_AGAIN);
}

/// Allocates smaller and smaller blocks until not even a few bytes are available. Returns false if
/// the allocator has no such end.
fn fill(alloc: Global, blocks: &mut Vec<Vec<u64>>) -> bool {
    let mut words: usize = 1 << 43;
    for _ in 0..MAX_BLOCKS {
        match Vec::with_capacity(alloc, words) {
            Ok(block) => {
                if blocks.push(block).is_err() {
                    return false;
                }
            }
            Err(_) if words == 1 => return true,
            Err(_) => words /= 2,
        }
    }
    false
}

const MAX_BLOCKS: usize = 60_000;

/// Checks that a queue of each kind reports a failed allocation. `dropping` has been above its
/// target since 0, and drops at 300 ms.
fn queues_refuse(
    rt: &impl Abort,
    tail: &mut DropTail<u32>,
    fresh: &mut Codel<u32>,
    dropping: &mut Codel<u32>,
) {
    let small = size(rt, 40);
    let refused = Some(EnqueueError::NoMemory);
    comes(rt, tail, 1, 40, refused);
    comes_to_codel(rt, fresh, 1, 40, refused);
    assert_same(rt, fresh.enqueue_ready(small, 0), Err(AllocError));
    assert_holds!(rt; dropping.dequeue(300 * MILLISECOND).is_err());
    assert_same(rt, (dropping.waiting(), dropping.bytes()), (3, 3000));
}

fn queues_go_on(
    rt: &impl Abort,
    tail: &mut DropTail<u32>,
    fresh: &mut Codel<u32>,
    dropping: &mut Codel<u32>,
) {
    comes(rt, tail, 1, 40, None);
    comes_to_codel(rt, fresh, 1, 40, None);
    let served = dropping
        .dequeue(300 * MILLISECOND)
        .ok()
        .expect(rt, "memory");
    assert_same(rt, served.dropped.len(), 1);
    assert_same(rt, parts(served.given), Some((2, 1000, 0)));
}

#[test]
fn memory_that_runs_out_changes_nothing(rt: HostRuntime) {
    let mut tail = DropTail::new(rt.alloc(), slots(&rt, 50));
    let mut fresh = codel(&rt);
    let mut dropping = codel(&rt);
    come(&rt, &mut dropping, 0, 4, 0);
    assert_holds!(&rt; dropping.dequeue(100 * MILLISECOND).is_ok());
    let mut blocks = Vec::with_capacity(rt.alloc(), MAX_BLOCKS).expect(&rt, "memory");
    let filled = fill(rt.alloc(), &mut blocks);
    if filled {
        queues_refuse(&rt, &mut tail, &mut fresh, &mut dropping);
    }
    drop(blocks);
    if filled {
        queues_go_on(&rt, &mut tail, &mut fresh, &mut dropping);
    }
}

/// Checks that a waiting packet keeps its place, and that another item put in that place has the
/// same size and time stamp.
fn tail_is_replaced(rt: &impl Abort, tail: &mut DropTail<u32>) {
    assert_same(rt, tail.at(0), None);
    for packet in 0..3 {
        comes(rt, tail, packet, 100 + packet as u16, None);
    }
    assert!(rt; tail.waiting() == 3);
    tail.replace(1, 11);
    let items = [tail.at(0), tail.at(1), tail.at(2), tail.at(3)];
    assert_holds!(rt; items == [Some(0), Some(11), Some(2), None]);
}

fn codel_is_replaced(rt: &impl Abort, queue: &mut Codel<u32>) {
    for packet in 0..3 {
        comes_to_codel(rt, queue, packet, 100 + packet as u16, None);
    }
    assert!(rt; queue.waiting() == 3);
    queue.replace(0, 10);
    assert!(rt; queue.waiting() == 3);
    queue.replace(1, 11);
    let items = [queue.at(0), queue.at(1), queue.at(3)];
    assert_holds!(rt; items == [Some(10), Some(11), None]);
    assert_same(rt, (queue.waiting(), queue.bytes()), (3, 303));
    for wanted in [(10, 100, 0), (11, 101, 10), (2, 102, 20)] {
        let dequeued = queue.dequeue(20).ok().expect(rt, "memory");
        assert_holds!(rt; parts(dequeued.given) == Some(wanted));
    }
}

#[test]
fn items_are_replaced_in_place(rt: HostRuntime) {
    let mut tail = DropTail::new(rt.alloc(), slots(&rt, 3));
    tail_is_replaced(&rt, &mut tail);
    let mut queue = codel(&rt);
    codel_is_replaced(&rt, &mut queue);
}
