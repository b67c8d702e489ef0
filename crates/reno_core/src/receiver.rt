//! A receiver (our choice), which acknowledges each segment at once, with the smallest byte that
//! has not arrived.

ghost use Rattle.std.specs.Prelude.{◌≡◌, ◌+◌, ◌<◌, ◌≤◌, ◌↔◌, [], length, IfOk, IsOk, IsTrue, OnOk, OnErr};
ghost use Rattle.std.specs.VecDeque.{deque_capacity};
ghost use Rattle.emu_model.specs.Reno.{with_segment, missing};
ghost use Rattle.reno_core.specs.Kept.{filled, contains, Rises, IsApart, IsKept, most_segments};

use emu_model::SegmentSize;
use std::alloc::{AllocError, Global};
use std::collections::VecDeque;
use std::marker::Model;

/// The maximum number of segments that a receiver takes, far above what a flow sends, so that no
/// position wraps (our choice).
const MAX_SEGMENTS: u64 = 4_294_967_296;

/// The segments that have arrived: the number of those in order, and a list of only those past the
/// first gap. Contracts see the first bytes of all of them, and how many more can arrive without an
/// allocation.
#[derive(Drop)]
pub struct Receiver {
    smss: SegmentSize,
    in_order: u64,
    others: VecDeque<u64>,
}

impl Model for Receiver {
    ghost use Rattle.std.specs.VecDeque.{deque_capacity};
    ghost use Rattle.std.specs.Prelude.{length};
    ghost use Rattle.reno_core.specs.Kept.{Reception, filled, room_for, IsKept};

    ghost Value = { Reception };

    ghost view = { λ r. record {
      smss = r.smss;
      came = filled r.smss r.in_order r.others.items;
      room = room_for (deque_capacity r.others) r.in_order (length r.others.items);
    } };

    ghost invariant = { λ r. IsKept r.smss r.in_order r.others.items };
}

impl Receiver {
    /// Creates a receiver of segments of `smss` bytes, before the first one. Does not allocate.
    pub fn new(alloc: Global, smss: SegmentSize) -> Self
        ensures smss { result.smss ≡ smss }
        ensures came { result.came ≡ [] }
    {
        let _range = smss.get();
        Receiver {
            smss,
            in_order: 0,
            others: VecDeque::new(alloc),
        }
    }

    /// Receives the segment that begins at `first`, and returns the acknowledgement: the smallest
    /// byte that has not arrived. A segment that arrived before changes nothing. Only one that
    /// leaves a gap may need memory; if allocation fails, nothing changes.
    #[inline(always)]
    pub fn take(&mut self, first: u64) -> Result<u64, AllocError>
        ensures upto { IfOk result (λ upto. upto ≡ missing self.old.smss self.new.came) }
        ensures came { OnOk result (self.new.came ≡ with_segment first self.old.came) }
        ensures err { OnErr result (self.new.came ≡ self.old.came) }
        ensures smss { self.new.smss ≡ self.old.smss }
        ensures room { self.old.room ≤ self.new.room + 1 }

        // Without room, only a segment that is neither the next one nor a repetition can fail.
        ensures succeeds { 0 < self.old.room → IsOk result }
        ensures next { first ≡ missing self.old.smss self.old.came →
            length self.old.came < most_segments → IsOk result }
        ensures again { IsTrue (contains first self.old.came) → IsOk result }
    {
        let smss = u64::from(self.smss.get());
        let next = self.in_order * smss;
        if first < next && first % smss == 0 {
            return Ok(next);
        }
        if first == next {
            if is_full(self.in_order, &self.others) {
                return Err(AllocError);
            }
            self.in_order = absorb(smss, self.in_order + 1, &mut self.others);
            return Ok(self.in_order * smss);
        }
        if let Err(place) = self.others.binary_search(&first) {
            if is_full(self.in_order, &self.others) {
                return Err(AllocError);
            }
            self.others.insert(place, first)?;
        }
        Ok(next)
    }

    /// Reserves the memory for a `take` of any segment, which then doesn't fail until one has
    /// arrived.
    #[inline(always)]
    pub fn take_ready(&mut self, _first: u64) -> Result<(), AllocError>
        ensures ready { OnOk result (0 < self.new.room) }
        ensures refused { OnErr result (self.old.room ≡ 0) }
        ensures came { self.new.came ≡ self.old.came }
        ensures smss { self.new.smss ≡ self.old.smss }
        ensures room { self.old.room ≤ self.new.room }
    {
        if is_full(self.in_order, &self.others) {
            return Err(AllocError);
        }
        if self.others.len() < self.others.capacity() {
            return Ok(());
        }
        self.others.reserve(1)
    }
}

fn is_full(in_order: u64, others: &VecDeque<u64>) -> bool
    requires { in_order ≤ most_segments }
    ensures { IsTrue result ↔ (most_segments ≤ in_order + length others.now.items) }
{
    in_order + others.len() as u64 >= MAX_SEGMENTS
}

// Removes from `others` the segments that follow the first `count` ones in order, and returns the
// number of segments that are then in order.
#[inline(always)]
fn absorb(smss: u64, count: u64, others: &mut VecDeque<u64>) -> u64
    requires least { 1 ≤ smss }
    requires most { smss ≤ 1460 }
    requires few { count + length others.old.items ≤ most_segments }
    requires rises { Rises others.old.items }
    requires apart { IsApart smss count others.old.items }
    ensures came { filled smss result others.new.items ≡ filled smss count others.old.items }
    ensures kept { IsKept smss result others.new.items }
    ensures total { result + length others.new.items ≡ count + length others.old.items }
    ensures grows { count ≤ result }
    ensures capacity { deque_capacity others.new ≡ deque_capacity others.old }
{
    if others.is_empty() {
        return count;
    }
    absorb_some(smss, count, others)
}

// Removes segments like `absorb`, if there may be some past a gap.
#[inline(never)]
fn absorb_some(smss: u64, mut count: u64, others: &mut VecDeque<u64>) -> u64
    requires least { 1 ≤ smss }
    requires most { smss ≤ 1460 }
    requires few { count + length others.old.items ≤ most_segments }
    requires rises { Rises others.old.items }
    requires apart { IsApart smss count others.old.items }
    ensures came { filled smss result others.new.items ≡ filled smss count others.old.items }
    ensures kept { IsKept smss result others.new.items }
    ensures total { result + length others.new.items ≡ count + length others.old.items }
    ensures grows { count ≤ result }
    ensures capacity { deque_capacity others.new ≡ deque_capacity others.old }
{
    'following: loop {
        let next = count * smss;
        let Ok(place) = others.binary_search(&next) else {
            return count;
        };
        let _ = others.remove(place);
        count += 1;
    }
}
