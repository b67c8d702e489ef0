//! A hierarchical timing wheel, after Varghese and Lauck, "Hashed and hierarchical timing wheels"
//! (1987).
ghost use Rattle.std.specs.Prelude.{◌≡◌, ◌≢◌, ℕ, ◌<◌, ◌≤◌, ◌==◌, ◌&&◌, ◌⊎◌, map, false, Some, None, length, slice_get, slice_set, IfSome, IfNone, MatchOption, IsTrue, IsFalse};
ghost use Rattle.emu_model.specs.declared.sources.Source.{Source};
ghost use Rattle.timer_wheel.specs.declared.Entry.{Entry};
ghost use Rattle.timer_wheel.specs.Places.{place_of};
ghost use Rattle.timer_wheel.specs.Rows.{is_before};
ghost use Rattle.timer_wheel.specs.Stocks.{Holds, due_of, room_of, unless, IsSpread};
ghost use Rattle.timer_wheel.specs.Ties.{Waits, tie_of};
ghost use Rattle.timer_wheel.specs.Stands.{StandsAt, IsSeated, IsWheel, IsTurned, IsStill};

use crate::place::place;
use crate::slots::{FREE, LOOSE, TIES};
use crate::stock::Stock;
use crate::ties::{Tie, Ties};
use crate::{Agenda, Entry, Owner};
use emu_model::Source;
use std::alloc::{AllocError, Global};
use std::marker::Model;
use unchecked::unreachable_unchecked;

/// An agenda of 8 levels of 256 slots. All times are in ns.
///
/// An entry is at the highest level at which the bytes of its due and of the clock differ, or at
/// level 0 if none does, in the slot of that byte of its due. The first due is therefore in the
/// first slot that isn't empty, and when the clock advances to it, only that slot's entries move:
/// down.
///
/// - `set` and `clear` move one key from list to list, whatever else there is, and look it up in
///   the index, which is a hash map. `set` of a source that has a due does not allocate.
/// - `pop_least` reads at most 32 words. When the clock reaches a slot, it visits the slot's
///   entries, and an entry moves down at most 7 times. If the slot has more than one entry, those
///   that are due at the clock's own time are the ties: they are sorted once, and popped one by
///   one. An entry that is set to that time afterwards is in its slot, and is compared with the
///   first tie at each pop.
/// - `clear_owner` visits the entries of the owners with the same remainder by 2048, `rewind` and
///   `restart` visit all.
#[derive(Drop)]
pub struct Wheel {
    stock: Stock,
    // The entries that were due at the clock when it advanced to their time, in order. Some may
    // have been cleared or set again since.
    ties: Ties,
    clock: u64,
}

impl Model for Wheel {
    ghost use Rattle.timer_wheel.specs.Stands.{WheelBook};

    ghost Value = { WheelBook };

    ghost use Rattle.timer_wheel.specs.Stands.{IsWheel};

    ghost view = { λ w. record { stock = w.stock; ties = w.ties; clock = w.clock } };

    ghost invariant = { λ w. IsWheel w.clock w.stock w.ties };
}

// Moves the keys of a slot to the list of those in transit, and returns the slot's first entry.
fn gather(stock: &mut Stock, from: usize) -> Option<Entry>
    requires { from < 2048 }
    ensures slots { stock.new ≡ record stock.old { slots = map (unless from) stock.old.slots } }
    ensures there { IfSome result
        (λ l. (k : ℕ) × Holds stock.old.entries stock.old.slots k l from) }
    ensures least { IfSome result
        (λ l. (k : ℕ) (e : Entry) → Holds stock.old.entries stock.old.slots k e from →
        is_before e l ≡ false) }
    ensures none { IfNone result ((k : ℕ) → slice_get stock.old.slots k ≢ Some from) }
    ensures room { room_of stock.new ≡ room_of stock.old }
{
    stock.reveal_invariant();
    let mut least: Option<Entry> = None;
    while let Some(key) = stock.first_of(from) {
        let entry = stock.entry(key);
        least = Some(lesser_of(least, entry));
        stock.put(key, LOOSE);
    }
    least
}

// Returns the earlier of an entry and an optional one.
fn lesser_of(least: Option<Entry>, entry: Entry) -> Entry
    ensures either { MatchOption least (result ≡ entry) (λ l. (result ≡ entry) ⊎ (result ≡ l)) }
    ensures entry { is_before entry result ≡ false }
    ensures least { IfSome least (λ l. is_before l result ≡ false) }
{
    let Some(least) = least else {
        return entry;
    };
    if entry.is_before(&least) {
        return entry;
    }
    least
}

// Moves the keys in transit to their slots.
fn spread(stock: &mut Stock, clock: u64)
    ensures { IsSpread (λ p e. p ≡ place_of clock e.due) stock.old stock.new }
{
    while let Some(key) = stock.first_of(LOOSE) {
        let due = stock.entry(key).due;
        stock.put(key, place(clock, due));
    }
}

// Returns the list for an entry: that of the ties, to which it is added, if it is due now and there
// is room, otherwise its place.
fn seat(ties: &mut Ties, clock: u64, entry: Entry) -> usize
    ensures seated { IsSeated clock entry ties.old result ties.new }
    ensures within { result < 2049 }
{
    if entry.due != clock {
        return place(clock, entry.due);
    }
    let tie = Tie {
        owner: entry.owner,
        source: entry.source,
    };
    if !ties.push(tie) {
        return place(clock, entry.due);
    }
    TIES
}

// Moves the keys in transit to their slots or to the ties.
fn spread_ties(stock: &mut Stock, ties: &mut Ties, clock: u64)
    requires { ties.old.next ≡ 0 }
    ensures spread { IsSpread (StandsAt clock ties.new) stock.old stock.new }
    ensures next { ties.new.next ≡ 0 }
{
    while let Some(key) = stock.first_of(LOOSE) {
        let entry = stock.entry(key);
        let list = seat(ties, clock, entry);
        stock.put(key, list);
    }
}

// Returns true if a source's key is among the ties.
fn is_waiting(stock: &Stock, tie: Tie) -> bool
    ensures yes { IsTrue result →
        (k : ℕ) × (e : Entry) × Holds stock.now.entries stock.now.slots k e 2048
        × (tie_of e ≡ tie) }
    ensures no { IsFalse result → (k : ℕ) (e : Entry) →
        Holds stock.now.entries stock.now.slots k e 2048 → tie_of e ≢ tie }
{
    stock.reveal_invariant();
    let Some(key) = stock.find(tie.owner, tie.source) else {
        return false;
    };
    stock.list(key) == TIES
}

// Passes the ties whose keys are no longer among the ties, and returns the first one whose key is.
fn next_tie(stock: &Stock, ties: &mut Ties) -> Option<Tie>
    ensures items { ties.new.items ≡ ties.old.items }
    ensures kept { (k : ℕ) (e : Entry) → Holds stock.now.entries stock.now.slots k e 2048 →
        Waits ties.old (tie_of e) → Waits ties.new (tie_of e) }
    ensures held { IfSome result
        (λ t. (k : ℕ) × (e : Entry) × Holds stock.now.entries stock.now.slots k e 2048
        × (tie_of e ≡ t)) }
    ensures top { IfSome result (λ t. slice_get ties.new.items ties.new.next ≡ Some t) }
    ensures none { IfNone result (length ties.new.items ≤ ties.new.next) }
{
    while let Some(tie) = ties.top() {
        if is_waiting(stock, tie) {
            return Some(tie);
        }
        ties.advance();
    }
    None
}

// Moves the only entry of a slot down to its place at its due, and returns it. As a tie it would be
// moved twice, sorted and looked up again for nothing.
fn lift(stock: &mut Stock, from: usize) -> Entry
    requires within { from < 2048 }
    requires there { (k : ℕ) × (slice_get stock.old.slots k ≡ Some from) }
    ensures { (k : ℕ) × Holds stock.old.entries stock.old.slots k result from
        × (stock.new
        ≡ record stock.old {
          slots = slice_set stock.old.slots k
              (place_of result.due result.due);
        }) }
{
    stock.reveal_invariant();
    let Some(key) = stock.first_of(from) else {
        unreachable_unchecked!()
    };
    let entry = stock.entry(key);
    stock.put(key, place(entry.due, entry.due));
    entry
}

// Returns the first entry if no tie waits: it is in the first slot, whose entries move down.
fn turn(stock: &mut Stock, ties: &mut Ties, clock: u64) -> Option<Entry>
    requires wheel { IsWheel clock stock.old ties.old }
    requires passed { length ties.old.items ≤ ties.old.next }
    ensures some { IfSome result (λ e. IsTurned clock stock.old e stock.new ties.new) }
    ensures none { IfNone result (IsStill clock stock.old stock.new ties.new) }
{
    stock.reveal_invariant();
    let first = stock.first()?;
    if stock.is_alone(first) {
        ties.clear();
        return Some(lift(stock, first));
    }
    let Some(entry) = gather(stock, first) else {
        unreachable_unchecked!()
    };
    ties.clear();
    spread_ties(stock, ties, entry.due);
    ties.sort();
    Some(entry)
}

// Returns the first entry if a tie waits: the tie, or an entry that was set to the same time later.
fn meet(stock: &mut Stock, ties: &Ties, clock: u64, tie: Tie) -> Entry
    requires wheel { IsWheel clock stock.old ties.now }
    requires held { (k : ℕ) × (e : Entry) × Holds stock.old.entries stock.old.slots k e 2048
        × (tie_of e ≡ tie) }
    requires top { slice_get ties.now.items ties.now.next ≡ Some tie }
    ensures { IsTurned clock stock.old result stock.new ties.now }
{
    stock.reveal_invariant();
    let arrival = gather(stock, place(clock, clock));
    spread(stock, clock);
    let entry = Entry {
        due: clock,
        owner: tie.owner,
        source: tie.source,
    };
    lesser_of(arrival, entry)
}

// Returns the first entry, and moves all others to their places for a clock at its due.
fn least(stock: &mut Stock, ties: &mut Ties, clock: u64) -> Option<Entry>
    requires { IsWheel clock stock.old ties.old }
    ensures some { IfSome result (λ e. IsTurned clock stock.old e stock.new ties.new) }
    ensures none { IfNone result (IsStill clock stock.old stock.new ties.new) }
{
    let Some(tie) = next_tie(stock, ties) else {
        return turn(stock, ties, clock);
    };
    Some(meet(stock, ties, clock, tie))
}

// Moves each entry to the slot of its due for a clock of 0.
fn place_anew(stock: &mut Stock)
    ensures placed { (k : ℕ) (e : Entry) (p : ℕ) → Holds stock.new.entries stock.new.slots k e p →
        p ≡ place_of 0 e.due }
    ensures rows { (o : ℕ) (s : Source) → due_of stock.new o s ≡ due_of stock.old o s }
    ensures room { room_of stock.new ≡ room_of stock.old }
{
    for key in 0..stock.len() {
        stock.reveal_invariant();
        if stock.list(key) == FREE {
            continue;
        }
        let due = stock.entry(key).due;
        stock.put(key, place(0, due));
    }
}

impl Agenda for Wheel {
    ghost entries = { λ w. due_of w.stock };

    ghost time = { λ w. w.clock };

    ghost spare = { λ w. room_of w.stock };

    fn new(alloc: Global, clock: u64) -> Result<Wheel, AllocError> {
        Ok(Wheel {
            stock: Stock::new(alloc)?,
            ties: Ties::new(alloc),
            clock,
        })
    }

    fn clock(&self) -> u64 {
        self.clock
    }

    fn set(&mut self, owner: Owner, source: Source, due: u64) -> Result<(), AllocError> {
        let list = place(self.clock, due);
        if let Some(key) = self.stock.find(owner, source) {
            self.stock.reset(key, due, list);
            return Ok(());
        }
        self.stock.make_room()?;
        self.ties.make_room(self.stock.len());
        self.stock.insert(Entry { due, owner, source }, list);
        Ok(())
    }

    fn clear(&mut self, owner: Owner, source: Source) {
        let Some(key) = self.stock.find(owner, source) else {
            return;
        };
        self.stock.remove(key);
    }

    fn clear_owner(&mut self, owner: Owner) {
        self.stock.remove_owner(owner);
    }

    fn move_to_least(&mut self) -> Option<Entry> {
        let entry = least(&mut self.stock, &mut self.ties, self.clock)?;
        self.clock = entry.due;
        Some(entry)
    }

    fn rewind(&mut self) {
        place_anew(&mut self.stock);
        self.ties.clear();
        self.clock = 0;
    }

    fn restart(&mut self) {
        self.stock.clear();
        self.rewind();
    }
}
