//! Agendas (event queues): which owner's source is due first, and when (our choice).
//!
//! `Agenda` is the trait. `ListAgenda` keeps a plain list, for tests, and `Wheel` is a timing
//! wheel; callers that are generic over `Agenda` can't tell them apart. Only `new`, and `set` of a
//! source that has no due, allocate; if allocation fails, nothing changes.
#![tactic(auto)]

mod index;
mod list;
mod marks;
mod place;
mod ring;
mod slots;
mod stock;
mod ties;
mod wheel;

ghost use Rattle.std.specs.Prelude.{◌≡◌, ◌≢◌, ℕ, ◌+◌, ◌<◌, ◌≤◌, false, Option, Some, None, IfSome, IfNone, IfOk, OnOk, OnErr, IsOk, IsSome};
ghost use Rattle.emu_model.specs.declared.sources.Source.{Source};
ghost use Rattle.timer_wheel.specs.Rows.{no_dues, with_due, without_due, is_before, is_of};

use emu_model::Source;
pub use list::ListAgenda;
use std::alloc::{AllocError, Global};
pub use wheel::Wheel;

/// The owner of sources.
pub type Owner = usize;

/// A source of an owner, and the time in ns at which it is due.
#[derive(Clone, Copy)]
pub struct Entry {
    pub due: u64,
    pub owner: Owner,
    pub source: Source,
}

/// A finite map from owner and source to due, and a clock; no due is before the clock. All times
/// are in ns.
pub trait Agenda: Drop {
    /// The due of each source of an owner.
    ghost entries: { Self → ℕ → Source → Option ℕ };

    /// The clock.
    ghost time: { Self → ℕ };

    /// The number of further sources that can get a due without an allocation.
    ghost spare: { Self → ℕ };

    /// Creates an empty agenda with this clock.
    fn new(alloc: Global, clock: u64) -> Result<Self, AllocError>
        ensures empty { IfOk result (λ a. (o : ℕ) → entries a o ≡ no_dues) }
        ensures time { IfOk result (λ a. time a ≡ clock) };

    /// Returns the due of the entry that `move_to_least` returned last, or the clock with which the
    /// agenda was created. After `rewind` or `restart` it is 0.
    fn clock(&self) -> u64
        ensures clock { result ≡ time self.now }
        ensures low { (o : ℕ) (s : Source) (d : ℕ) → entries self.now o s ≡ Some d → result ≤ d };

    /// Sets the due of a source, and replaces the one that it had. Does not allocate if the source
    /// had one.
    fn set(&mut self, owner: Owner, source: Source, due: u64) -> Result<(), AllocError>
        requires { time self.old ≤ due }
        ensures ok { OnOk result
            (entries self.new owner ≡ with_due (entries self.old owner) source due) }
        ensures err { OnErr result (entries self.new owner ≡ entries self.old owner) }
        ensures others { (o : ℕ) → o ≢ owner → entries self.new o ≡ entries self.old o }
        ensures time { time self.new ≡ time self.old }
        ensures ready { 0 < spare self.old → IsOk result }
        ensures again { IsSome (entries self.old owner source) → IsOk result }
        ensures spare { spare self.old ≤ spare self.new + 1 }
        ensures kept { IsSome (entries self.old owner source) → spare self.old ≤ spare self.new };

    /// Removes a source's entry, if it has one.
    fn clear(&mut self, owner: Owner, source: Source)
        ensures cleared { entries self.new owner ≡ without_due (entries self.old owner) source }
        ensures others { (o : ℕ) → o ≢ owner → entries self.new o ≡ entries self.old o }
        ensures time { time self.new ≡ time self.old }
        ensures spare { spare self.old ≤ spare self.new };

    /// Removes all entries of an owner.
    fn clear_owner(&mut self, owner: Owner)
        ensures cleared { entries self.new owner ≡ no_dues }
        ensures others { (o : ℕ) → o ≢ owner → entries self.new o ≡ entries self.old o }
        ensures time { time self.new ≡ time self.old }
        ensures spare { spare self.old ≤ spare self.new };

    /// Returns the first entry (by due, owner, class and number) without removing it, and advances
    /// the clock to its due.
    fn move_to_least(&mut self) -> Option<Entry>
        ensures was { IfSome result (λ e. entries self.old e.owner e.source ≡ Some e.due) }
        ensures least { IfSome result
            (λ e. (o : ℕ) (s : Source) (d : ℕ) → entries self.old o s ≡ Some d
            → is_before (record { due = d; owner = o; source = s }) e ≡ false) }
        ensures entries { (o : ℕ) → entries self.new o ≡ entries self.old o }
        ensures time { IfSome result (λ e. time self.new ≡ e.due) }
        ensures rises { time self.old ≤ time self.new }
        ensures none { IfNone result ((o : ℕ) → entries self.old o ≡ no_dues) }
        ensures stays { IfNone result (time self.new ≡ time self.old) }
        ensures spare { spare self.old ≤ spare self.new };

    /// Removes the first entry (by due, owner, class and number), returns it, and advances the
    /// clock to its due.
    fn pop_least(&mut self) -> Option<Entry>
        ensures was { IfSome result (λ e. entries self.old e.owner e.source ≡ Some e.due) }
        ensures least { IfSome result
            (λ e. (o : ℕ) (s : Source) (d : ℕ) → entries self.old o s ≡ Some d
            → is_before (record { due = d; owner = o; source = s }) e ≡ false) }
        ensures taken { IfSome result
            (λ e. entries self.new e.owner ≡ without_due (entries self.old e.owner) e.source) }
        ensures others { IfSome result
            (λ e. (o : ℕ) → o ≢ e.owner → entries self.new o ≡ entries self.old o) }
        ensures time { IfSome result (λ e. time self.new ≡ e.due) }
        ensures rises { time self.old ≤ time self.new }
        ensures none { IfNone result ((o : ℕ) → entries self.old o ≡ no_dues) }
        ensures unchanged { IfNone result ((o : ℕ) → entries self.new o ≡ entries self.old o) }
        ensures stays { IfNone result (time self.new ≡ time self.old) }
        ensures spare { spare self.old ≤ spare self.new }
    {
        let entry = self.move_to_least()?;
        self.clear(entry.owner, entry.source);
        Some(entry)
    }

    /// Sets the clock to 0. Keeps all entries.
    fn rewind(&mut self)
        ensures entries { (o : ℕ) → entries self.new o ≡ entries self.old o }
        ensures time { time self.new ≡ 0 }
        ensures spare { spare self.old ≤ spare self.new };

    /// Removes all entries, and sets the clock to 0.
    fn restart(&mut self)
        ensures empty { (o : ℕ) → entries self.new o ≡ no_dues }
        ensures time { time self.new ≡ 0 }
        ensures spare { spare self.old ≤ spare self.new };
}

impl Entry {
    // Returns true if this entry is before another: by due, then owner, class and number.
    fn is_before(&self, other: &Entry) -> bool
        ensures { result ≡ is_before self.now other.now }
    {
        if self.due != other.due {
            return self.due < other.due;
        }
        if self.owner != other.owner {
            return self.owner < other.owner;
        }
        self.source < other.source
    }

    // Returns true if this is the entry of this source of this owner.
    fn is_of(&self, owner: Owner, source: Source) -> bool
        ensures { result ≡ is_of owner source self.now }
    {
        self.owner == owner && self.source == source
    }
}
