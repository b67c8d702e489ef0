//! Entries by key: indexed by source and by owner, and in slots.
ghost use Rattle.std.specs.Prelude.{◌≡◌, ◌≢◌, ℕ, ◌<◌, ◌≤◌, ◌+◌, ◌==◌, ◌&&◌, ◌%◌, ◌⊎◌, cond, length, count_by, slice_get, slice_set, Option, Some, None, IfOk, OnOk, IfSome, IfNone, IsTrue, IsOk, IsSome};
ghost use Rattle.emu_model.specs.declared.sources.Source.{Source};
ghost use Rattle.emu_model.specs.RunLaws.{same_source};
ghost use Rattle.timer_wheel.specs.declared.Entry.{Entry};
ghost use Rattle.timer_wheel.specs.Stocks.{StockBook, Holds, IsStock, IsMore, IsGrown, due_of, room_of};

use crate::index::Index;
use crate::ring::Ring;
use crate::slots::{FREE, LOOSE, SLOTS, Slots};
use crate::{Entry, Owner};
use emu_model::Source;
use std::alloc::{AllocError, Global};
use std::marker::Model;
use unchecked::unreachable_unchecked;

/// Entries, each with a key. The key is in one of the slots, and in a list of its owner's.
#[derive(Drop)]
pub struct Stock {
    entries: Vec<Entry>,
    slots: Slots,
    // The list of an owner is the owner's remainder by 2048, so other owners may share it.
    owners: Ring,
    index: Index,
}

impl Model for Stock {
    ghost use Rattle.timer_wheel.specs.Stocks.{StockBook};

    ghost Value = { StockBook };

    ghost use Rattle.timer_wheel.specs.Stocks.{IsStock};

    ghost view = { λ s. record {
      entries = s.entries.items;
      slots = s.slots;
      owners = s.owners;
      index = s.index;
    } };

    ghost invariant = { λ s. IsStock
        (record {
          entries = s.entries.items;
          slots = s.slots;
          owners = s.owners;
          index = s.index;
        }) };
}

// Returns the placeholder of a key without an entry.
fn nothing() -> Entry {
    Entry {
        due: 0,
        owner: 0,
        source: Source::next_command(),
    }
}

// Makes the number of entries exceed `len`.
fn grow_entries(entries: &mut Vec<Entry>, len: usize) -> Result<(), AllocError>
    requires { len ≤ length entries.old.items }
    ensures more { IsMore entries.old.items entries.new.items }
    ensures ok { OnOk result (len < length entries.new.items) }
{
    if len < entries.len() {
        return Ok(());
    }
    entries.push(nothing())?;
    Ok(())
}

// Makes the number of keys in the lists by owner exceed `len`.
fn grow_owners(owners: &mut Ring, len: usize) -> Result<(), AllocError>
    requires { len ≤ length owners.old }
    ensures more { IsMore owners.old owners.new }
    ensures free { (k l : ℕ) → slice_get owners.new k ≡ Some l → l ≢ 2050 →
        slice_get owners.old k ≡ Some l }
    ensures ok { OnOk result (len < length owners.new) }
{
    if len < owners.len() {
        return Ok(());
    }
    owners.add(FREE)?;
    Ok(())
}

// Adds one more key, without an entry.
fn grow(entries: &mut Vec<Entry>, owners: &mut Ring, slots: &mut Slots) -> Result<(), AllocError>
    requires entries { length slots.old ≤ length entries.old.items }
    requires owners { length slots.old ≤ length owners.old }
    ensures grown { IsGrown entries.old.items slots.old owners.old
        entries.new.items slots.new owners.new }
    ensures ok { OnOk result (0 < count_by (λ l. l == 2050) slots.new) }
{
    let len = slots.len();
    grow_entries(entries, len)?;
    grow_owners(owners, len)?;
    slots.add()?;
    Ok(())
}

impl Stock {
    /// Creates a stock without entries.
    pub fn new(alloc: Global) -> Result<Stock, AllocError>
        ensures rows { IfOk result (λ b. (o : ℕ) (s : Source) → due_of b o s ≡ None) }
        ensures holds { IfOk result
            (λ b. (k : ℕ) (e : Entry) (p : ℕ) → ¬ Holds b.entries b.slots k e p) }
    {
        Ok(Stock {
            entries: Vec::new(alloc),
            slots: Slots::new(alloc)?,
            owners: Ring::new(alloc)?,
            index: Index::new(alloc),
        })
    }

    /// Reveals the invariant of entries and keys.
    pub fn reveal_invariant(&self)
        ensures { IsStock self.now }
    {
        let _ = &self.entries;
    }

    /// Returns the key of a source.
    pub fn find(&self, owner: Owner, source: Source) -> Option<usize>
        ensures held { IfSome result
            (λ k. (e : Entry) × (p : ℕ) × Holds self.now.entries self.now.slots k e p
            × (e.owner ≡ owner) × (e.source ≡ source)) }
        ensures some { IfSome result (λ k. IsSome (due_of self.now owner source)) }
        ensures none { IfNone result (due_of self.now owner source ≡ None) }
    {
        self.index.find(owner, source)
    }

    /// Returns the entry of a key.
    pub fn entry(&self, key: usize) -> Entry
        requires { key < length self.now.slots }
        ensures { slice_get self.now.entries key ≡ Some result }
    {
        self.entries[key]
    }

    /// Returns the list of a key.
    pub fn list(&self, key: usize) -> usize
        requires { key < length self.now.slots }
        ensures { slice_get self.now.slots key ≡ Some result }
    {
        self.slots.list(key)
    }

    /// Returns the number of keys.
    pub fn len(&self) -> usize
        ensures { result ≡ length self.now.slots }
    {
        self.slots.len()
    }

    /// Returns the first slot that has a key.
    pub fn first(&self) -> Option<usize>
        ensures within { IfSome result (λ p. p < 2048) }
        ensures filled { IfSome result (λ p. (k : ℕ) × (slice_get self.now.slots k ≡ Some p)) }
        ensures first { IfSome result
            (λ p. (q : ℕ) → q < p → (k : ℕ) → slice_get self.now.slots k ≢ Some q) }
        ensures none { IfNone result
            ((q : ℕ) → q < 2048 → (k : ℕ) → slice_get self.now.slots k ≢ Some q) }
    {
        self.slots.first()
    }

    /// Returns a key of a list.
    pub fn first_of(&self, list: usize) -> Option<usize>
        requires { list < 2051 }
        ensures some { IfSome result (λ k. slice_get self.now.slots k ≡ Some list) }
        ensures within { IfSome result (λ k. k < length self.now.slots) }
        ensures none { IfNone result ((k : ℕ) → slice_get self.now.slots k ≢ Some list) }
    {
        self.slots.first_of(list)
    }

    /// Returns true only if a list has at most one key.
    pub fn is_alone(&self, list: usize) -> bool
        requires { list < 2051 }
        ensures { IsTrue result → (j k : ℕ) → slice_get self.now.slots j ≡ Some list →
            slice_get self.now.slots k ≡ Some list → j ≡ k }
    {
        self.slots.is_alone(list)
    }

    /// Moves a key that has an entry to another list.
    pub fn put(&mut self, key: usize, list: usize)
        requires holds { (e : Entry) × (p : ℕ) × Holds self.old.entries self.old.slots key e p }
        requires list { list < 2050 }
        ensures { self.new ≡ record self.old { slots = slice_set self.old.slots key list } }
    {
        self.slots.put(key, list);
    }

    /// Changes the due of a key's entry, and moves the key to another list.
    pub fn reset(&mut self, key: usize, due: u64, list: usize)
        requires holds { (e : Entry) × (p : ℕ) × Holds self.old.entries self.old.slots key e p }
        requires list { list < 2050 }
        ensures holds { (k : ℕ) (e : Entry) (p : ℕ) → Holds self.new.entries self.new.slots k e p
            → Holds self.old.entries self.old.slots k e p ⊎ ((e.due ≡ due) × (p ≡ list)) }
        ensures rows { (e : Entry) → slice_get self.old.entries key ≡ Some e → (o : ℕ) (s : Source)
            → due_of self.new o s
            ≡ cond (o == e.owner && same_source s e.source) (Some due) (due_of self.old o s) }
        ensures room { room_of self.new ≡ room_of self.old }
    {
        self.entries[key].due = due;
        self.slots.put(key, list);
    }

    /// Reserves room for one more entry.
    pub fn make_room(&mut self) -> Result<(), AllocError>
        ensures ok { OnOk result (0 < room_of self.new) }
        ensures succeeds { 0 < room_of self.old → IsOk result }
        ensures holds { (k : ℕ) (e : Entry) (p : ℕ) → Holds self.new.entries self.new.slots k e p →
            Holds self.old.entries self.old.slots k e p }
        ensures rows { (o : ℕ) (s : Source) → due_of self.new o s ≡ due_of self.old o s }
        ensures room { room_of self.old ≤ room_of self.new }
    {
        self.index.reserve()?;
        if let Some(_) = self.slots.first_of(FREE) {
            return Ok(());
        }
        grow(&mut self.entries, &mut self.owners, &mut self.slots)?;
        Ok(())
    }

    /// Adds an entry for a source that has none. There must be room.
    pub fn insert(&mut self, entry: Entry, list: usize)
        requires room { 0 < room_of self.old }
        requires absent { due_of self.old entry.owner entry.source ≡ None }
        requires list { list < 2050 }
        ensures holds { (k : ℕ) (e : Entry) (p : ℕ) → Holds self.new.entries self.new.slots k e p
            → Holds self.old.entries self.old.slots k e p ⊎ ((e ≡ entry) × (p ≡ list)) }
        ensures rows { (o : ℕ) (s : Source) →
            due_of self.new o s
            ≡ cond (o == entry.owner && same_source s entry.source) (Some entry.due)
            (due_of self.old o s) }
        ensures room { room_of self.old ≤ room_of self.new + 1 }
    {
        let Some(key) = self.slots.first_of(FREE) else {
            unreachable_unchecked!()
        };
        self.entries[key] = entry;
        self.owners.put(key, entry.owner % SLOTS);
        self.index.insert(entry.owner, entry.source, key);
        self.slots.put(key, list);
    }

    /// Removes the entry of a key, and returns it.
    pub fn remove(&mut self, key: usize) -> Entry
        requires { (e : Entry) × (p : ℕ) × Holds self.old.entries self.old.slots key e p }
        ensures entry { slice_get self.old.entries key ≡ Some result }
        ensures entries { self.new.entries ≡ self.old.entries }
        ensures slots { self.new.slots ≡ slice_set self.old.slots key 2050 }
        ensures owners { self.new.owners ≡ slice_set self.old.owners key 2050 }
        ensures rows { (o : ℕ) (s : Source) →
            due_of self.new o s
            ≡ cond (o == result.owner && same_source s result.source) None (due_of self.old o s) }
        ensures room { room_of self.old ≤ room_of self.new }
    {
        let entry = self.entries[key];
        self.index.remove(entry.owner, entry.source);
        self.owners.put(key, FREE);
        self.slots.put(key, FREE);
        entry
    }

    // Returns a key of a list by owner.
    fn owned_key(&self, list: usize) -> Option<usize>
        requires { list < 2050 }
        ensures some { IfSome result (λ k. slice_get self.now.owners k ≡ Some list) }
        ensures holds { IfSome result
            (λ k. (e : Entry) × (p : ℕ) × Holds self.now.entries self.now.slots k e p) }
        ensures none { IfNone result ((k : ℕ) → slice_get self.now.owners k ≢ Some list) }
    {
        self.owners.first(list)
    }

    // Moves a key to another list by owner: its owner's, or the one for keys in transit.
    fn lay(&mut self, key: usize, list: usize)
        requires holds { (e : Entry) × (p : ℕ) × Holds self.old.entries self.old.slots key e p
            × ((list ≡ e.owner % 2048) ⊎ (list ≡ 2049)) }
        ensures { self.new ≡ record self.old { owners = slice_set self.old.owners key list } }
    {
        self.owners.put(key, list);
    }

    /// Removes all entries of an owner.
    pub fn remove_owner(&mut self, owner: Owner)
        ensures holds { (k : ℕ) (e : Entry) (p : ℕ) → Holds self.new.entries self.new.slots k e p →
            Holds self.old.entries self.old.slots k e p }
        ensures none { (s : Source) → due_of self.new owner s ≡ None }
        ensures others { (o : ℕ) (s : Source) → o ≢ owner →
            due_of self.new o s ≡ due_of self.old o s }
        ensures room { room_of self.old ≤ room_of self.new }
    {
        while let Some(key) = self.owned_key(owner % SLOTS) {
            if self.entry(key).owner == owner {
                self.remove(key);
            } else {
                self.lay(key, LOOSE);
            }
        }
        self.reveal_invariant();
        while let Some(key) = self.owned_key(LOOSE) {
            let entry = self.entry(key);
            if entry.owner == owner {
                self.remove(key);
            } else {
                self.lay(key, entry.owner % SLOTS);
            }
        }
        self.reveal_invariant();
    }

    /// Removes all entries.
    pub fn clear(&mut self)
        ensures holds { (k : ℕ) (e : Entry) (p : ℕ) →
            ¬ Holds self.new.entries self.new.slots k e p }
        ensures rows { (o : ℕ) (s : Source) → due_of self.new o s ≡ None }
        ensures room { room_of self.old ≤ room_of self.new }
    {
        for key in 0..self.slots.len() {
            if self.slots.list(key) == FREE {
                continue;
            }
            self.remove(key);
        }
        self.reveal_invariant();
    }
}
