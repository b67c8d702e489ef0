//! An agenda that is one list: the simplest one, for tests.
ghost use Rattle.std.specs.Prelude.{◌≡◌, ◌+◌, ◌<◌, ◌≤◌, ◌⊎◌, true, not, filter, [], ◌∷◌, ◌++◌, vec_len, vec_capacity};
ghost use Rattle.std.specs.List.{list_any};
ghost use Rattle.timer_wheel.specs.Rows.{row_of, is_of, least_of};

use crate::{Agenda, Entry, Owner};
use emu_model::Source;
use std::alloc::{AllocError, Global};
use std::marker::Model;

/// All entries in one list, in no order; no program uses it. Each call except `clock` visits all
/// entries, so it is simple enough to compare `Wheel` with.
#[derive(Drop)]
pub struct ListAgenda {
    items: Vec<Entry>,
    clock: u64,
}

impl Model for ListAgenda {
    ghost use Rattle.std.specs.Prelude.{◌-◌, vec_len, vec_capacity};
    ghost use Rattle.timer_wheel.specs.Rows.{ListBook, IsAtOrAbove, row_of};

    ghost Value = { ListBook };

    ghost view = { λ a. record {
      items = a.items.items;
      clock = a.clock;
      spare = vec_capacity a.items - vec_len a.items;
    } };

    ghost invariant = { λ a. IsAtOrAbove a.clock (row_of a.items.items) };
}

// Returns the first entry.
fn least(items: &[Entry]) -> Option<Entry>
    ensures { result ≡ least_of items.now }
{
    let (first, rest) = items.split_first()?;
    let mut least = *first;
    for entry in rest {
        if entry.is_before(&least) {
            least = *entry;
        }
    }
    Some(least)
}

// Removes the entries of this source of this owner.
fn remove(items: &mut Vec<Entry>, owner: Owner, source: Source)
    ensures items { items.new.items ≡ filter (λ e. not (is_of owner source e)) items.old.items }
    ensures len { vec_len items.new ≤ vec_len items.old }
    ensures fewer { list_any (is_of owner source) items.old.items ≡ true →
        vec_len items.new < vec_len items.old }
    ensures capacity { vec_capacity items.new ≡ vec_capacity items.old }
{
    items.retain(|entry| !entry.is_of(owner, source));
}

// Returns true if a source of an owner has an entry.
fn has(items: &[Entry], owner: Owner, source: Source) -> bool
    ensures { result ≡ list_any (is_of owner source) items.now }
{
    items.iter().any(|entry| entry.is_of(owner, source))
}

// Replaces the entries of a source by one entry. There must be room, or an entry of the source.
fn replace(items: &mut Vec<Entry>, entry: Entry)
    requires { vec_len items.old < vec_capacity items.old
        ⊎ (list_any (is_of entry.owner entry.source) items.old.items ≡ true) }
    ensures items { items.new.items
        ≡ filter (λ e. not (is_of entry.owner entry.source e)) items.old.items ++ entry ∷ [] }
    ensures len { vec_len items.new ≤ vec_len items.old + 1 }
    ensures again { list_any (is_of entry.owner entry.source) items.old.items ≡ true →
        vec_len items.new ≤ vec_len items.old }
    ensures capacity { vec_capacity items.new ≡ vec_capacity items.old }
{
    remove(items, entry.owner, entry.source);
    items.push_reserved(entry);
}

impl Agenda for ListAgenda {
    ghost entries = { λ a. row_of a.items };

    ghost time = { λ a. a.clock };

    ghost spare = { λ a. a.spare };

    fn new(alloc: Global, clock: u64) -> Result<ListAgenda, AllocError> {
        Ok(ListAgenda {
            items: Vec::new(alloc),
            clock,
        })
    }

    fn clock(&self) -> u64 {
        self.clock
    }

    fn set(&mut self, owner: Owner, source: Source, due: u64) -> Result<(), AllocError> {
        let entry = Entry { due, owner, source };
        if has(&self.items, owner, source) {
            replace(&mut self.items, entry);
            return Ok(());
        }
        self.items.reserve(1)?;
        replace(&mut self.items, entry);
        Ok(())
    }

    fn clear(&mut self, owner: Owner, source: Source) {
        remove(&mut self.items, owner, source);
    }

    fn clear_owner(&mut self, owner: Owner) {
        self.items.retain(|entry| entry.owner != owner);
    }

    fn move_to_least(&mut self) -> Option<Entry> {
        let entry = least(&self.items)?;
        self.clock = entry.due;
        Some(entry)
    }

    fn rewind(&mut self) {
        self.clock = 0;
    }

    fn restart(&mut self) {
        self.items.clear();
        self.rewind();
    }
}
