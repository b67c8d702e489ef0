//! A table of places by number.

ghost use Rattle.std.specs.Prelude.{◌≡◌, ℕ, ◌^◌, ◌<◌, ◌≤◌, [], Some, length, slice_set, OnOk, OnErr, IsOk};
ghost use Rattle.due_index.specs.Table.{place_in};

use std::alloc::{AllocError, Global};
use std::marker::Model;

/// The place of each number, or none. Contracts see the entries by number; a number beyond the last
/// entry has no place.
#[derive(Drop)]
pub struct NumberTable {
    places: Vec<Option<u16>>,
}

impl Model for NumberTable {
    ghost use Rattle.std.specs.Prelude.{ℕ, List, Option};

    ghost Value = { List (Option ℕ) };

    ghost view = { λ t. t.places.items };
}

impl NumberTable {
    /// Creates a table in which no number has a place. Does not allocate.
    pub fn new(alloc: Global) -> Self
        ensures { result ≡ [] }
    {
        NumberTable {
            places: Vec::new(alloc),
        }
    }

    /// Returns the place of a number.
    pub fn get(&self, number: u16) -> Option<usize>
        ensures { result ≡ place_in self.now number }
    {
        match self.places.get(usize::from(number)) {
            Some(Some(place)) => Some(usize::from(*place)),
            _ => None,
        }
    }

    /// Makes an entry for a number and for all smaller ones. No number's place changes; if
    /// allocation fails, nothing changes.
    pub fn make_room(&mut self, number: u16) -> Result<(), AllocError>
        ensures same { (k : ℕ) → place_in self.new k ≡ place_in self.old k }
        ensures grows { length self.old ≤ length self.new }
        ensures ready { OnOk result (number < length self.new) }
        ensures refused { OnErr result (self.new ≡ self.old) }
        ensures succeeds { number < length self.old → IsOk result }
    {
        let entries = usize::from(number) + 1;
        if entries <= self.places.len() {
            return Ok(());
        }
        self.places.resize(entries, None)
    }

    /// Sets the place of a number that has an entry. Does not allocate.
    pub fn set(&mut self, number: u16, place: usize)
        requires entry { number < length self.old }
        requires fits { place < 2 ^ 16 }
        ensures { self.new ≡ slice_set self.old number (Some place) }
    {
        self.places[usize::from(number)] = Some(place as u16);
    }
}
