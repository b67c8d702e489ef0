//! An index of dues by place.

ghost use Rattle.std.specs.Prelude.{◌≡◌, ◌+◌, ◌-◌, ◌<◌, ◌≤◌, ◌++◌, ◌∷◌, [], length, slice_get, slice_set, Some, IfOk, OnOk, OnErr, IsOk};
ghost use Rattle.due_index.specs.Least.{least_of, dues_in};

use crate::number::DueNumber;
use crate::tree::{Path, is_same, put};
use std::alloc::{AllocError, Global};
use std::marker::Model;

/// A due or none at each place, and the first of all dues. Contracts see the dues by place, and how
/// many places can be added without an allocation.
#[derive(Drop)]
pub struct DueIndex {
    alloc: Global,
    nodes: Vec<DueNumber>,
    half: usize,
    places: usize,
    // The due of the root, node 1.
    least: DueNumber,
}

impl Model for DueIndex {
    ghost use Rattle.due_index.specs.Places.{Places};
    ghost use Rattle.std.specs.Prelude.{◌≡◌, ◌-◌};
    ghost use Rattle.due_index.specs.Tree.{leaves_of, node_at, IsIndex};

    ghost Value = { Places };

    ghost view = { λ d. record {
      leaves = leaves_of d.nodes.items d.half d.places;
      spare = d.half - d.places;
    } };

    ghost invariant = { λ d.
        IsIndex d.nodes.items d.half d.places × (d.least ≡ node_at d.nodes.items 1) };
}

impl DueIndex {
    /// Creates an index without places. Does not allocate.
    pub fn new(alloc: Global) -> Self
        ensures { result.leaves ≡ [] }
    {
        DueIndex {
            alloc,
            nodes: Vec::new(alloc),
            half: 0,
            places: 0,
            least: DueNumber::none(),
        }
    }

    // Creates an index without places that has room for `room` places.
    fn with_room(alloc: Global, room: usize) -> Result<Self, AllocError>
        ensures { IfOk result (λ d. d ≡ record { leaves = []; spare = room }) }
    {
        let Some(both) = room.checked_mul(2) else {
            return Err(AllocError);
        };
        let mut nodes = Vec::new(alloc);
        nodes.resize(both, DueNumber::none())?;
        Ok(DueIndex {
            alloc,
            nodes,
            half: room,
            places: 0,
            least: DueNumber::none(),
        })
    }

    /// Returns the number of places.
    pub fn len(&self) -> usize
        ensures { result ≡ length self.now.leaves }
    {
        self.places
    }

    /// Reserves memory for one `push`. Only spare capacity changes; if allocation fails, nothing
    /// changes.
    pub fn push_ready(&mut self) -> Result<(), AllocError>
        ensures leaves { self.new.leaves ≡ self.old.leaves }
        ensures grows { self.old.spare ≤ self.new.spare }
        ensures ready { OnOk result (0 < self.new.spare) }
        ensures refused { OnErr result (self.new ≡ self.old) }
        ensures succeeds { 0 < self.old.spare → IsOk result }
    {
        if self.places < self.half {
            return Ok(());
        }
        let mut grown = DueIndex::with_room(self.alloc, self.nodes.len().max(1))?;
        for place in 0..self.places {
            grown.push(self.nodes[self.half + place]);
        }
        *self = grown;
        Ok(())
    }

    /// Adds a place after all others. Requires spare capacity.
    #[inline(always)]
    pub fn push(&mut self, due: DueNumber)
        requires { 0 < self.old.spare }
        ensures { self.new
            ≡ record { leaves = self.old.leaves ++ due ∷ []; spare = self.old.spare - 1 } }
    {
        let place = self.places;
        self.places = place + 1;
        self.set(place, due);
    }

    // Sets the due of a place.
    #[inline(always)]
    fn put_at(&mut self, place: usize, due: DueNumber, path: Path)
        requires { place < length self.old.leaves }
        ensures { self.new ≡ record self.old { leaves = slice_set self.old.leaves place due } }
    {
        // The root is the only leaf.
        if self.half == 1 {
            self.nodes[1] = due;
            self.least = due;
            return;
        }
        let leaf = self.half + place;
        if let Path::UpToKept = path {
            if is_same(self.nodes[leaf], due) {
                return;
            }
        }
        self.least = put(self.nodes.as_mut_slice(), leaf, due, path);
    }

    /// Sets the due of a place. Does not allocate.
    #[inline(always)]
    pub fn set(&mut self, place: usize, due: DueNumber)
        requires { place < length self.old.leaves }
        ensures { self.new ≡ record self.old { leaves = slice_set self.old.leaves place due } }
    {
        self.put_at(place, due, Path::UpToKept);
    }

    /// Sets the due of a place, like `set`. It is faster than `set` if the place had the first of all
    /// dues, because then every ancestor changes. Does not allocate.
    #[inline(always)]
    pub fn set_least(&mut self, place: usize, due: DueNumber)
        requires { place < length self.old.leaves }
        ensures { self.new ≡ record self.old { leaves = slice_set self.old.leaves place due } }
    {
        self.put_at(place, due, Path::ToRoot);
    }

    /// Returns the due of a place.
    #[inline(always)]
    pub fn at(&self, place: usize) -> DueNumber
        requires { place < length self.now.leaves }
        ensures { slice_get self.now.leaves place ≡ Some result }
    {
        self.nodes[self.half + place]
    }

    /// Removes all places. Keeps the allocation.
    pub fn clear(&mut self)
        ensures leaves { self.new.leaves ≡ [] }
        ensures spare { self.new.spare ≡ self.old.spare + length self.old.leaves }
    {
        let both = self.nodes.len();
        self.nodes.clear();
        let Ok(()) = self.nodes.resize(both, DueNumber::none()) else {
            unreachable!();
        };
        self.places = 0;
        self.least = DueNumber::none();
    }

    /// Returns the first of all dues, by time, class and number, or none if nothing is due.
    #[inline(always)]
    pub fn least(&self) -> DueNumber
        ensures { result ≡ least_of (dues_in self.now.leaves) }
    {
        self.least
    }
}
