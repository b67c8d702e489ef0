//! The key of each source of each owner.
ghost use Rattle.std.specs.Prelude.{◌≡◌, ℕ, ◌+◌, ◌<◌, ◌≤◌, ◌==◌, ◌&&◌, cond, Option, None, Some, OnOk, IsOk};
ghost use Rattle.std.proofs.Common.{rules};
ghost use Rattle.std.specs.Cmp.Rules.{hashing};
ghost use Rattle.std.specs.Hash as fed;
ghost use Rattle.emu_model.specs.declared.sources.Source.{Source};
ghost use Rattle.emu_model.specs.RunLaws.{same_source};
ghost use Rattle.timer_wheel.specs.Index.{key_in, whose_of};

use crate::Owner;
use emu_model::Source;
use indexmap::IndexMap;
use std::alloc::{AllocError, Global};
use std::hash::{Hash, Hasher};
use std::marker::Model;
use unchecked::unreachable_unchecked;

/// A source of an owner, as numbers that are hashed.
#[derive(Clone, Copy, PartialEq, Eq)]
pub struct Whose {
    owner: Owner,
    class: u8,
    number: u32,
}

/// The key of each source of each owner, in a hash map.
#[derive(Drop)]
pub struct Index {
    map: IndexMap<Whose, usize>,
}

impl Model for Index {
    ghost use Rattle.indexmap.specs.IndexMap.{spare};
    ghost use Rattle.timer_wheel.specs.Index.{IndexBook};

    ghost Value = { IndexBook };

    ghost view = { λ i. record { keys = i.map.entries; room = spare i.map } };
}

// The hash gets one number instead of three, because a source is looked up at each of its dues.
impl Hash for Whose {
    ghost use Rattle.std.specs.Prelude.{◌+◌, ◌*◌, ◌^◌, ◌%◌};

    ghost hash_input = { λ w. fed.u64
        ((w.owner * 2 ^ 40 % 2 ^ 64 + (w.class * 2 ^ 32 + w.number)) % 2 ^ 64) };

    ghost respects_eq = { Prim.search (hashing, rules) };

    fn hash<H: Hasher>(&self, state: &mut H) {
        let source = u64::from(self.class) * (1 << 32) + u64::from(self.number);
        let owner = (self.owner as u64).wrapping_mul(1 << 40);
        state.write_u64(owner.wrapping_add(source));
    }
}

impl Whose {
    // Converts a source of an owner into numbers.
    fn of(owner: Owner, source: Source) -> Whose
        ensures { result ≡ whose_of owner source }
    {
        Whose {
            owner,
            class: source.class as u8,
            number: source.number,
        }
    }
}

impl Index {
    /// Creates an empty index. Does not allocate.
    pub fn new(alloc: Global) -> Index
        ensures { (o : ℕ) (s : Source) → key_in result.keys o s ≡ None }
    {
        Index {
            map: IndexMap::new(alloc),
        }
    }

    /// Returns the key of a source.
    pub fn find(&self, owner: Owner, source: Source) -> Option<usize>
        ensures { result ≡ key_in self.now.keys owner source }
    {
        self.map.get(&Whose::of(owner, source)).copied()
    }

    /// Reserves room for one more source.
    pub fn reserve(&mut self) -> Result<(), AllocError>
        ensures ok { OnOk result (0 < self.new.room) }
        ensures succeeds { 0 < self.old.room → IsOk result }
        ensures keys { self.new.keys ≡ self.old.keys }
        ensures room { self.old.room ≤ self.new.room }
    {
        self.map.reserve(1)
    }

    /// Assigns a key to a source. There must be room.
    pub fn insert(&mut self, owner: Owner, source: Source, key: usize)
        requires { 0 < self.old.room }
        ensures keys { (o : ℕ) (s : Source) →
            key_in self.new.keys o s
            ≡ cond (o == owner && same_source s source) (Some key) (key_in self.old.keys o s) }
        ensures room { self.old.room ≤ self.new.room + 1 }
    {
        let Ok(_) = self.map.insert(Whose::of(owner, source), key) else {
            unreachable_unchecked!()
        };
    }

    /// Removes the key of a source.
    pub fn remove(&mut self, owner: Owner, source: Source)
        ensures keys { (o : ℕ) (s : Source) →
            key_in self.new.keys o s
            ≡ cond (o == owner && same_source s source) None (key_in self.old.keys o s) }
        ensures room { self.old.room ≤ self.new.room }
    {
        self.map.swap_remove(&Whose::of(owner, source));
    }

    /// Removes all keys.
    pub fn clear(&mut self)
        ensures keys { (o : ℕ) (s : Source) → key_in self.new.keys o s ≡ None }
        ensures room { self.old.room ≤ self.new.room }
    {
        self.map.clear();
    }
}
