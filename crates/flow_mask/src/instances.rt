//! The instances of one pipe, by their flow identifiers.
ghost use Rattle.std.specs.Prelude.{◌≡◌, ◌+◌, ◌<◌, ◌≤◌, ◌↔◌, [], ◌∷◌, length, position, Some, None, true, false, is_some, IsOk, IfOk, OnOk, OnErr, IsSome};
ghost use Rattle.std.specs.List.{list_any};
ghost use Rattle.emu_model.specs.FlowIds.{same_flow, different, instance_of};

use crate::FlowId;
use indexmap::IndexSet;
use std::alloc::{AllocError, Global};
use std::marker::Model;

/// The reason why there is no instance for an identifier.
#[derive(Clone, Copy, Debug, PartialEq)]
pub enum InstanceError {
    /// The pipe has 256 instances, and none of them is the identifier's.
    TooMany,
    NoMemory = 99,
}

/// The different identifiers, in the order of their first arrival. The place of an identifier is
/// the number of its instance.
#[derive(Drop)]
pub struct Instances {
    ids: IndexSet<FlowId>,
}

impl Model for Instances {
    ghost use Rattle.std.specs.Prelude.{length, ◌≤◌};
    ghost use Rattle.indexmap.specs.IndexSet.{spare};
    ghost use Rattle.flow_mask.specs.Made.{Made};

    ghost Value = { Made };

    ghost view = { λ s. record { ids = s.ids.keys; spare = spare s.ids } };

    ghost invariant = { λ s. length s.ids.keys ≤ 256 };
}

impl Instances {
    // The maximum number of instances of a pipe.
    const MOST: usize = 256;

    /// Creates a set without instances. Does not allocate.
    pub fn new(alloc: Global) -> Self
        ensures { result.ids ≡ [] }
    {
        Instances {
            ids: IndexSet::new(alloc),
        }
    }

    /// Returns the number of instances, at most 256.
    pub fn len(&self) -> usize
        ensures len { result ≡ length self.now.ids }
        ensures most { result ≤ 256 }
    {
        self.ids.len()
    }

    /// Returns the number of the identifier's instance, if it exists.
    #[inline(always)]
    pub fn find(&self, id: FlowId) -> Option<u8>
        ensures index { result ≡ position (same_flow id) self.now.ids }
        ensures found { is_some result ≡ list_any (same_flow id) self.now.ids }
    {
        // The only instance of a pipe without a mask needs no hash.
        if let Some(first) = self.ids.first()
            && id == *first
        {
            return Some(0);
        }
        let index = self.ids.get_index_of(&id)?;
        Some(index as u8)
    }

    /// Returns the number of the identifier's instance, even if the instance must still be created,
    /// or None if the pipe has 256 others.
    pub fn number_for(&self, id: FlowId) -> Option<u8>
        ensures { result ≡ instance_of self.now.ids id }
    {
        if let Some(index) = self.find(id) {
            return Some(index);
        }
        let next = self.len();
        if next == Self::MOST {
            return None;
        }
        Some(next as u8)
    }

    /// Reserves the memory that `find_or_make` of this identifier needs. Nothing else changes.
    pub fn find_or_make_ready(&mut self, id: FlowId) -> Result<(), AllocError>
        ensures ready { OnOk result
            (list_any (same_flow id) self.old.ids ≡ false → length self.old.ids < 256 →
            0 < self.new.spare) }
        ensures ids { self.new.ids ≡ self.old.ids }
        ensures spare { self.old.spare ≤ self.new.spare }
        ensures succeeds { 0 < self.old.spare → IsOk result }
        ensures known { list_any (same_flow id) self.old.ids ≡ true → IsOk result }
        ensures full { 256 ≤ length self.old.ids → IsOk result }
    {
        if self.len() == Self::MOST || self.find(id).is_some() {
            return Ok(());
        }
        self.ids.reserve(1)
    }

    /// Returns the number of the identifier's instance, and creates the instance if the identifier
    /// is new.
    pub fn find_or_make(&mut self, id: FlowId) -> Result<u8, InstanceError>
        ensures ok { IfOk result (λ index. instance_of self.old.ids id ≡ Some index) }
        ensures made { OnOk result (self.new.ids ≡ different self.old.ids (id ∷ [])) }
        ensures too_many { (result ≡ Err InstanceError.TooMany) ↔
            (instance_of self.old.ids id ≡ None) }
        ensures known { list_any (same_flow id) self.old.ids ≡ true → IsOk result }
        ensures succeeds { 0 < self.old.spare → IsSome (instance_of self.old.ids id) → IsOk result }
        ensures err { OnErr result (self.new.ids ≡ self.old.ids) }
        ensures spare { OnOk result (self.old.spare ≤ self.new.spare + 1) }
        ensures spare_err { OnErr result (self.old.spare ≤ self.new.spare) }
    {
        if let Some(index) = self.find(id) {
            return Ok(index);
        }
        let next = self.len();
        if next == Self::MOST {
            return Err(InstanceError::TooMany);
        }
        if self.ids.insert(id).is_err() {
            return Err(InstanceError::NoMemory);
        }
        Ok(next as u8)
    }
}
