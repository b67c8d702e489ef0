//! The list of records, and the counts.
ghost use Rattle.std.specs.Prelude.{◌≡◌, ℕ, ◌+◌, ◌-◌, ◌^◌, ◌<◌, ◌≤◌, [], ◌∷◌, ◌++◌, slice_index_or, vec_len, vec_capacity, OnOk, IsOk};
ghost use Rattle.pipe_table.specs.Log.{delivered_of, all_drops_of, with_drop};

use emu_model::{DropCause, Record};
use std::alloc::{AllocError, Global};
use std::marker::Model;

/// The records in order, the number of deliveries among them, and the number of drops for each
/// cause.
#[derive(Drop)]
pub struct RecordLog {
    records: Vec<Record>,
    delivered: u64,
    drops: [u64; 8],
}

impl Model for RecordLog {
    ghost use Rattle.std.specs.Prelude.{◌≡◌, ◌-◌, vec_len, vec_capacity};
    ghost use Rattle.pipe_table.specs.Log.{Log, delivered_of, all_drops_of};

    ghost Value = { Log };

    ghost view = { λ l. record {
      records = l.records.items;
      spare = vec_capacity l.records - vec_len l.records;
    } };

    ghost invariant = { λ l. (l.delivered ≡ delivered_of l.records.items)
        × (l.drops ≡ all_drops_of l.records.items) };
}

// Counts a drop.
#[inline(always)]
fn count_drop(drops: &mut [u64; 8], cause: DropCause)
    requires { (k : ℕ) → slice_index_or drops.old k 0 < 2 ^ 63 }
    ensures { drops.new ≡ with_drop drops.old cause }
{
    match cause {
        DropCause::Denied => drops[0] += 1,
        DropCause::NoPipe => drops[1] += 1,
        DropCause::NoInstance => drops[2] += 1,
        DropCause::Lost => drops[3] += 1,
        DropCause::Full => drops[4] += 1,
        DropCause::Codel => drops[5] += 1,
        DropCause::Deleted => drops[6] += 1,
        DropCause::Budget => drops[7] += 1,
    }
}

// Appends a value to a list that has room for it.
#[inline(always)]
fn put<T: Copy>(list: &mut Vec<T>, value: &T)
    requires { vec_len list.old < vec_capacity list.old }
    ensures items { list.new.items ≡ list.old.items ++ value.now ∷ [] }
    ensures room { vec_capacity list.old - vec_len list.old
        ≤ vec_capacity list.new - vec_len list.new + 1 }
{
    list.push_reserved(*value);
}

// The initial capacity for records. It avoids growing the list step by step for the first few.
const FIRST_ROOM: usize = 2048;

impl RecordLog {
    /// Creates an empty log. Does not allocate.
    pub fn new(alloc: Global) -> Self
        ensures { result.records ≡ [] }
    {
        RecordLog {
            records: Vec::new(alloc),
            delivered: 0,
            drops: [0; 8],
        }
    }

    /// Reserves room for `additional` more records.
    #[inline(always)]
    pub fn reserve(&mut self, additional: usize) -> Result<(), AllocError>
        ensures ready { OnOk result (additional ≤ self.new.spare) }
        ensures succeeds { additional ≤ self.old.spare → IsOk result }
        ensures records { self.new.records ≡ self.old.records }
        ensures room { self.old.spare ≤ self.new.spare }
    {
        if additional <= self.records.capacity() - self.records.len() {
            return Ok(());
        }
        self.grow(additional)
    }

    // Reserves room like `reserve`, for a log that is full.
    #[cold]
    #[inline(never)]
    fn grow(&mut self, additional: usize) -> Result<(), AllocError>
        ensures ready { OnOk result (additional ≤ self.new.spare) }
        ensures succeeds { additional ≤ self.old.spare → IsOk result }
        ensures records { self.new.records ≡ self.old.records }
        ensures room { self.old.spare ≤ self.new.spare }
    {
        if self.records.capacity() == 0 {
            // The larger initial capacity is optional, so its failure is ignored.
            let _ = self.records.reserve(FIRST_ROOM);
        }
        self.records.reserve(additional)
    }

    /// Appends a record, for which there must be room.
    #[inline(always)]
    pub fn note(&mut self, entry: &Record)
        requires { 0 < self.old.spare }
        ensures records { self.new.records ≡ self.old.records ++ entry.now ∷ [] }
        ensures room { self.old.spare ≤ self.new.spare + 1 }
    {
        match entry {
            Record::PacketDelivered { .. } => self.delivered += 1,
            Record::PacketDropped { cause, .. } => count_drop(&mut self.drops, *cause),
            _ => {}
        }
        put(&mut self.records, entry);
    }

    /// Removes all records. Keeps the allocation.
    pub fn clear(&mut self)
        ensures records { self.new.records ≡ [] }
        ensures room { self.old.spare ≤ self.new.spare }
    {
        self.records.clear();
        self.delivered = 0;
        self.drops = [0; 8];
    }

    /// Returns the records in order.
    pub fn as_slice(&self) -> &[Record]
        ensures { result.now ≡ self.now.records }
    {
        self.records.as_slice()
    }

    /// Returns the number of delivered packets.
    pub fn delivered_count(&self) -> u64
        ensures { result ≡ delivered_of self.now.records }
    {
        self.delivered // counted by `note`
    }

    /// Returns the number of dropped packets by cause, from `Denied` to `Budget`.
    pub fn drops(&self) -> [u64; 8]
        ensures { result ≡ all_drops_of self.now.records }
    {
        self.drops
    }

    /// Converts the log into a `Vec`, which has no capacity if it is empty. Does not allocate.
    pub fn into_vec(self) -> Vec<Record>
        ensures records { result.items ≡ self.records }
        ensures room { vec_len result ≡ 0 → vec_capacity result ≡ 0 }
    {
        let RecordLog { mut records, .. } = self;
        if records.is_empty() {
            // A run has many finished experiments. None of them keeps capacity for records that it
            // discarded.
            records.shrink_to_fit();
        }
        records
    }
}
