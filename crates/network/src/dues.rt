//! The first due, and the records and counters of a net.

ghost use Rattle.std.specs.Prelude.{◌≡◌, ◌<◌, ◌≤◌, ◌++◌, ◌∷◌, [], option_to_list, IfSome, OnOk, OnErr};
ghost use Rattle.std.specs.List.{best_of};
ghost use Rattle.emu_model.specs.declared.records.Record.TheVariants.{StepsSpent};
ghost use Rattle.emu_model.specs.Net.{counters_of};
ghost use Rattle.emu_model.specs.Dues.{dues_of, is_before, line_dues};
ghost use Rattle.packet_store.specs.Pocket.{Pocket};
ghost use Rattle.network.specs.Kept.{net_of, IsHoused};
ghost use Rattle.network.specs.Changes.{Notes};
ghost use Rattle.network.specs.Due.{IsDue};

use crate::state::Network;
use due_index::DueNumber;
use emu_model::{Counters, Due, Record, Source};
use pipe_core::laws;
use std::alloc::AllocError;

impl Network {
    /// Returns the earliest of a due and those of all events but the next command, given that the
    /// last event was at `clock` (ns); the first of equal ones.
    pub fn earliest(&self, clock: u64, best: Due) -> Due
        ensures least { (p : Pocket) →
            result ≡ best_of is_before best (dues_of clock (net_of p self.now)) }
        ensures moment { result.moment ≤ best.moment }
        ensures due { IsDue best self.now → IsDue result self.now }
    {
        let first = DueNumber::at(best.moment, best.source);
        let direct = DueNumber::of(self.direct_due());
        let least = self.table.earliest(first.or_earlier(direct));
        self.traffic.earliest(clock, least.some())
    }

    /// Returns the earliest due like `earliest`. Changes only cached timers, which is not
    /// observable: if nothing else changes, the next call finds the earliest due at once.
    #[inline(always)]
    pub fn next_due(&mut self, clock: u64, best: Due) -> Due
        ensures least { (p : Pocket) →
            result ≡ best_of is_before best (dues_of clock (net_of p self.old)) }
        ensures moment { result.moment ≤ best.moment }
        ensures due { IsDue best self.old → IsDue result self.old }
        ensures same { self.new ≡ self.old }
    {
        let first = DueNumber::at(best.moment, best.source);
        let direct = DueNumber::of(self.direct_due());
        let least = self.table.earliest(first.or_earlier(direct));
        self.traffic.next_due(clock, least).some()
    }

    // Returns the due of the link of `allow`, or None if nothing is in flight there.
    #[inline(always)]
    fn direct_due(&self) -> Option<Due>
        ensures dues { (p : Pocket) →
            option_to_list result ≡ line_dues 0 (net_of p self.now).direct }
        ensures due { IfSome result (λ d. IsDue d self.now) }
    {
        let moment = self.direct.due()?;
        Some(Due {
            moment,
            source: Source::direct_exit(),
        })
    }

    // Appends the due of the link of `allow`.
    fn add_direct(&self, dues: &mut Vec<Due>) -> Result<(), AllocError>
        ensures ok { OnOk result
            ((p : Pocket) →
            dues.new.items ≡ dues.old.items ++ line_dues 0 (net_of p self.now).direct) }
        ensures err { OnErr result (dues.new.items ≡ dues.old.items) }
    {
        dues.reserve(1)?;
        if let Some(due) = self.direct_due() {
            dues.push_reserved(due);
        }
        Ok(())
    }

    /// Appends the dues of all events but the next command, given that the last event was at
    /// `clock` (ns). If allocation fails, `dues` is unchanged.
    pub fn add_dues(&self, clock: u64, dues: &mut Vec<Due>) -> Result<(), AllocError>
        ensures ok { OnOk result
            ((p : Pocket) → dues.new.items ≡ dues.old.items ++ dues_of clock (net_of p self.now)) }
        ensures err { OnErr result (dues.new.items ≡ dues.old.items) }
    {
        let before = dues.len();
        self.add_direct(dues)?;
        let Ok(()) = self.table.add_dues(dues) else {
            dues.truncate(before);
            return Err(AllocError);
        };
        let Ok(()) = self.traffic.add_dues(clock, dues) else {
            dues.truncate(before);
            return Err(AllocError);
        };
        Ok(())
    }

    /// Returns the records, in order.
    pub fn records(&self) -> &[Record]
        ensures { result.now ≡ self.now.log.records }
    {
        self.log.as_slice()
    }

    /// Returns the counters, given the number of packets that the owner has on the shelf.
    pub fn counters(&self, held: u64) -> Counters
        ensures { (p : Pocket) → IsHoused p self.now → held ≡ p.count →
            result ≡ counters_of (net_of p self.now) }
    {
        laws::keys_say_all();
        Counters {
            made: self.made,
            delivered: self.log.delivered_count(),
            held,
            drops: self.log.drops(),
        }
    }

    /// Removes all records. Keeps the allocation.
    pub fn forget_records(&mut self)
        ensures rest { self.new ≡ record self.old { log = self.new.log } }
        ensures records { self.new.log.records ≡ [] }
        ensures room { self.old.log.spare ≤ self.new.log.spare }
    {
        self.log.clear();
    }

    /// Converts the network into a `Vec` of its records. Does not allocate.
    pub fn into_records(self) -> Vec<Record>
        ensures { result.items ≡ self.log.records }
    {
        let Network { log, .. } = self;
        log.into_vec()
    }

    /// Records that the steps are spent. There must be room for the record.
    pub fn note_spent(&mut self, now: u64)
        requires { 0 < self.old.log.spare }
        ensures { Notes (StepsSpent now ∷ []) self.old self.new }
    {
        self.note(&Record::StepsSpent { moment: now });
    }
}
