//! The numbers of deliveries and drops among the records that an experiment has discarded.

ghost use Rattle.std.specs.Prelude.{◌≡◌, ◌+◌, ◌^◌, ◌<◌, ℕ, ◌++◌, List, [], slice_index_or};
ghost use Rattle.emu_model.specs.declared.records.Record.{Record};
ghost use Rattle.emu_model.specs.Net.{counters_of};
ghost use Rattle.emu_model.specs.RunLaws.{with_earlier};
ghost use Rattle.packet_store.specs.Pocket.{Pocket};
ghost use Rattle.experiment.specs.Kept.{view, IsHousedIn, IsAloneAfter, IsWaiting};
ghost use Rattle.experiment.specs.Written.{AreCountsOf, CanCount, all_drops_of};

use crate::Experiment;
use emu_model::Counters;

/// The numbers of deliveries, and of drops by cause from `Denied` to `Budget`, among the records
/// that an experiment has discarded.
#[derive(Clone, Copy, Debug, PartialEq)]
pub struct RecordCounts {
    pub delivered: u64,
    pub drops: [u64; 8],
}

// Returns the sum of the drops of two parts of a run, cause by cause.
fn sum_of(first: &[u64; 8], second: &[u64; 8]) -> [u64; 8]
    requires { (k : ℕ) → slice_index_or first.now k 0 + slice_index_or second.now k 0 < 2 ^ 64 }
    ensures { (rs qs : List Record) → first.now ≡ all_drops_of rs → second.now ≡ all_drops_of qs →
        result ≡ all_drops_of (rs ++ qs) }
{
    [
        first[0] + second[0],
        first[1] + second[1],
        first[2] + second[2],
        first[3] + second[3],
        first[4] + second[4],
        first[5] + second[5],
        first[6] + second[6],
        first[7] + second[7],
    ]
}

impl RecordCounts {
    /// Returns the counts of no records.
    pub fn new() -> Self
        ensures { AreCountsOf [] result }
    {
        RecordCounts {
            delivered: 0,
            drops: [0; 8],
        }
    }

    /// Counts the records of an experiment, and removes them from it.
    pub fn count(&mut self, experiment: &mut Experiment)
        requires { CanCount self.old experiment.old }
        ensures counts { (rs : List Record) → AreCountsOf rs self.old →
            AreCountsOf (rs ++ experiment.old.net.log.records) self.new }
        ensures rest { experiment.new ≡ record experiment.old {
          net = record experiment.old.net { log = experiment.new.net.log };
        } }
        ensures records { experiment.new.net.log.records ≡ [] }
        ensures housed { (p : Pocket) → IsHousedIn p experiment.old → IsHousedIn p experiment.new }
        ensures after { (earlier : List Record) (p : Pocket) →
            IsAloneAfter earlier p experiment.old →
            IsAloneAfter (earlier ++ experiment.old.net.log.records) p experiment.new }
        ensures waits { (t : ℕ) (earlier : List Record) (p : Pocket) →
            IsWaiting t earlier p experiment.old →
            IsWaiting t (earlier ++ experiment.old.net.log.records) p experiment.new }
    {
        let counted = experiment.counters();
        self.delivered += counted.delivered;
        self.drops = sum_of(&self.drops, &counted.drops);
        experiment.forget_records();
    }

    /// Returns the counters of an experiment's current state, with these counts of deliveries and
    /// drops.
    pub fn among(&self, standing: &Counters) -> Counters
        ensures { result ≡ record standing.now {
          delivered = self.now.delivered;
          drops = self.now.drops;
        } }
    {
        Counters {
            made: standing.made,
            delivered: self.delivered,
            held: standing.held,
            drops: self.drops,
        }
    }

    /// Returns the counters of an experiment, including the records that it has discarded.
    pub fn counters(&self, experiment: &Experiment) -> Counters
        requires { CanCount self.now experiment.now }
        ensures { (rs : List Record) (p : Pocket) → AreCountsOf rs self.now →
            IsHousedIn p experiment.now →
            result ≡ counters_of (with_earlier rs (view p experiment.now)).net }
    {
        let counted = experiment.counters();
        Counters {
            made: counted.made,
            delivered: self.delivered + counted.delivered,
            held: counted.held,
            drops: sum_of(&self.drops, &counted.drops),
        }
    }
}
