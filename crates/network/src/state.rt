//! The state of an experiment.

ghost use Rattle.std.specs.Prelude.{◌≡◌, ◌+◌, ◌^◌, ◌<◌, ◌≤◌, ◌∷◌, [], IfOk, IsOk, OnOk};
ghost use Rattle.emu_model.specs.Net.{opening_net};
ghost use Rattle.packet_store.specs.Pocket.{Pocket};
ghost use Rattle.network.specs.Kept.{net_of, net_keys};
ghost use Rattle.network.specs.Changes.{IsStill, Notes};

use crate::events::MAX_RECORDS;
use crate::flow_cache::FlowCache;
use emu_model::{Packet, Record};
use emu_rules::RuleList;
use link_core::DelayLine;
use packet_store::Key;
use pipe_table::{PipeTable, RecordLog};
use sources::Traffic;
use std::alloc::{AllocError, Global};
use std::marker::Model;

/// The rules, pipes, link of `allow`, flows and trains of one experiment, and its records. Its
/// packets are on a shelf.
#[derive(Drop)]
pub struct Network {
    pub(crate) alloc: Global,
    pub(crate) book: RuleList,
    pub(crate) table: PipeTable,
    pub(crate) direct: DelayLine<Key>,
    pub(crate) traffic: Traffic,
    pub(crate) made: u64,
    pub(crate) one_pass: bool,
    pub(crate) trace: bool,
    pub(crate) log: RecordLog,
    // Room for the packets that CoDel drops at a finish.
    pub(crate) drops: Vec<Packet>,
    // The routes of the sources' packets.
    pub(crate) flow_cache: FlowCache,
}

impl Model for Network {
    ghost use Rattle.network.specs.Kept.{KeptNet};
    ghost use Rattle.sources.specs.Standing.{heads_of};
    ghost use Rattle.network.specs.FlowCache.{AreKnown};

    ghost Value = { KeptNet };

    ghost view = { λ n. record {
      book = n.book;
      table = n.table;
      direct = n.direct;
      traffic = n.traffic;
      made = n.made;
      one_pass = n.one_pass;
      trace = n.trace;
      log = n.log;
      flow_cache = n.flow_cache;
    } };

    ghost invariant = { λ n.
        AreKnown n.book.rules n.table.pipes (heads_of n.traffic) n.flow_cache };
}

impl Network {
    /// Creates a network with only the default rule, and without packets, whose packets are traced
    /// or not.
    #[tactic(auto, unfolding(pipe_table::specs::Table::pipe_keys))]
    pub fn new(alloc: Global, seed: u64, traced: bool) -> Result<Self, AllocError>
        ensures shown { IfOk result (λ n. (p : Pocket) → net_of p n ≡ opening_net traced) }
        ensures keys { IfOk result (λ n. net_keys n ≡ []) }
        ensures seed { IfOk result (λ n. n.table.seed ≡ seed) }
        ensures made { IfOk result (λ n. n.made ≡ 0) }
    {
        let book = RuleList::new(alloc)?;
        Ok(Network {
            alloc,
            book,
            table: PipeTable::new(alloc, seed),
            direct: DelayLine::new(alloc),
            traffic: Traffic::new(alloc),
            made: 0,
            one_pass: true,
            trace: traced,
            log: RecordLog::new(alloc),
            drops: Vec::new(alloc),
            flow_cache: FlowCache::new(alloc),
        })
    }

    // Appends a record, for which there must be room.
    #[inline(always)]
    pub(crate) fn note(&mut self, entry: &Record)
        requires { 0 < self.old.log.spare }
        ensures { Notes (entry.now ∷ []) self.old self.new }
    {
        self.log.note(entry);
    }
}

impl Network {
    // Reserves room for `additional` more records.
    #[inline(always)]
    pub(crate) fn reserve(&mut self, additional: usize) -> Result<(), AllocError>
        ensures rest { self.new ≡ record self.old { log = self.new.log } }
        ensures records { self.new.log.records ≡ self.old.log.records }
        ensures still { IsStill self.old self.new }
        ensures ready { OnOk result (additional ≤ self.new.log.spare) }
        ensures succeeds { additional ≤ self.old.log.spare → IsOk result }
    {
        self.log.reserve(additional)
    }

    // Reserves room for the records of a command, and clears the cached routes, which the command
    // may change.
    #[tactic(auto, using(crate::proofs::RouteFacts::known_none))]
    pub(crate) fn obey_ready(&mut self) -> Result<(), AllocError>
        ensures rest { self.new
            ≡ record self.old { log = self.new.log; flow_cache = self.new.flow_cache } }
        ensures records { self.new.log.records ≡ self.old.log.records }
        ensures still { IsStill self.old self.new }
        ensures ready { OnOk result (6 ≤ self.new.log.spare) }
        ensures forgot { OnOk result (self.new.flow_cache ≡ []) }
        ensures succeeds { 6 ≤ self.old.log.spare → IsOk result }
    {
        self.reserve(MAX_RECORDS)?;
        self.flow_cache.clear();
        Ok(())
    }

    // Reserves room for three records in addition to `lines`.
    pub(crate) fn reserve_besides(&mut self, lines: usize) -> Result<(), AllocError>
        ensures rest { self.new ≡ record self.old { log = self.new.log } }
        ensures records { self.new.log.records ≡ self.old.log.records }
        ensures still { IsStill self.old self.new }
        ensures ready { OnOk result (lines + 3 ≤ self.new.log.spare) }
        ensures succeeds { lines < 2 ^ 63 → lines + 3 ≤ self.old.log.spare → IsOk result }
    {
        let Some(additional) = lines.checked_add(3) else {
            return Err(AllocError);
        };
        self.reserve(additional)
    }
}
