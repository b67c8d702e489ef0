//! The dues of all flows and trains, indexed so that the earliest is found without a search.

ghost use Rattle.std.specs.Prelude.{◌≡◌, ◌↔◌, ◌<◌, ◌++◌, ◌∷◌, [], List, length, map, flat_map, option_to_list, slice_index_or, slice_set, IfNone, IfSome, IsTrue, None, OnOk};
ghost use Rattle.emu_model.specs.Net.{TrainState};
ghost use Rattle.emu_model.specs.Dues.{flow_dues, train_dues};
ghost use Rattle.due_index.specs.Least.{lesser, least_of, dues_in};
ghost use Rattle.sources.specs.Kept.{KeptFlow, AreDifferent};
ghost use Rattle.sources.specs.Numbers.{IsWhole};
ghost use Rattle.sources.specs.Leaves.{AreIndexed, AreTold, AreFound, IsRight, IsEarlyAt, HasFlowAt, HasFlowRoom, sends_due};

use crate::flow::Flow;
use crate::numbers::NumberSet;
use crate::train::Train;
use due_index::{DueIndex, DueNumber, NumberTable};
use emu_model::{Class, Source};
use std::alloc::{AllocError, Global};

/// The timers of flows, updated lazily: a flow's entry is its due or an earlier one, so only a
/// timer that is set to an earlier time changes the tree. Also the numbers of the flows that may
/// send a segment, and the dues of trains. Timers and trains are indexed by the place of their
/// source.
#[derive(Drop)]
pub(crate) struct SourceIndex {
    timers: DueIndex,
    ready: NumberSet,
    packets: DueIndex,
}

// Returns true if two dues are equal.
fn is_same(first: DueNumber, second: DueNumber) -> bool
    ensures { IsTrue result ↔ (first ≡ second) }
{
    first == second
}

// Updates a timer's entry lazily: the entry changes only if the timer is before it.
#[inline(always)]
fn tell(timers: &mut DueIndex, place: usize, timer: DueNumber)
    requires { place < length timers.old.leaves }
    ensures { timers.new.leaves ≡ slice_set timers.old.leaves place
        (lesser (slice_index_or timers.old.leaves place None) timer) }
{
    if timer.is_before(timers.at(place)) {
        timers.set(place, timer);
    }
}

impl SourceIndex {
    /// Creates an index without flows and trains. Does not allocate.
    pub(crate) fn new(alloc: Global) -> Self
        ensures { AreIndexed [] [] result }
    {
        SourceIndex {
            timers: DueIndex::new(alloc),
            ready: NumberSet::new(alloc),
            packets: DueIndex::new(alloc),
        }
    }

    /// Reserves the memory for one `add_flow`. Only spare capacity changes, even if allocation
    /// fails.
    pub(crate) fn flow_ready(&mut self, number: u16) -> Result<(), AllocError>
        ensures same { (fs : List KeptFlow) (ts : List TrainState) → AreIndexed fs ts self.old →
            AreIndexed fs ts self.new }
        ensures ready { OnOk result (HasFlowRoom number self.new) }
    {
        self.ready.make_room(number)?;
        self.timers.push_ready()
    }

    /// Reserves the memory for one `add_train`. Only spare capacity changes, even if allocation
    /// fails.
    pub(crate) fn train_ready(&mut self) -> Result<(), AllocError>
        ensures same { (fs : List KeptFlow) (ts : List TrainState) → AreIndexed fs ts self.old →
            AreIndexed fs ts self.new }
        ensures ready { OnOk result (0 < self.new.packets.spare) }
    {
        self.packets.push_ready()
    }

    /// Adds a flow after all others.
    pub(crate) fn add_flow(&mut self, flow: &Flow)
        requires { HasFlowRoom flow.now.state.number self.old }
        ensures { (fs : List KeptFlow) (ts : List TrainState) → AreIndexed fs ts self.old →
            AreIndexed (fs ++ flow.now ∷ []) ts self.new }
    {
        self.timers.push(flow.timer());
        self.ready.add(flow.number().get(), flow.may_send());
    }

    /// Adds a train after all others.
    pub(crate) fn add_train(&mut self, train: &Train)
        requires { 0 < self.old.packets.spare }
        ensures { (fs : List KeptFlow) (ts : List TrainState) → AreIndexed fs ts self.old →
            AreIndexed fs (ts ++ train.now ∷ []) self.new }
    {
        self.packets.push(train.due());
    }

    /// Updates the entries of a flow, whose number must be unchanged.
    #[inline(always)]
    pub(crate) fn set_flow(&mut self, place: usize, flow: &Flow)
        requires { HasFlowAt place flow.now.state.number self.old }
        ensures { (fs : List KeptFlow) (ts : List TrainState) (f : KeptFlow) →
            AreIndexed fs ts self.old → AreDifferent (map (λ f. f.state.number) fs) →
            f ≡ slice_index_or fs place f → flow.now.state.number ≡ f.state.number →
            AreIndexed (slice_set fs place flow.now) ts self.new }
    {
        tell(&mut self.timers, place, flow.timer());
        self.ready.set(flow.number().get(), flow.may_send());
    }

    /// Updates the entry of a train.
    #[inline(always)]
    pub(crate) fn set_train(&mut self, place: usize, train: &Train)
        requires { place < length self.old.packets.leaves }
        ensures { (fs : List KeptFlow) (ts : List TrainState) → AreIndexed fs ts self.old →
            AreIndexed fs (slice_set ts place train.now) self.new }
    {
        self.packets.set_least(place, train.due());
    }

    /// Returns the place of the flow whose timer has the first entry but is due later, or None if
    /// the first entry is exact.
    fn told_early(&self, flows: &[Flow], places: &NumberTable) -> Option<usize>
        requires told { AreTold self.now.timers.leaves flows.now }
        requires flows { AreFound flows.now places.now }
        ensures right { IfNone result (IsRight self.now.timers.leaves flows.now) }
        ensures early { IfSome result (λ i. IsEarlyAt i self.now.timers.leaves flows.now) }
    {
        let told = self.timers.least();
        if told.is_none() {
            return None;
        }
        let Some(flow) = told.flow() else {
            return None;
        };
        let Some(place) = places.get(flow.get()) else {
            return None;
        };
        if is_same(flows[place].timer(), told) {
            return None;
        }
        Some(place)
    }

    /// Makes the first entry of the timers exact.
    #[inline(never)]
    fn settle(&mut self, flows: &[Flow], places: &NumberTable)
        requires told { AreTold self.old.timers.leaves flows.now }
        requires flows { AreFound flows.now places.now }
        ensures told { AreTold self.new.timers.leaves flows.now }
        ensures rest { self.new ≡ record self.old { timers = self.new.timers } }
        ensures right { IsRight self.new.timers.leaves flows.now }
    {
        'telling: loop {
            let Some(place) = self.told_early(flows, places) else {
                return;
            };
            self.timers.set(place, flows[place].timer());
        }
    }

    /// Returns the earliest of a due and the next packets of all flows and trains, given that the
    /// last event was at `clock` (ns).
    #[inline(always)]
    fn earliest_send(&self, clock: u64, best: DueNumber) -> DueNumber
        requires { IsWhole self.now.ready }
        ensures { (fs : List KeptFlow) (ts : List TrainState) → AreIndexed fs ts self.now →
            result ≡ lesser best (least_of (sends_due clock fs ts)) }
    {
        let best = best.or_earlier(self.packets.least());
        match self.ready.first() {
            Some(number) => {
                let class = Class::Emission;
                best.or_earlier(DueNumber::at(clock, Source { class, number }))
            }
            None => best,
        }
    }

    /// Returns the earliest due like `earliest_send`, but includes the entries of timers, which may
    /// be too early.
    #[inline(always)]
    fn lower_bound(&self, clock: u64, best: DueNumber) -> DueNumber
        requires { IsWhole self.now.ready }
        ensures { (fs : List KeptFlow) (ts : List TrainState) → AreIndexed fs ts self.now →
            result ≡ lesser (lesser best (least_of (dues_in self.now.timers.leaves)))
            (least_of (sends_due clock fs ts)) }
    {
        self.earliest_send(clock, best.or_earlier(self.timers.least()))
    }

    /// Returns the earliest of a due and those of all flows and trains, given that the last event
    /// was at `clock` (ns), the list of flows, and their places by number.
    pub(crate) fn earliest(
        &self,
        flows: &[Flow],
        places: &NumberTable,
        clock: u64,
        best: DueNumber,
    ) -> DueNumber
        requires told { AreTold self.now.timers.leaves flows.now }
        requires whole { IsWhole self.now.ready }
        requires flows { AreFound flows.now places.now }
        ensures { (ts : List TrainState) → AreIndexed flows.now ts self.now →
            result ≡ least_of (option_to_list best
            ++ (flat_map (λ f. flow_dues clock f.state) flows.now ++ flat_map train_dues ts)) }
    {
        let bound = self.lower_bound(clock, best);
        if !bound.is_expiry() {
            return bound;
        }
        match self.told_early(flows, places) {
            Some(_) => self.earliest_by_walk(flows, clock, best),
            None => bound,
        }
    }

    // Returns the earliest due like `earliest`, but checks each timer.
    fn earliest_by_walk(&self, flows: &[Flow], clock: u64, best: DueNumber) -> DueNumber
        requires { IsWhole self.now.ready }
        ensures { (ts : List TrainState) → AreIndexed flows.now ts self.now →
            result ≡ least_of (option_to_list best
            ++ (flat_map (λ f. flow_dues clock f.state) flows.now ++ flat_map train_dues ts)) }
    {
        let mut best = self.earliest_send(clock, best);
        for flow in flows {
            best = best.or_earlier(flow.timer());
        }
        best
    }

    /// Returns the earliest due like `earliest`, and makes the entry of a timer exact if it is the
    /// first.
    #[inline(always)]
    pub(crate) fn next_due(
        &mut self,
        flows: &[Flow],
        places: &NumberTable,
        clock: u64,
        best: DueNumber,
    ) -> DueNumber
        requires told { AreTold self.old.timers.leaves flows.now }
        requires whole { IsWhole self.old.ready }
        requires flows { AreFound flows.now places.now }
        ensures least { (ts : List TrainState) → AreIndexed flows.now ts self.old →
            result ≡ least_of (option_to_list best
            ++ (flat_map (λ f. flow_dues clock f.state) flows.now ++ flat_map train_dues ts)) }
        ensures indexed { (ts : List TrainState) → AreIndexed flows.now ts self.old →
            AreIndexed flows.now ts self.new }
    {
        let bound = self.lower_bound(clock, best);
        if !bound.is_expiry() {
            return bound;
        }
        self.settle(flows, places);
        self.lower_bound(clock, best)
    }
}
