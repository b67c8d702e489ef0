//! All flows and trains.

ghost use Rattle.std.specs.Prelude.{◌≡◌, ℕ, ◌+◌, ◌*◌, ◌<◌, ◌≤◌, ◌++◌, [], Some, is_some, option_map, option_to_list, position, ◌==◌, length, vec_len, vec_capacity, IfNone, IfSome, IsOk, OnOk, OnErr};
ghost use Rattle.std.specs.Option.{option_map_or};
ghost use Rattle.std.specs.List.{best_of};
ghost use Rattle.emu_model.specs.Moments.{IsMoment};
ghost use Rattle.emu_model.specs.declared.records.Record.TheVariants.{AckTaken, TimerExpired};
ghost use Rattle.emu_model.specs.declared.commands.EventContext.{EventContext};
ghost use Rattle.emu_model.specs.Net.{Net, find_flow, make, note, take_segment, take_ack};
ghost use Rattle.emu_model.specs.Commands.{is_in_use, source_refusal, start_flow, start_train, stop_flow};
ghost use Rattle.emu_model.specs.Dues.{is_before};
ghost use Rattle.emu_model.specs.Events.{emission, expire_flow};
ghost use Rattle.sources.specs.Kept.{with_traffic, IsFree, HasRoomFor};
ghost use Rattle.due_index.specs.Least.{least_of};
ghost use Rattle.sources.specs.Standing.{flow_place, source_place, IsPlace, IsThere, MaySendAt, heads_of, reply_at, send_at};
ghost use Rattle.sources.specs.Sends.{IsAllowed, IsNumbered, next_send, reply_send, source_dues};

use crate::dues::append;
use crate::flow::Flow;
use crate::index::SourceIndex;
use crate::sends::{Sending, Window};
use crate::train::Train;
use due_index::{DueNumber, NumberTable};
use emu_model::{Due, FlowNumber, FlowSpec, Origin, Refusal, SendSpec, TrainSpec};
use std::alloc::{AllocError, Global};
use std::marker::Model;

/// The maximum number of flows and trains together.
const MAX_SOURCES: usize = 256;

/// The place of a source among the flows or among the trains.
#[derive(Clone, Copy)]
pub enum SourcePlace {
    Flow(usize),
    Train(usize),
}

/// All flows and trains of one experiment. Each number is used at most once. Contracts see the
/// flows and trains of a net, whatever else that net holds, and how many segments each receiver can
/// take without an allocation. Times are in nanoseconds.
#[derive(Drop)]
pub struct Traffic {
    alloc: Global,
    flows: Vec<Flow>,
    trains: Vec<Train>,
    flow_places: NumberTable,
    train_places: NumberTable,
    index: SourceIndex,
}

impl Model for Traffic {
    ghost use Rattle.sources.specs.Kept.{KeptTraffic, IsSound};
    ghost use Rattle.sources.specs.Leaves.{AreIndexed};
    ghost use Rattle.sources.specs.Tables.{LeadsTo};

    ghost Value = { KeptTraffic };

    ghost view = { λ t. record { flows = t.flows.items; trains = t.trains.items } };

    ghost invariant = { λ t. IsSound t.flows.items t.trains.items
        × AreIndexed t.flows.items t.trains.items t.index
        × LeadsTo (λ f. f.state.number) t.flows.items t.flow_places
        × LeadsTo (λ u. u.number) t.trains.items t.train_places };
}

impl Traffic {
    /// Creates a set without flows and trains. Does not allocate.
    pub fn new(alloc: Global) -> Self
        ensures { result ≡ record { flows = []; trains = [] } }
    {
        Traffic {
            alloc,
            flows: Vec::new(alloc),
            trains: Vec::new(alloc),
            flow_places: NumberTable::new(alloc),
            train_places: NumberTable::new(alloc),
            index: SourceIndex::new(alloc),
        }
    }

    /// Returns the reason why no source can start under this number, if any: `FlowThere`, then
    /// `TooManyFlows` if there are 256 sources.
    pub fn refusal(&self, number: FlowNumber) -> Option<Refusal>
        ensures refusal { (n : Net) → result ≡ source_refusal number (with_traffic self.now n) }
        ensures free { IfNone result (IsFree number self.now) }
    {
        if self.is_in_use(number) {
            return Some(Refusal::FlowThere);
        }
        if self.flows.len() + self.trains.len() < MAX_SOURCES {
            return None;
        }
        Some(Refusal::TooManyFlows)
    }

    /// Returns true if there is a flow with this number, stopped or not.
    pub fn has_flow(&self, number: FlowNumber) -> bool
        ensures { (n : Net) → result ≡ is_some (find_flow number (with_traffic self.now n)) }
    {
        let place = self.flow_place(number);
        place.is_some()
    }

    /// Starts a flow. After an error nothing has changed.
    pub fn start_flow(&mut self, number: FlowNumber, flow: &FlowSpec) -> Result<(), AllocError>
        requires { IsFree number self.old }
        ensures ok { OnOk result
            ((n : Net) →
            start_flow number flow.now (with_traffic self.old n) ≡ with_traffic self.new n) }
        ensures err { OnErr result (self.new ≡ self.old) }
    {
        self.flows.reserve(1)?;
        self.flow_places.make_room(number.get())?;
        self.index.flow_ready(number.get())?;
        let flow = Flow::new(self.alloc, number, flow);
        self.index.add_flow(&flow);
        self.flow_places.set(number.get(), self.flows.len());
        self.flows.push_reserved(flow);
        Ok(())
    }

    /// Starts a train at `now`. After an error nothing has changed.
    pub fn start_train(
        &mut self,
        now: u64,
        number: FlowNumber,
        train: &TrainSpec,
    ) -> Result<(), AllocError>
        requires early { IsMoment now }
        requires free { IsFree number self.old }
        ensures ok { OnOk result
            ((n : Net) →
            start_train now number train.now (with_traffic self.old n) ≡ with_traffic self.new n) }
        ensures err { OnErr result (self.new ≡ self.old) }
    {
        self.trains.reserve(1)?;
        self.train_places.make_room(number.get())?;
        self.index.train_ready()?;
        let train = Train::new(number, train, now);
        self.index.add_train(&train);
        self.train_places.set(number.get(), self.trains.len());
        self.trains.push_reserved(train);
        Ok(())
    }

    /// Stops a flow, if it exists: it sends no more segments, and ignores acknowledgements.
    pub fn stop(&mut self, number: FlowNumber)
        ensures { (n : Net) → let m = with_traffic self.old n in
            option_map_or (stop_flow m) (find_flow number m) m ≡ with_traffic self.new n }
    {
        let Some(place) = self.flow_place(number) else {
            return;
        };
        let flow = &mut self.flows[place];
        flow.stop();
        self.index.set_flow(place, flow);
    }

    /// Returns the place of a flow, and the header of the acknowledgement that `take` returns, or
    /// None if there is no such flow.
    #[inline(always)]
    pub fn reply(&self, number: FlowNumber) -> Option<(usize, SendSpec)>
        ensures header { (n : Net) →
            option_map (λ r. r.1) result ≡ reply_send number (with_traffic self.now n) }
        ensures place { IfSome result (λ r.
            (r.0 < 256) × (reply_at r.0 (heads_of self.now) ≡ Some r.1)) }
    {
        let Some(place) = self.flow_place(number) else {
            return None;
        };
        let flow = &self.flows[place];
        Some((place, flow.reply()))
    }

    /// Reserves the memory for a `take` of any segment of this flow. Only spare capacity changes.
    #[inline(always)]
    pub fn take_ready(&mut self, number: FlowNumber, first: u64) -> Result<(), AllocError>
        ensures ready { OnOk result (HasRoomFor number self.new) }
        ensures others { (k : ℕ) → HasRoomFor k self.old → HasRoomFor k self.new }
        ensures succeeds { HasRoomFor number self.old → IsOk result }
        ensures same { (n : Net) → with_traffic self.new n ≡ with_traffic self.old n }
        ensures heads { heads_of self.new ≡ heads_of self.old }
    {
        let Some(place) = self.flow_place(number) else {
            return Ok(());
        };
        let flow = &mut self.flows[place];
        flow.take_ready(first)
    }

    /// Passes the segment that begins at byte `first` to a flow's receiver, even if the flow is
    /// stopped. Returns the acknowledgement to be created, or None if there is no such flow.
    #[inline(always)]
    pub fn take(&mut self, number: FlowNumber, first: u64) -> Option<Sending>
        requires { HasRoomFor number self.old }
        ensures taken { (at : EventContext) (n : Net) → let m = with_traffic self.old n in
            option_map_or (take_segment at first m) (find_flow number m) m
            ≡ option_map_or (λ s. make at s.origin s.send (with_traffic self.new n)) result
            (with_traffic self.new n) }
        ensures header { (n : Net) →
            option_map (λ s. s.send) result ≡ reply_send number (with_traffic self.old n) }
        ensures heads { heads_of self.new ≡ heads_of self.old }
    {
        let Some(place) = self.flow_place(number) else {
            return None;
        };
        let flow = &mut self.flows[place];
        Some(flow.take(first))
    }

    /// Passes an acknowledgement of all bytes below `upto` to a flow's sender. Returns the sender's
    /// window after it, or None if there is no such flow or it is stopped.
    #[inline(always)]
    pub fn take_ack(&mut self, now: u64, number: FlowNumber, upto: u64) -> Option<Window>
        requires early { IsMoment now }
        ensures taken { (n : Net) → let m = with_traffic self.old n in
            option_map_or (take_ack now upto m) (find_flow number m) m
            ≡ option_map_or
            (λ w. note (AckTaken now number w.cwnd w.ssthresh) (with_traffic self.new n)) result
            (with_traffic self.new n) }
        ensures heads { heads_of self.new ≡ heads_of self.old }
    {
        let Some(place) = self.flow_place(number) else {
            return None;
        };
        let flow = &mut self.flows[place];
        let window = flow.take_ack(now, upto);
        self.index.set_flow(place, flow);
        window
    }

    /// Handles the expiry of a flow's timer. Returns the sender's window after it, or None if there
    /// is no such flow.
    pub fn expire(&mut self, now: u64, number: FlowNumber) -> Option<Window>
        requires early { IsMoment now }
        ensures expired { (at : EventContext) (n : Net) → at.now ≡ now →
            let m = with_traffic self.old n in
            option_map_or (expire_flow at m) (find_flow number m) m
            ≡ option_map_or
            (λ w. note (TimerExpired now number w.cwnd w.ssthresh)
            (with_traffic self.new n)) result (with_traffic self.new n) }
        ensures heads { heads_of self.new ≡ heads_of self.old }
    {
        let Some(place) = self.flow_place(number) else {
            return None;
        };
        let flow = &mut self.flows[place];
        let window = flow.expire(now);
        self.index.set_flow(place, flow);
        Some(window)
    }

    /// Returns the earliest of a due and those of all flows and trains, given that the last event
    /// was at `clock`; the first of equal ones.
    pub fn earliest(&self, clock: u64, best: Due) -> Due
        ensures least { (n : Net) →
            result ≡ best_of is_before best (source_dues clock (with_traffic self.now n)) }
        ensures moment { result.moment ≤ best.moment }
        ensures allowed { IsAllowed self.now best → IsAllowed self.now result }
        ensures numbered { IsNumbered best → IsNumbered result }
    {
        let first = DueNumber::at(best.moment, best.source);
        let least = self
            .index
            .earliest(&self.flows, &self.flow_places, clock, first);
        least.some()
    }

    /// Returns the earliest due like `earliest`, as one number, which may be none. Changes only
    /// cached timers, which is not observable: if nothing else changes, the next call finds the
    /// earliest due at once.
    #[inline(always)]
    pub fn next_due(&mut self, clock: u64, best: DueNumber) -> DueNumber
        ensures least { (n : Net) → result ≡ least_of (option_to_list best
            ++ source_dues clock (with_traffic self.old n)) }
        ensures moment { IfSome best (λ b. IfSome result (λ d. d.moment ≤ b.moment)) }
        ensures allowed { IfSome best (λ b. IsAllowed self.old b →
            IfSome result (IsAllowed self.old)) }
        ensures numbered { IfSome best (λ b. IsNumbered b → IfSome result IsNumbered) }
        ensures same { self.new ≡ self.old }
    {
        self.index
            .next_due(&self.flows, &self.flow_places, clock, best)
    }

    /// Appends the dues of all flows and trains. If allocation fails, `dues` is unchanged; that is
    /// possible only if `dues` has no room for two dues per flow and one per train.
    pub fn add_dues(&self, clock: u64, dues: &mut Vec<Due>) -> Result<(), AllocError>
        ensures ok { OnOk result
            ((n : Net) →
            dues.new.items ≡ dues.old.items ++ source_dues clock (with_traffic self.now n)) }
        ensures err { OnErr result (dues.new.items ≡ dues.old.items) }
        ensures full { OnErr result
            (vec_capacity dues.old
            < vec_len dues.old + (2 * length self.now.flows + length self.now.trains)) }
    {
        dues.reserve(2 * self.flows.len() + self.trains.len())?;
        for flow in &self.flows {
            let due = flow.dues(clock);
            append(dues, due.expiry);
            append(dues, due.emission);
        }
        for train in &self.trains {
            append(dues, train.due());
        }
        Ok(())
    }

    /// Returns the place of the source with this number, or None if there is none.
    #[inline(always)]
    pub fn find(&self, number: FlowNumber) -> Option<SourcePlace>
        ensures place { result ≡ source_place number self.now }
        ensures few { IfSome result (λ p. IsPlace p) }
        ensures there { IfSome result (λ p. IsThere p self.now) }
        ensures header { IfSome result (λ p. (n : Net) →
            next_send number (with_traffic self.now n) ≡ send_at p (heads_of self.now)) }
        ensures none { IfNone result
            ((n : Net) → next_send number (with_traffic self.now n) ≡ None) }
        ensures still { IfNone result ((at : EventContext) (n : Net) →
            emission at number (with_traffic self.now n) ≡ with_traffic self.now n) }
    {
        let _ = &self.alloc;
        if let Some(place) = self.flow_place(number) {
            return Some(SourcePlace::Flow(place));
        }
        match self.train_place(number) {
            Some(place) => Some(SourcePlace::Train(place)),
            None => None,
        }
    }

    /// Returns the header of the next packet of the source at a place.
    #[inline(always)]
    pub fn header_at(&self, source: &SourcePlace) -> SendSpec
        requires { IsThere source.now self.now }
        ensures { (k : ℕ) (n : Net) → source_place k self.now ≡ Some source.now →
            next_send k (with_traffic self.now n) ≡ Some result }
    {
        match source {
            SourcePlace::Flow(place) => self.flows[*place].send(),
            SourcePlace::Train(place) => self.trains[*place].send(),
        }
    }

    /// Sends a packet from the source at a place, which must have one to send, and returns its
    /// origin. The packet's header is that of `header_at`.
    #[inline(always)]
    pub fn emit_at(&mut self, now: u64, source: &SourcePlace) -> Origin
        requires early { IsMoment now }
        requires may { MaySendAt source.now self.old }
        ensures emission { (at : EventContext) (k : ℕ) (n : Net) (send : SendSpec) → at.now ≡ now →
            source_place k self.old ≡ Some source.now →
            next_send k (with_traffic self.old n) ≡ Some send →
            emission at k (with_traffic self.old n) ≡ make at result send (with_traffic self.new n) }
        ensures heads { heads_of self.new ≡ heads_of self.old }
    {
        match source {
            SourcePlace::Flow(place) => {
                let flow = &mut self.flows[*place];
                let origin = flow.emit(now);
                self.index.set_flow(*place, flow);
                origin
            }
            SourcePlace::Train(place) => {
                let train = &mut self.trains[*place];
                let made = train.emit();
                self.index.set_train(*place, train);
                made
            }
        }
    }

    /// Returns true if there is a flow or a train with this number.
    fn is_in_use(&self, number: FlowNumber) -> bool
        ensures { (n : Net) → result ≡ is_in_use number (with_traffic self.now n) }
    {
        self.flow_place(number).is_some() || self.train_place(number).is_some()
    }

    /// Returns the place of the flow with this number.
    #[inline(always)]
    fn flow_place(&self, number: FlowNumber) -> Option<usize>
        ensures { result ≡ position (λ f. f.state.number == number) self.now.flows }
    {
        self.flow_places.get(number.get())
    }

    /// Returns the place of the train with this number.
    #[inline(always)]
    fn train_place(&self, number: FlowNumber) -> Option<usize>
        ensures { result ≡ position (λ t. t.number == number) self.now.trains }
    {
        self.train_places.get(number.get())
    }
}
