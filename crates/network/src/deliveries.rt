//! The effects of delivered packets.

ghost use Rattle.std.specs.Prelude.{◌≡◌, ℕ, ◌+◌, ◌*◌, ◌^◌, ◌<◌, ◌≤◌, IsOk, IfOk, OnOk};
ghost use Rattle.std.specs.Option.{option_map_or};
ghost use Rattle.emu_model.specs.Moments.{IsMoment};
ghost use Rattle.emu_model.specs.declared.packets.Load.TheVariants.{Plain, Seg, Ack};
ghost use Rattle.emu_model.specs.Net.{deliver, find_flow, take_ack, take_load};
ghost use Rattle.packet_store.specs.Pocket.{AllStay};
ghost use Rattle.pipe_table.specs.Places.{KeepsPlaces};
ghost use Rattle.emu_model.specs.Step.{setting};
ghost use Rattle.network.specs.Kept.{net_of, Stands};
ghost use Rattle.network.specs.Changes.{Becomes, IsStill, Turns};
ghost use Rattle.network.specs.Frames.{TakesRoom};
ghost use Rattle.network.specs.Ready.{CanDeliver};

use crate::flow_cache::{Lookup, reply_line_of};
use crate::state::Network;
use emu_model::{FlowNumber, Load, Packet, Record, Spec};
use packet_store::{Owner, Shelf};
use std::alloc::AllocError;

impl Network {
    // Reserves the memory for delivering this load.
    #[inline(always)]
    pub(crate) fn deliver_ready<S: Shelf>(
        &mut self,
        shelf: &mut S,
        owner: Owner,
        now: u64,
        load: Load,
    ) -> Result<Lookup, AllocError>
        ensures still { IsStill self.old self.new }
        ensures rest { self.new
            ≡ record self.old {
              table = self.new.table;
              direct = self.new.direct;
              traffic = self.new.traffic;
              flow_cache = self.new.flow_cache;
            } }
        ensures pockets { AllStay (S.pocket shelf.old) (S.pocket shelf.new) }
        ensures rooms { (o : ℕ) → S.room shelf.old o ≤ S.room shelf.new o }
        ensures places { OnOk result (KeepsPlaces self.old.table.pipes self.new.table.pipes) }
        ensures ready { IfOk result (λ lookup. CanDeliver load lookup self.new) }
        ensures plain { load ≡ Plain → IsOk result }
    {
        match load {
            Load::Plain => Ok(Lookup::Searched),
            Load::Ack { .. } => Ok(Lookup::Searched),
            Load::Seg { flow, first } => self.segment_ready(shelf, owner, now, flow, first),
        }
    }

    // Reserves the memory for delivering a segment.
    #[tactic(auto, using(crate::proofs::RouteFacts::known_kept))]
    #[inline(always)]
    fn segment_ready<S: Shelf>(
        &mut self,
        shelf: &mut S,
        owner: Owner,
        now: u64,
        flow: FlowNumber,
        first: u64,
    ) -> Result<Lookup, AllocError>
        ensures still { IsStill self.old self.new }
        ensures rest { self.new
            ≡ record self.old {
              table = self.new.table;
              direct = self.new.direct;
              traffic = self.new.traffic;
              flow_cache = self.new.flow_cache;
            } }
        ensures pockets { AllStay (S.pocket shelf.old) (S.pocket shelf.new) }
        ensures rooms { (o : ℕ) → S.room shelf.old o ≤ S.room shelf.new o }
        ensures places { OnOk result (KeepsPlaces self.old.table.pipes self.new.table.pipes) }
        ensures ready { IfOk result (λ lookup. CanDeliver (Seg flow first) lookup self.new) }
    {
        self.traffic.take_ready(flow, first)?;
        let Some((place, send)) = self.traffic.reply(flow) else {
            return Ok(Lookup::Searched);
        };
        self.make_ready(shelf, owner, now, reply_line_of(place), &send)
    }

    // Delivers a packet.
    #[inline(always)]
    pub(crate) fn deliver<S: Shelf>(
        &mut self,
        shelf: &mut S,
        owner: Owner,
        spec: &Spec,
        now: u64,
        packet: &Packet,
        lookup: &Lookup,
    )
        requires stands { Stands (setting spec.now now) (S.pocket shelf.old owner) self.old }
        requires made { self.old.made < 2 ^ 63 }
        requires room { 0 < S.room shelf.old owner }
        requires log { 4 < self.old.log.spare }
        requires ready { CanDeliver packet.now.load lookup.now self.old }
        ensures becomes { let at = setting spec.now now in Becomes 1
            (deliver at packet.now (net_of (S.pocket shelf.old owner) self.old))
            (S.pocket shelf.old owner) (S.pocket shelf.new owner) self.old self.new }
        ensures takes { TakesRoom 5 owner (S.pocket shelf.old) (S.pocket shelf.new)
            self.old self.new }
    {
        self.note(&Record::PacketDelivered {
            moment: now,
            packet: packet.number,
            load: packet.load,
        });
        self.take_load(shelf, owner, spec, now, packet.load, lookup);
    }

    // Passes a delivered load to its flow, if it has one.
    #[inline(always)]
    fn take_load<S: Shelf>(
        &mut self,
        shelf: &mut S,
        owner: Owner,
        spec: &Spec,
        now: u64,
        load: Load,
        lookup: &Lookup,
    )
        requires stands { Stands (setting spec.now now) (S.pocket shelf.old owner) self.old }
        requires made { self.old.made < 2 ^ 63 }
        requires room { 0 < S.room shelf.old owner }
        requires log { 3 < self.old.log.spare }
        requires ready { CanDeliver load lookup.now self.old }
        ensures becomes { let at = setting spec.now now in
            Becomes 1 (take_load at load (net_of (S.pocket shelf.old owner) self.old))
            (S.pocket shelf.old owner) (S.pocket shelf.new owner) self.old self.new }
        ensures takes { TakesRoom 4 owner (S.pocket shelf.old) (S.pocket shelf.new)
            self.old self.new }
    {
        match load {
            Load::Plain => {}
            Load::Seg { flow, first } => self.take_segment(
                shelf, owner, spec, now, flow, first, lookup,
            ),
            Load::Ack { flow, upto } => self.take_ack(now, flow, upto),
        }
    }

    // Passes a segment to a flow's receiver, which acknowledges it.
    #[tactic(auto, using(crate::proofs::RouteFacts::known_kept))]
    #[inline(always)]
    fn take_segment<S: Shelf>(
        &mut self,
        shelf: &mut S,
        owner: Owner,
        spec: &Spec,
        now: u64,
        flow: FlowNumber,
        first: u64,
        lookup: &Lookup,
    )
        requires stands { Stands (setting spec.now now) (S.pocket shelf.old owner) self.old }
        requires made { self.old.made < 2 ^ 63 }
        requires room { 0 < S.room shelf.old owner }
        requires log { 3 < self.old.log.spare }
        requires ready { CanDeliver (Seg flow first) lookup.now self.old }
        ensures becomes { let at = setting spec.now now in Becomes 1
            (take_load at (Seg flow first) (net_of (S.pocket shelf.old owner) self.old))
            (S.pocket shelf.old owner) (S.pocket shelf.new owner) self.old self.new }
        ensures takes { TakesRoom 4 owner (S.pocket shelf.old) (S.pocket shelf.new)
            self.old self.new }
    {
        let answer = self.traffic.take(flow, first);
        if let Some(sending) = answer {
            self.make(shelf, owner, spec, now, &sending, lookup);
        }
    }

    // Passes an acknowledgement to a flow's sender.
    #[tactic(auto, using(crate::proofs::RouteFacts::known_kept))]
    #[inline(always)]
    fn take_ack(&mut self, now: u64, flow: FlowNumber, upto: u64)
        requires early { IsMoment now }
        requires log { 0 < self.old.log.spare }
        ensures turns { Turns (λ n. option_map_or (take_ack now upto n)
            (find_flow flow n) n) self.old self.new }
        ensures log { self.old.log.spare ≤ self.new.log.spare + 1 }
    {
        let answer = self.traffic.take_ack(now, flow, upto);
        if let Some(window) = answer {
            self.note(&Record::AckTaken {
                moment: now,
                flow,
                cwnd: window.cwnd,
                ssthresh: window.ssthresh,
            });
        }
    }
}
