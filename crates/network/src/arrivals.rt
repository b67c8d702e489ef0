//! The creation of packets, their way through the rules, and their arrival at a pipe or at the link
//! of `allow`.

ghost use Rattle.std.specs.Prelude.{◌≡◌, ℕ, ◌+◌, ◌*◌, ◌^◌, ◌<◌, ◌≤◌, ◌∷◌, ◌++◌, [], if◌then◌else◌, None, Some, IfSome, IfOk, OnOk};
ghost use Rattle.std.specs.Option.{option_map_or};
ghost use Rattle.emu_model.specs.Moments.{IsMoment};
ghost use Rattle.packet_store.specs.Pocket.{Pocket, OthersStay, AllStay};
ghost use Rattle.emu_model.specs.Net.{arrivals, by_verdict, drop_record, enter_pipe, find_pipe, load_by, reinject, make, make_record, packet_of, pass_rules, pass_rules_from, to_direct, to_pipe};
ghost use Rattle.emu_model.specs.Step.{setting};
ghost use Rattle.sources.specs.Standing.{heads_of};
ghost use Rattle.network.specs.FlowCache.{header_on};
ghost use Rattle.network.specs.Kept.{net_of, IsHoused, Stands};
ghost use Rattle.network.specs.Changes.{Becomes, IsStill, Notes};
ghost use Rattle.network.specs.Frames.{TakesRoom};
ghost use Rattle.network.specs.Ready.{IsMatch, IsReady, CanGo, CanPass, start_after, CanMake};
ghost use Rattle.pipe_table.specs.Table.{HasRoomIn};
ghost use Rattle.pipe_table.specs.Places.{IsRouted, KeepsPlaces};
ghost use Rattle.emu_model.specs.declared.rules.Verdict.TheVariants.{IntoPipe};

use crate::flow_cache::{Lookup, Route};
use crate::state::Network;
use emu_model::{
    Delay, DropCause, Origin, Packet, PipeNumber, Place, Record, RuleNumber, SendSpec, Spec,
    Verdict,
};
use emu_rules::{Match, NO_RULE};
use packet_store::{Owner, Shelf};
use pipe_core::{NO_INSTANCE, laws};
use sources::Sending;
use std::alloc::AllocError;
use unchecked::unreachable_unchecked;

// Returns a packet with this header.
#[inline(always)]
fn packet_of(origin: Origin, send: &SendSpec, number: u64) -> Packet
    ensures { result ≡ packet_of (load_by origin) send.now number }
{
    Packet {
        proto: send.proto,
        src: send.src,
        sport: send.sport,
        dst: send.dst,
        dport: send.dport,
        size: send.size,
        number,
        load: origin.load(),
        place: Place {
            number: RuleNumber::new(0).unwrap(),
            order: 0,
        },
    }
}

// Returns the delay of the link of `allow`.
fn no_delay() -> Delay
    ensures { result ≡ 0 }
{
    Delay::new(0).unwrap()
}

impl Network {
    // Reserves the memory for sending on a packet as it was classified, and returns its route if it
    // has one.
    #[inline(always)]
    pub(crate) fn arrival_ready<S: Shelf>(
        &mut self,
        shelf: &mut S,
        owner: Owner,
        now: u64,
        found: Match,
        packet: &Packet,
    ) -> Result<Option<Route>, AllocError>
        ensures still { IsStill self.old self.new }
        ensures rest { self.new
            ≡ record self.old { table = self.new.table; direct = self.new.direct } }
        ensures pockets { AllStay (S.pocket shelf.old) (S.pocket shelf.new) }
        ensures rooms { (o : ℕ) → S.room shelf.old o ≤ S.room shelf.new o }
        ensures places { OnOk result (KeepsPlaces self.old.table.pipes self.new.table.pipes) }
        ensures ready { OnOk result (IsReady found.verdict packet.now self.new) }
        ensures known { IfOk result (λ known. IfSome known (λ w. (start : ℕ) →
            IsMatch start packet.now found self.old.book.rules →
            CanGo start packet.now w self.new)) }
    {
        let verdict = found.verdict;
        match verdict {
            Verdict::OverTheLink => {
                self.direct.enter_ready(now, no_delay())?;
                Ok(None)
            }
            Verdict::Dropped => Ok(None),
            Verdict::IntoPipe(number, place) => {
                self.pipe_ready(shelf, owner, now, found.rule, number, place, packet)
            }
        }
    }

    // Reserves memory like `arrival_ready`, for a packet that a rule sends to a pipe.
    #[tactic(auto, using(crate::proofs::RouteFacts::known_grown))]
    #[inline(always)]
    fn pipe_ready<S: Shelf>(
        &mut self,
        shelf: &mut S,
        owner: Owner,
        now: u64,
        rule: usize,
        number: PipeNumber,
        place: Place,
        packet: &Packet,
    ) -> Result<Option<Route>, AllocError>
        ensures still { IsStill self.old self.new }
        ensures rest { self.new ≡ record self.old { table = self.new.table } }
        ensures pockets { AllStay (S.pocket shelf.old) (S.pocket shelf.new) }
        ensures rooms { (o : ℕ) → S.room shelf.old o ≤ S.room shelf.new o }
        ensures places { OnOk result (KeepsPlaces self.old.table.pipes self.new.table.pipes) }
        ensures ready { OnOk result (HasRoomIn number packet.now self.new.table.pipes) }
        ensures known { IfOk result (λ known. IfSome known (λ w. (start : ℕ) →
            IsMatch start packet.now (record { verdict = IntoPipe number place; rule = rule })
            self.old.book.rules → CanGo start packet.now w self.new)) }
    {
        let Some(pipe) = self.table.place_of(number) else {
            return Ok(None);
        };
        let instance = self.table.route_ready(shelf, owner, now, pipe, packet)?;
        if rule == NO_RULE || instance == NO_INSTANCE {
            return Ok(None);
        }
        Ok(Some(Route {
            rule,
            place,
            number,
            pipe,
            instance,
        }))
    }

    // Reserves the memory for creating a packet with this header, whose route may be cached on the
    // line of the header's source.
    #[tactic(auto, using(crate::proofs::RouteFacts::known_grown))]
    #[inline(always)]
    pub(crate) fn make_ready<S: Shelf>(
        &mut self,
        shelf: &mut S,
        owner: Owner,
        now: u64,
        line: usize,
        send: &SendSpec,
    ) -> Result<Lookup, AllocError>
        requires line { line < 768 }
        requires header { header_on line (heads_of self.old.traffic) ≡ Some send.now }
        ensures still { IsStill self.old self.new }
        ensures rest { self.new
            ≡ record self.old {
              table = self.new.table;
              direct = self.new.direct;
              flow_cache = self.new.flow_cache;
            } }
        ensures pockets { AllStay (S.pocket shelf.old) (S.pocket shelf.new) }
        ensures rooms { (o : ℕ) → S.room shelf.old o ≤ S.room shelf.new o }
        ensures places { OnOk result (KeepsPlaces self.old.table.pipes self.new.table.pipes) }
        ensures ready { IfOk result (λ lookup. CanMake send.now lookup self.new) }
    {
        let Some(held) = self.flow_cache.at(line) else {
            return self.make_searched(shelf, owner, now, line, *send);
        };
        self.table
            .accept_ready_at(held.route.pipe, held.route.instance, send.size, now)?;
        Ok(Lookup::Cached(line))
    }

    // Reserves memory like `make_ready`, for a packet whose route is not cached.
    #[tactic(auto, using(crate::proofs::RouteFacts::known_grown))]
    #[inline(never)]
    fn make_searched<S: Shelf>(
        &mut self,
        shelf: &mut S,
        owner: Owner,
        now: u64,
        line: usize,
        send: SendSpec,
    ) -> Result<Lookup, AllocError>
        requires line { line < 768 }
        requires header { header_on line (heads_of self.old.traffic) ≡ Some send }
        ensures still { IsStill self.old self.new }
        ensures rest { self.new
            ≡ record self.old {
              table = self.new.table;
              direct = self.new.direct;
              flow_cache = self.new.flow_cache;
            } }
        ensures pockets { AllStay (S.pocket shelf.old) (S.pocket shelf.new) }
        ensures rooms { (o : ℕ) → S.room shelf.old o ≤ S.room shelf.new o }
        ensures places { OnOk result (KeepsPlaces self.old.table.pipes self.new.table.pipes) }
        ensures ready { IfOk result (λ lookup. CanMake send lookup self.new) }
    {
        let packet = packet_of(Origin::ByCommand(0), &send, 0);
        let found = self.book.classify_rule(&packet);
        let known = self.arrival_ready(shelf, owner, now, found, &packet)?;
        let Some(route) = known else {
            return Ok(Lookup::Searched);
        };
        if self.flow_cache.insert(line, &send, &route) {
            return Ok(Lookup::Cached(line));
        }
        Ok(Lookup::Searched)
    }

    // Reserves memory like `make_ready`, for a packet whose route will not be cached.
    pub(crate) fn inject_ready<S: Shelf>(
        &mut self,
        shelf: &mut S,
        owner: Owner,
        now: u64,
        send: &SendSpec,
    ) -> Result<(), AllocError>
        ensures still { IsStill self.old self.new }
        ensures rest { self.new
            ≡ record self.old { table = self.new.table; direct = self.new.direct } }
        ensures pockets { AllStay (S.pocket shelf.old) (S.pocket shelf.new) }
        ensures rooms { (o : ℕ) → S.room shelf.old o ≤ S.room shelf.new o }
        ensures ready { OnOk result (CanMake send.now Lookup.Searched self.new) }
    {
        let packet = packet_of(Origin::ByCommand(0), send, 0);
        let found = self.book.classify_rule(&packet);
        self.arrival_ready(shelf, owner, now, found, &packet)?;
        Ok(())
    }

    // Records that a packet was dropped.
    #[inline(always)]
    pub(crate) fn drop_packet(&mut self, now: u64, packet: &Packet, cause: DropCause)
        requires { 0 < self.old.log.spare }
        ensures { Notes (drop_record now
            (record { packet = packet.now; cause = cause }) ∷ []) self.old self.new }
    {
        self.note(&Record::PacketDropped {
            moment: now,
            packet: packet.number,
            load: packet.load,
            cause,
        });
    }

    // Records that a packet is created, if packets are traced.
    #[inline(always)]
    fn note_made(&mut self, now: u64, origin: Origin, packet: &Packet)
        requires { 0 < self.old.log.spare }
        ensures { Notes (if self.old.trace then make_record now origin packet.now ∷ []
            else []) self.old self.new }
    {
        if !self.trace {
            return;
        }
        self.note(&Record::PacketMade {
            moment: now,
            packet: packet.number,
            origin,
            proto: packet.proto,
            src: packet.src,
            sport: packet.sport,
            dst: packet.dst,
            dport: packet.dport,
            size: packet.size,
        });
    }

    // Records that a packet arrives at a pipe, if packets are traced.
    #[inline(always)]
    fn note_arrival(&mut self, now: u64, number: PipeNumber, packet: &Packet)
        requires { 1 < self.old.log.spare }
        ensures rest { self.new ≡ record self.old { log = self.new.log } }
        ensures records { (p : Pocket) → self.new.log.records ≡ self.old.log.records
            ++ (if self.old.trace
            then option_map_or (arrivals now packet.now) (find_pipe number (net_of p self.old)) []
            else []) }
        ensures room { self.old.log.spare ≤ self.new.log.spare + 2 }
    {
        if !self.trace {
            return;
        }
        self.table.note_arrival(&mut self.log, now, number, *packet);
    }

    // Records that a packet arrives at the instance of its route, if packets are traced.
    #[inline(always)]
    fn note_arrival_by_route(&mut self, now: u64, route: &Route, packet: &Packet)
        requires room { 0 < self.old.log.spare }
        requires route { IsRouted route.now.number packet.now route.now.pipe route.now.instance
            self.old.table.pipes }
        ensures rest { self.new ≡ record self.old { log = self.new.log } }
        ensures records { (p : Pocket) → self.new.log.records ≡ self.old.log.records
            ++ (if self.old.trace
            then option_map_or (arrivals now packet.now)
            (find_pipe route.now.number (net_of p self.old)) []
            else []) }
        ensures room { self.old.log.spare ≤ self.new.log.spare + 2 }
    {
        if !self.trace {
            return;
        }
        self.table
            .note_arrival_at(&mut self.log, now, route.pipe, route.instance, packet);
    }

    // Adds a packet to the link of `allow`.
    #[inline(always)]
    fn to_direct<S: Shelf>(&mut self, shelf: &mut S, owner: Owner, now: u64, packet: &Packet)
        requires early { IsMoment now }
        requires housed { IsHoused (S.pocket shelf.old owner) self.old }
        requires budget { (S.pocket shelf.old owner).count < (S.pocket shelf.old owner).budget }
        requires room { 0 < S.room shelf.old owner }
        requires ready { 0 < self.old.direct.spare }
        ensures becomes { Becomes 0
            (to_direct now packet.now (net_of (S.pocket shelf.old owner) self.old))
            (S.pocket shelf.old owner) (S.pocket shelf.new owner) self.old self.new }
        ensures log { self.new.log ≡ self.old.log }
        ensures others { OthersStay owner (S.pocket shelf.old) (S.pocket shelf.new) }
    {
        laws::keys_say_all();
        let Ok(key) = shelf.put(owner, *packet) else {
            unreachable_unchecked!();
        };
        let Ok(()) = self.direct.enter(key, now, no_delay()) else {
            unreachable_unchecked!();
        };
    }

    // Adds a packet to a pipe, or drops it.
    #[tactic(auto, using(crate::proofs::RouteFacts::known_grown))]
    #[inline(always)]
    fn enter_pipe<S: Shelf>(
        &mut self,
        shelf: &mut S,
        owner: Owner,
        spec: &Spec,
        now: u64,
        number: PipeNumber,
        packet: &Packet,
    )
        requires stands { Stands (setting spec.now now) (S.pocket shelf.old owner) self.old }
        requires budget { (S.pocket shelf.old owner).count < (S.pocket shelf.old owner).budget }
        requires room { 0 < S.room shelf.old owner }
        requires log { 0 < self.old.log.spare }
        requires ready { HasRoomIn number packet.now self.old.table.pipes }
        ensures becomes { let at = setting spec.now now in Becomes 0
            (enter_pipe at number packet.now (net_of (S.pocket shelf.old owner) self.old))
            (S.pocket shelf.old owner) (S.pocket shelf.new owner) self.old self.new }
        ensures takes { TakesRoom 1 owner (S.pocket shelf.old) (S.pocket shelf.new)
            self.old self.new }
    {
        let Some(place) = self.table.place_of(number) else {
            self.drop_packet(now, packet, DropCause::NoPipe);
            return;
        };
        let answer = self.table.arrive(place, shelf, owner, now, packet);
        if let Some(cause) = answer {
            self.drop_packet(now, packet, cause);
        }
    }

    // Records a packet's arrival at a pipe, and adds the packet to the pipe, or drops it.
    #[inline(always)]
    fn to_pipe<S: Shelf>(
        &mut self,
        shelf: &mut S,
        owner: Owner,
        spec: &Spec,
        now: u64,
        number: PipeNumber,
        packet: &Packet,
    )
        requires stands { Stands (setting spec.now now) (S.pocket shelf.old owner) self.old }
        requires budget { (S.pocket shelf.old owner).count < (S.pocket shelf.old owner).budget }
        requires room { 0 < S.room shelf.old owner }
        requires log { 2 < self.old.log.spare }
        requires ready { HasRoomIn number packet.now self.old.table.pipes }
        ensures becomes { let at = setting spec.now now in Becomes 0
            (to_pipe at number packet.now (net_of (S.pocket shelf.old owner) self.old))
            (S.pocket shelf.old owner) (S.pocket shelf.new owner) self.old self.new }
        ensures takes { TakesRoom 3 owner (S.pocket shelf.old) (S.pocket shelf.new)
            self.old self.new }
    {
        self.note_arrival(now, number, packet);
        self.enter_pipe(shelf, owner, spec, now, number, packet);
    }

    // Counts a packet at the rule of its route, and adds it to the route's pipe, or drops it.
    #[tactic(auto, using(crate::proofs::RouteFacts::known_counted, crate::proofs::RouteFacts::known_grown))]
    #[inline(always)]
    fn pass_by_route<S: Shelf>(
        &mut self,
        shelf: &mut S,
        owner: Owner,
        spec: &Spec,
        now: u64,
        route: &Route,
        packet: &Packet,
    )
        requires stands { Stands (setting spec.now now) (S.pocket shelf.old owner) self.old }
        requires budget { (S.pocket shelf.old owner).count < (S.pocket shelf.old owner).budget }
        requires room { 0 < S.room shelf.old owner }
        requires log { 2 < self.old.log.spare }
        requires ready { (start : ℕ) × CanGo start packet.now route.now self.old }
        ensures becomes { let at = setting spec.now now in
            (start : ℕ) → CanGo start packet.now route.now self.old → Becomes 0
            (pass_rules_from at start packet.now (net_of (S.pocket shelf.old owner) self.old))
            (S.pocket shelf.old owner) (S.pocket shelf.new owner) self.old self.new }
        ensures takes { TakesRoom 3 owner (S.pocket shelf.old) (S.pocket shelf.new)
            self.old self.new }
    {
        self.book.count_at(route.rule, packet);
        let sent = Packet {
            place: route.place,
            ..*packet
        };
        self.note_arrival_by_route(now, route, &sent);
        let answer = self
            .table
            .arrive_at(route.pipe, route.instance, shelf, owner, now, &sent);
        if let Some(cause) = answer {
            self.drop_packet(now, &sent, cause);
        }
    }

    // Handles a packet according to a verdict.
    #[inline(always)]
    fn hand_on<S: Shelf>(
        &mut self,
        shelf: &mut S,
        owner: Owner,
        spec: &Spec,
        now: u64,
        verdict: Verdict,
        packet: &Packet,
    )
        requires stands { Stands (setting spec.now now) (S.pocket shelf.old owner) self.old }
        requires budget { (S.pocket shelf.old owner).count < (S.pocket shelf.old owner).budget }
        requires room { 0 < S.room shelf.old owner }
        requires log { 2 < self.old.log.spare }
        requires ready { IsReady verdict packet.now self.old }
        ensures becomes { let at = setting spec.now now in Becomes 0
            (by_verdict at verdict packet.now (net_of (S.pocket shelf.old owner) self.old))
            (S.pocket shelf.old owner) (S.pocket shelf.new owner) self.old self.new }
        ensures takes { TakesRoom 3 owner (S.pocket shelf.old) (S.pocket shelf.new)
            self.old self.new }
    {
        match verdict {
            Verdict::OverTheLink => self.to_direct(shelf, owner, now, packet),
            Verdict::Dropped => self.drop_packet(now, packet, DropCause::Denied),
            Verdict::IntoPipe(number, place) => {
                let sent = Packet { place, ..*packet };
                self.to_pipe(shelf, owner, spec, now, number, &sent);
            }
        }
    }

    // Passes a packet through the rules from the first one on, with a search.
    #[tactic(auto, using(crate::proofs::RouteFacts::known_searched))]
    #[inline(never)]
    fn pass_rules<S: Shelf>(
        &mut self,
        shelf: &mut S,
        owner: Owner,
        spec: &Spec,
        now: u64,
        packet: Packet,
    )
        requires stands { Stands (setting spec.now now) (S.pocket shelf.old owner) self.old }
        requires budget { (S.pocket shelf.old owner).count < (S.pocket shelf.old owner).budget }
        requires room { 0 < S.room shelf.old owner }
        requires log { 2 < self.old.log.spare }
        requires ready { CanPass 0 packet None self.old }
        ensures becomes { let at = setting spec.now now in Becomes 0
            (pass_rules at packet (net_of (S.pocket shelf.old owner) self.old))
            (S.pocket shelf.old owner) (S.pocket shelf.new owner) self.old self.new }
        ensures takes { TakesRoom 3 owner (S.pocket shelf.old) (S.pocket shelf.new)
            self.old self.new }
    {
        let verdict = self.book.verdict(&packet);
        self.hand_on(shelf, owner, spec, now, verdict, &packet);
    }

    // Passes a packet that left a pipe through the rules after the one that sent it there.
    pub(crate) fn reinject<S: Shelf>(
        &mut self,
        shelf: &mut S,
        owner: Owner,
        spec: &Spec,
        now: u64,
        packet: &Packet,
        known: &Option<Route>,
    )
        requires stands { Stands (setting spec.now now) (S.pocket shelf.old owner) self.old }
        requires budget { (S.pocket shelf.old owner).count < (S.pocket shelf.old owner).budget }
        requires room { 0 < S.room shelf.old owner }
        requires log { 2 < self.old.log.spare }
        requires ready { CanPass (start_after packet.now self.old) packet.now known.now self.old }
        ensures becomes { let at = setting spec.now now in Becomes 0
            (reinject at packet.now (net_of (S.pocket shelf.old owner) self.old))
            (S.pocket shelf.old owner) (S.pocket shelf.new owner) self.old self.new }
        ensures takes { TakesRoom 3 owner (S.pocket shelf.old) (S.pocket shelf.new)
            self.old self.new }
    {
        match known {
            Some(route) => self.pass_by_route(shelf, owner, spec, now, route, packet),
            None => self.search_after(shelf, owner, spec, now, *packet),
        }
    }

    // Passes a packet through the rules like `reinject`, with a search.
    #[tactic(auto, using(crate::proofs::RouteFacts::known_searched))]
    #[inline(never)]
    fn search_after<S: Shelf>(
        &mut self,
        shelf: &mut S,
        owner: Owner,
        spec: &Spec,
        now: u64,
        packet: Packet,
    )
        requires stands { Stands (setting spec.now now) (S.pocket shelf.old owner) self.old }
        requires budget { (S.pocket shelf.old owner).count < (S.pocket shelf.old owner).budget }
        requires room { 0 < S.room shelf.old owner }
        requires log { 2 < self.old.log.spare }
        requires ready { CanPass (start_after packet self.old) packet None self.old }
        ensures becomes { let at = setting spec.now now in Becomes 0
            (reinject at packet (net_of (S.pocket shelf.old owner) self.old))
            (S.pocket shelf.old owner) (S.pocket shelf.new owner) self.old self.new }
        ensures takes { TakesRoom 3 owner (S.pocket shelf.old) (S.pocket shelf.new)
            self.old self.new }
    {
        let verdict = self.book.verdict_after(packet.place, &packet);
        self.hand_on(shelf, owner, spec, now, verdict, &packet);
    }

    // Creates a packet with the next number, and passes it through the rules if the budget allows
    // it.
    #[inline(always)]
    pub(crate) fn make<S: Shelf>(
        &mut self,
        shelf: &mut S,
        owner: Owner,
        spec: &Spec,
        now: u64,
        sending: &Sending,
        lookup: &Lookup,
    )
        requires stands { Stands (setting spec.now now) (S.pocket shelf.old owner) self.old }
        requires made { self.old.made < 2 ^ 63 }
        requires room { (S.pocket shelf.old owner).count < (S.pocket shelf.old owner).budget →
            0 < S.room shelf.old owner }
        requires log { 3 < self.old.log.spare }
        requires ready { CanMake sending.now.send lookup.now self.old }
        ensures becomes { let at = setting spec.now now in Becomes 1
            (make at sending.now.origin sending.now.send
            (net_of (S.pocket shelf.old owner) self.old))
            (S.pocket shelf.old owner) (S.pocket shelf.new owner) self.old self.new }
        ensures takes { TakesRoom 4 owner (S.pocket shelf.old) (S.pocket shelf.new)
            self.old self.new }
    {
        laws::keys_say_all();
        let packet = packet_of(sending.origin, &sending.send, self.made);
        self.made += 1;
        self.note_made(now, sending.origin, &packet);
        if shelf.count(owner) >= spec.budget.packets.get() as usize {
            self.drop_packet(now, &packet, DropCause::Budget);
            return;
        }
        match lookup {
            Lookup::Cached(line) => {
                let Some(held) = self.flow_cache.at(*line) else {
                    unreachable_unchecked!();
                };
                let route = held.route;
                self.pass_by_route(shelf, owner, spec, now, &route, &packet);
            }
            Lookup::Searched => self.pass_rules(shelf, owner, spec, now, packet),
        }
    }
}
