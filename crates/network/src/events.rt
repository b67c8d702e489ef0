//! The events other than the next command: exits, finishes, expiries and emissions.

ghost use Rattle.std.specs.Prelude.{◌≡◌, ◌+◌, ◌*◌, ◌^◌, ◌<◌, ◌≤◌, ℕ, Some, true, false, IsOk, IfOk, OnOk, OnSome, option_and_then, map, length};
ghost use Rattle.std.specs.Option.{option_map_or};
ghost use Rattle.emu_model.specs.Moments.{IsMoment};
ghost use Rattle.emu_model.specs.declared.sources.Class.TheVariants.{Expiry};
ghost use Rattle.emu_model.specs.declared.packets.Load.TheVariants.{Plain};
ghost use Rattle.emu_model.specs.Delay.{first_item, leave};
ghost use Rattle.emu_model.specs.Net.{drop_record, find_flow, find_pipe};
ghost use Rattle.emu_model.specs.Events.{direct_exit, emission, event_of, expire_flow, flying_in, pipe_exits, pipe_finishes};
ghost use Rattle.packet_store.specs.Pocket.{OthersStay, AllStay};
ghost use Rattle.emu_model.specs.Step.{setting};
ghost use Rattle.network.specs.Kept.{net_of, IsHoused, Stands};
ghost use Rattle.network.specs.Changes.{Becomes, IsStill, Notes, NotesIn, Turns};
ghost use Rattle.network.specs.Frames.{Frame};
ghost use Rattle.network.specs.Ready.{CanDeliver, CanPass, start_after};
ghost use Rattle.network.specs.Due.{IsDue};
ghost use Rattle.pipe_table.specs.Table.{IsFinishing, IsLeaving};
ghost use Rattle.pipe_table.specs.Places.{StandsAt, KeepsPlaces};
ghost use Rattle.sources.specs.Sends.{IsEmitting};

use crate::flow_cache::{Lookup, Route, line_of};
use crate::state::Network;
use emu_model::{Class, DropCause, Due, FlowNumber, Packet, PipeNumber, Record, Spec};
use packet_store::{Owner, Shelf};
use pipe_core::laws;
use pipe_table::RecordLog;
use sources::Sending;
use std::alloc::AllocError;
use unchecked::unreachable_unchecked;

/// The maximum number of records of an event, apart from one for each thing that is listed or
/// dropped with others, and from the one for the last step.
pub(crate) const MAX_RECORDS: usize = 6;

// Records that packets were dropped, in order.
pub(crate) fn note_drops(log: &mut RecordLog, now: u64, packets: &[Packet], cause: DropCause)
    requires { length packets.now ≤ log.old.spare }
    ensures { NotesIn (map (drop_record now)
        (map (λ p. record { packet = p; cause = cause }) packets.now)) log.old log.new }
{
    for packet in packets {
        log.note(&Record::PacketDropped {
            moment: now,
            packet: packet.number,
            load: packet.load,
            cause,
        });
    }
}

impl Network {
    /// Executes the event of a due, which must be due now, as `earliest` returned it. Allocates
    /// before it changes anything: if allocation fails, only spare capacity changes. Afterwards
    /// there is room for one more record.
    #[inline(always)]
    pub fn event<S: Shelf>(
        &mut self,
        shelf: &mut S,
        owner: Owner,
        spec: &Spec,
        due: Due,
    ) -> Result<(), AllocError>
        requires stands { Stands (setting spec.now due.moment) (S.pocket shelf.old owner) self.old }
        requires made { self.old.made < 2 ^ 63 }
        requires due { IsDue due self.old }
        ensures ok { let at = setting spec.now due.moment in OnOk result
            (Becomes 1
            (event_of at due.source.class due.source.number
            (net_of (S.pocket shelf.old owner) self.old))
            (S.pocket shelf.old owner) (S.pocket shelf.new owner) self.old self.new) }
        ensures succeeds { due.source.class ≡ Expiry → 6 ≤ self.old.log.spare → IsOk result }
        ensures frame { Frame result owner (S.pocket shelf.old) (S.pocket shelf.new)
            self.old self.new }
    {
        self.reserve(MAX_RECORDS)?;
        let now = due.moment;
        let source = due.source;
        match source.class {
            Class::NextCommand => Ok(()),
            Class::Exit => {
                let Some(pipe) = source.pipe() else {
                    return self.direct_exit(shelf, owner, spec, now);
                };
                self.pipe_exit(shelf, owner, spec, now, pipe, source.instance())
            }
            Class::Finish => {
                let Some(pipe) = source.pipe() else {
                    unreachable_unchecked!();
                };
                self.pipe_finish(shelf, owner, spec, now, pipe, source.instance())
            }
            Class::Expiry => {
                let Some(flow) = source.flow() else {
                    unreachable_unchecked!();
                };
                self.expire(spec, now, flow);
                Ok(())
            }
            Class::Emission => {
                let Some(number) = source.flow() else {
                    unreachable_unchecked!();
                };
                self.emission(shelf, owner, spec, now, number)
            }
        }
    }

    // Returns the next packet to leave the link of `allow`.
    fn direct_front<S: Shelf>(&self, shelf: &S, owner: Owner) -> Option<Packet>
        requires { IsHoused (S.pocket shelf.now owner) self.now }
        ensures { result ≡ first_item (net_of (S.pocket shelf.now owner) self.now).direct.in_flight }
    {
        let key = self.direct.front()?;
        shelf.look(owner, key)
    }

    // Reserves the memory for an exit from the link of `allow`.
    fn direct_ready<S: Shelf>(
        &mut self,
        shelf: &mut S,
        owner: Owner,
        now: u64,
    ) -> Result<Lookup, AllocError>
        requires { IsHoused (S.pocket shelf.old owner) self.old }
        ensures still { IsStill self.old self.new }
        ensures rest { self.new
            ≡ record self.old {
              table = self.new.table;
              direct = self.new.direct;
              traffic = self.new.traffic;
              flow_cache = self.new.flow_cache;
            } }
        ensures pockets { AllStay (S.pocket shelf.old) (S.pocket shelf.new) }
        ensures ready { IfOk result
            (λ lookup. (p : Packet) →
            first_item (net_of (S.pocket shelf.old owner) self.old).direct.in_flight ≡ Some p →
            CanDeliver p.load lookup self.new) }
    {
        let Some(packet) = self.direct_front(shelf, owner) else {
            return Ok(Lookup::Searched);
        };
        self.deliver_ready(shelf, owner, now, packet.load)
    }

    // Removes the first packet in flight from the link of `allow`, and returns it.
    fn leave_direct<S: Shelf>(&mut self, shelf: &mut S, owner: Owner) -> Option<Packet>
        requires { IsHoused (S.pocket shelf.old owner) self.old }
        ensures packet { result ≡ first_item
            (net_of (S.pocket shelf.old owner) self.old).direct.in_flight }
        ensures becomes { let n = net_of (S.pocket shelf.old owner) self.old in
            Becomes 0 (record n { direct = leave n.direct })
            (S.pocket shelf.old owner) (S.pocket shelf.new owner) self.old self.new }
        ensures rest { self.new ≡ record self.old { direct = self.new.direct } }
        ensures spare { self.old.direct.spare ≤ self.new.direct.spare }
        ensures freed { OnSome result (0 < S.room shelf.new owner) }
        ensures others { OthersStay owner (S.pocket shelf.old) (S.pocket shelf.new) }
    {
        laws::keys_say_all();
        let key = self.direct.leave()?;
        let Some(packet) = shelf.take(owner, key) else {
            unreachable_unchecked!();
        };
        Some(packet)
    }

    // Removes the first packet in flight from the link of `allow`, and delivers it.
    #[inline(never)]
    fn direct_exit<S: Shelf>(
        &mut self,
        shelf: &mut S,
        owner: Owner,
        spec: &Spec,
        now: u64,
    ) -> Result<(), AllocError>
        requires stands { Stands (setting spec.now now) (S.pocket shelf.old owner) self.old }
        requires made { self.old.made < 2 ^ 63 }
        requires log { 5 < self.old.log.spare }
        ensures ok { let at = setting spec.now now in OnOk result
            (Becomes 1 (direct_exit at (net_of (S.pocket shelf.old owner) self.old))
            (S.pocket shelf.old owner) (S.pocket shelf.new owner) self.old self.new) }
        ensures frame { Frame result owner (S.pocket shelf.old) (S.pocket shelf.new)
            self.old self.new }
    {
        let lookup = self.direct_ready(shelf, owner, now)?;
        let Some(packet) = self.leave_direct(shelf, owner) else {
            return Ok(());
        };
        self.deliver(shelf, owner, spec, now, &packet, &lookup);
        Ok(())
    }

    // Removes the first packet in flight from an instance of a pipe, and delivers it or returns it
    // to the rules.
    #[inline(always)]
    fn pipe_exit<S: Shelf>(
        &mut self,
        shelf: &mut S,
        owner: Owner,
        spec: &Spec,
        now: u64,
        pipe: PipeNumber,
        instance: u8,
    ) -> Result<(), AllocError>
        requires stands { Stands (setting spec.now now) (S.pocket shelf.old owner) self.old }
        requires made { self.old.made < 2 ^ 63 }
        requires log { 5 < self.old.log.spare }
        requires due { IsLeaving pipe instance now self.old.table.pipes }
        ensures ok { let at = setting spec.now now in
            let n = net_of (S.pocket shelf.old owner) self.old in
            OnOk result
            (Becomes 1 (option_map_or (pipe_exits at pipe instance n) (find_pipe pipe n) n)
            (S.pocket shelf.old owner) (S.pocket shelf.new owner) self.old self.new) }
        ensures plain { self.old.one_pass ≡ true → ((p : Packet) →
            option_and_then (flying_in instance)
            (find_pipe pipe (net_of (S.pocket shelf.old owner) self.old)) ≡ Some p →
            p.load ≡ Plain) → IsOk result }
        ensures frame { Frame result owner (S.pocket shelf.old) (S.pocket shelf.new)
            self.old self.new }
    {
        let Some(place) = self.table.place_of(pipe) else {
            unreachable_unchecked!();
        };
        if self.one_pass {
            return self.deliver_front(shelf, owner, spec, now, pipe, place, instance);
        }
        self.pass_front(shelf, owner, spec, now, pipe, place, instance)
    }

    // Removes a packet like `pipe_exit`, given the pipe's place, and delivers it.
    #[tactic(auto, using(crate::proofs::RouteFacts::known_grown))]
    #[inline(always)]
    fn deliver_front<S: Shelf>(
        &mut self,
        shelf: &mut S,
        owner: Owner,
        spec: &Spec,
        now: u64,
        pipe: PipeNumber,
        place: usize,
        instance: u8,
    ) -> Result<(), AllocError>
        requires stands { Stands (setting spec.now now) (S.pocket shelf.old owner) self.old }
        requires made { self.old.made < 2 ^ 63 }
        requires log { 5 < self.old.log.spare }
        requires place { StandsAt pipe place self.old.table.pipes }
        requires due { IsLeaving pipe instance now self.old.table.pipes }
        requires one_pass { self.old.one_pass ≡ true }
        ensures ok { let at = setting spec.now now in
            let n = net_of (S.pocket shelf.old owner) self.old in
            OnOk result
            (Becomes 1 (option_map_or (pipe_exits at pipe instance n) (find_pipe pipe n) n)
            (S.pocket shelf.old owner) (S.pocket shelf.new owner) self.old self.new) }
        ensures plain { ((p : Packet) →
            option_and_then (flying_in instance)
            (find_pipe pipe (net_of (S.pocket shelf.old owner) self.old)) ≡ Some p →
            p.load ≡ Plain) → IsOk result }
        ensures frame { Frame result owner (S.pocket shelf.old) (S.pocket shelf.new)
            self.old self.new }
    {
        let index = usize::from(instance);
        let Some(packet) = self.table.front(place, index, shelf, owner) else {
            unreachable_unchecked!();
        };
        let lookup = self.deliver_ready(shelf, owner, now, packet.load)?;
        let _gone = self.table.exit(place, index, shelf, owner);
        self.deliver(shelf, owner, spec, now, &packet, &lookup);
        Ok(())
    }

    // Reserves the memory for a packet that continues in the rules, and returns its route if it has
    // one.
    fn pass_ready<S: Shelf>(
        &mut self,
        shelf: &mut S,
        owner: Owner,
        now: u64,
        packet: &Packet,
    ) -> Result<Option<Route>, AllocError>
        ensures still { IsStill self.old self.new }
        ensures rest { self.new
            ≡ record self.old { table = self.new.table; direct = self.new.direct } }
        ensures pockets { AllStay (S.pocket shelf.old) (S.pocket shelf.new) }
        ensures rooms { (o : ℕ) → S.room shelf.old o ≤ S.room shelf.new o }
        ensures places { OnOk result (KeepsPlaces self.old.table.pipes self.new.table.pipes) }
        ensures pass { IfOk result (λ known.
            CanPass (start_after packet.now self.new) packet.now known self.new) }
    {
        let found = self.book.classify_rule_after(packet.place, packet);
        self.arrival_ready(shelf, owner, now, found, packet)
    }

    // Removes a packet like `pipe_exit`, given the pipe's place, and returns it to the rules.
    #[tactic(auto, using(crate::proofs::RouteFacts::known_grown))]
    #[inline(never)]
    fn pass_front<S: Shelf>(
        &mut self,
        shelf: &mut S,
        owner: Owner,
        spec: &Spec,
        now: u64,
        pipe: PipeNumber,
        place: usize,
        instance: u8,
    ) -> Result<(), AllocError>
        requires stands { Stands (setting spec.now now) (S.pocket shelf.old owner) self.old }
        requires made { self.old.made < 2 ^ 63 }
        requires log { 5 < self.old.log.spare }
        requires place { StandsAt pipe place self.old.table.pipes }
        requires due { IsLeaving pipe instance now self.old.table.pipes }
        requires one_pass { self.old.one_pass ≡ false }
        ensures ok { let at = setting spec.now now in
            let n = net_of (S.pocket shelf.old owner) self.old in
            OnOk result
            (Becomes 1 (option_map_or (pipe_exits at pipe instance n) (find_pipe pipe n) n)
            (S.pocket shelf.old owner) (S.pocket shelf.new owner) self.old self.new) }
        ensures frame { Frame result owner (S.pocket shelf.old) (S.pocket shelf.new)
            self.old self.new }
    {
        let index = usize::from(instance);
        let Some(packet) = self.table.front(place, index, shelf, owner) else {
            unreachable_unchecked!();
        };
        let known = self.pass_ready(shelf, owner, now, &packet)?;
        let _gone = self.table.exit(place, index, shelf, owner);
        self.note(&Record::PacketPassed {
            moment: now,
            packet: packet.number,
            pipe,
            instance,
        });
        self.reinject(shelf, owner, spec, now, &packet, &known);
        Ok(())
    }

    // Finishes the packet in service in an instance of a pipe.
    #[tactic(auto, using(crate::proofs::RouteFacts::known_grown))]
    #[inline(always)]
    fn pipe_finish<S: Shelf>(
        &mut self,
        shelf: &mut S,
        owner: Owner,
        spec: &Spec,
        now: u64,
        pipe: PipeNumber,
        instance: u8,
    ) -> Result<(), AllocError>
        requires stands { Stands (setting spec.now now) (S.pocket shelf.old owner) self.old }
        requires log { 2 < self.old.log.spare }
        requires due { IsFinishing pipe instance now self.old.table.pipes }
        ensures ok { let at = setting spec.now now in
            let n = net_of (S.pocket shelf.old owner) self.old in
            OnOk result
            (Becomes 0 (option_map_or (pipe_finishes at pipe instance n) (find_pipe pipe n) n)
            (S.pocket shelf.old owner) (S.pocket shelf.new owner) self.old self.new) }
        ensures frame { Frame result owner (S.pocket shelf.old) (S.pocket shelf.new)
            self.old self.new }
    {
        let Some(place) = self.table.place_of(pipe) else {
            unreachable_unchecked!();
        };
        let index = usize::from(instance);
        if !self.table.drops_none(place, index, now) {
            return self.finish_dropping(shelf, owner, spec, now, pipe, place, instance);
        }
        let drops = &mut self.drops;
        let packet = self
            .table
            .finish(place, index, shelf, owner, now, true, drops)?;
        self.note(&Record::PacketFinished {
            moment: now,
            packet: packet.number,
            pipe,
            instance,
        });
        Ok(())
    }

    // Finishes a packet like `pipe_finish`, if CoDel may drop others.
    #[tactic(auto, using(crate::proofs::RouteFacts::known_grown))]
    #[inline(never)]
    fn finish_dropping<S: Shelf>(
        &mut self,
        shelf: &mut S,
        owner: Owner,
        spec: &Spec,
        now: u64,
        pipe: PipeNumber,
        place: usize,
        instance: u8,
    ) -> Result<(), AllocError>
        requires stands { Stands (setting spec.now now) (S.pocket shelf.old owner) self.old }
        requires place { StandsAt pipe place self.old.table.pipes }
        requires due { IsFinishing pipe instance now self.old.table.pipes }
        ensures ok { let at = setting spec.now now in
            let n = net_of (S.pocket shelf.old owner) self.old in
            OnOk result
            (Becomes 0 (option_map_or (pipe_finishes at pipe instance n) (find_pipe pipe n) n)
            (S.pocket shelf.old owner) (S.pocket shelf.new owner) self.old self.new) }
        ensures frame { Frame result owner (S.pocket shelf.old) (S.pocket shelf.new)
            self.old self.new }
    {
        self.reserve_besides(shelf.count(owner))?;
        let index = usize::from(instance);
        let drops = &mut self.drops;
        let packet = self
            .table
            .finish(place, index, shelf, owner, now, false, drops)?;
        self.log.note(&Record::PacketFinished {
            moment: now,
            packet: packet.number,
            pipe,
            instance,
        });
        note_drops(&mut self.log, now, &self.drops, DropCause::Codel);
        Ok(())
    }

    // Records that packets were dropped, in order.
    pub(crate) fn drop_all(&mut self, now: u64, packets: &[Packet], cause: DropCause)
        requires { length packets.now ≤ self.old.log.spare }
        ensures { Notes (map (drop_record now)
            (map (λ p. record { packet = p; cause = cause }) packets.now)) self.old self.new }
    {
        note_drops(&mut self.log, now, packets, cause);
    }

    // Handles the expiry of a flow's timer.
    #[tactic(auto, using(crate::proofs::RouteFacts::known_kept))]
    #[inline(never)]
    fn expire(&mut self, spec: &Spec, now: u64, flow: FlowNumber)
        requires early { IsMoment now }
        requires log { 0 < self.old.log.spare }
        ensures turns { let at = setting spec.now now in
            Turns (λ n. option_map_or (expire_flow at n)
            (find_flow flow n) n) self.old self.new }
        ensures log { self.old.log.spare ≤ self.new.log.spare + 1 }
    {
        let answer = self.traffic.expire(now, flow);
        if let Some(window) = answer {
            self.note(&Record::TimerExpired {
                moment: now,
                flow,
                cwnd: window.cwnd,
                ssthresh: window.ssthresh,
            });
        }
    }

    // Sends a packet of a source.
    #[tactic(auto, using(crate::proofs::RouteFacts::known_kept))]
    #[inline(always)]
    fn emission<S: Shelf>(
        &mut self,
        shelf: &mut S,
        owner: Owner,
        spec: &Spec,
        now: u64,
        source: FlowNumber,
    ) -> Result<(), AllocError>
        requires stands { Stands (setting spec.now now) (S.pocket shelf.old owner) self.old }
        requires made { self.old.made < 2 ^ 63 }
        requires log { 5 < self.old.log.spare }
        requires may { IsEmitting source self.old.traffic }
        ensures ok { let at = setting spec.now now in OnOk result
            (Becomes 1 (emission at source (net_of (S.pocket shelf.old owner) self.old))
            (S.pocket shelf.old owner) (S.pocket shelf.new owner) self.old self.new) }
        ensures frame { Frame result owner (S.pocket shelf.old) (S.pocket shelf.new)
            self.old self.new }
    {
        shelf.put_ready(owner)?;
        let Some(found) = self.traffic.find(source) else {
            return Ok(());
        };
        let send = self.traffic.header_at(&found);
        let lookup = self.make_ready(shelf, owner, now, line_of(&found), &send)?;
        let origin = self.traffic.emit_at(now, &found);
        self.make(shelf, owner, spec, now, &Sending { origin, send }, &lookup);
        Ok(())
    }
}
