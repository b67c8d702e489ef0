//! A pipe: its configuration, and its instances by flow identifier.

ghost use Rattle.std.specs.Prelude.{◌≡◌, ◌≢◌, ℕ, ◌+◌, ◌-◌, ◌*◌, ◌<◌, ◌≤◌, ◌↔◌, ◌||◌, true, false, [], map, length, position, slice_get, slice_set, Some, None, is_some, unwrap_or, option_map, option_and_then, IfSome, OnSome, IfNone, IfOk, OnOk, OnErr, IsOk, IsTrue, vec_capacity};
ghost use Rattle.std.specs.List.{list_any, All};
ghost use Rattle.emu_model.specs.declared.packets.Packet.{Packet};
ghost use Rattle.emu_model.specs.Moments.{IsMoment};
ghost use Rattle.emu_model.specs.FlowIds.{same_flow, flow_id, instance_of};
ghost use Rattle.emu_model.specs.Delay.{first_exit};
ghost use Rattle.emu_model.specs.Pipes.{instance_for, pipe_arrive, pipe_finish, pipe_exit, pipe_configure, pipe_packets, with_instance};
ghost use Rattle.emu_model.specs.Events.{flying_in, served_in};
ghost use Rattle.emu_model.specs.Commands.{mask_refusal};
ghost use Rattle.packet_store.specs.Pocket.{OthersStay, AllStay};
ghost use Rattle.pipe_core.specs.KeyedInstance.{IsTuned};
ghost use Rattle.pipe_core.specs.Masks.{IsUnder, IsZero, KeepsIds};
ghost use Rattle.pipe_core.specs.Moves.{AreNamed, Keeps};
ghost use Rattle.pipe_core.specs.Keyed.{seen_pipe, view, shown_of, ids_of, keys_of};
ghost use Rattle.pipe_core.specs.Leaves.{instance_number, slot_due, pipe_due};
ghost use Rattle.pipe_core.specs.Rehousing.{Rehouses};
ghost use Rattle.pipe_core.specs.Steps.{drops_of, drops_by_codel, IsGrown, HasRoomAt, HasRoomAtSlot, HasInstance, HasLineRoomAt, IsFreeAt, IsPlainAt, ArrivesAt, configured_slot};

use crate::rehouse::rehouse_all;
use crate::slot::Slot;
use crate::takes::take_all;
use crate::{Instance, InstanceDues, Shown};
use due_index::{DueIndex, DueNumber};
use emu_model::{DropCause, Mask, Packet, PipeConfig, PipeNumber, Refusal, Size};
use flow_mask::{ApplyMask, FlowId, InstanceError, Instances};
use packet_store::{Owner, Shelf};
use std::alloc::{AllocError, Global};
use std::marker::Model;
use std::mem;
use unchecked::unreachable_unchecked;

/// The result of a packet's arrival.
#[derive(Clone, Copy)]
pub struct Arrival {
    /// The cause of the drop, or `None` if the packet is accepted.
    pub cause: Option<DropCause>,
    /// True if the pipe's first due is certain to be unchanged: the packet is dropped, or it waits
    /// for the one in service.
    pub is_due_same: bool,
}

/// A pipe with its instances. Its packets are on a shelf, and the pipe holds their keys.
#[derive(Drop)]
pub struct Pipe {
    alloc: Global,
    seed: u64,
    number: PipeNumber,
    config: PipeConfig,
    ids: Instances,
    slots: Vec<Slot>,
    dues: DueIndex,
    // True if the mask is zero, so that all packets have one flow identifier.
    unmasked: bool,
}

impl Model for Pipe {
    ghost use Rattle.std.specs.Prelude.{◌-◌, min, vec_len, vec_capacity};
    ghost use Rattle.pipe_core.specs.Keyed.{KeyedPipe, IsPipe};
    ghost use Rattle.pipe_core.specs.Leaves.{AreLeaves};
    ghost use Rattle.pipe_core.specs.Masks.{IsMasked};

    ghost Value = { KeyedPipe };

    ghost view = { λ p. record {
      seed = p.seed;
      number = p.number;
      config = p.config;
      slots = p.slots.items;
      spare = min (min (vec_capacity p.slots - vec_len p.slots) p.ids.spare) p.dues.spare;
    } };

    ghost invariant = { λ p. IsPipe p.config p.seed p.number p.ids.ids p.slots.items
        × AreLeaves p.slots.items p.dues
        × IsMasked p.unmasked p.config.mask p.ids.ids };
}

impl Pipe {
    /// Creates a pipe without instances, for an experiment with this seed. Does not allocate.
    pub fn new(alloc: Global, seed: u64, number: PipeNumber, config: PipeConfig) -> Self
        ensures { result ≡ record {
          seed = seed;
          number = number;
          config = config;
          slots = [];
          spare = result.spare;
        } }
    {
        let ids = Instances::new(alloc);
        let slots = Vec::new(alloc);
        let dues = DueIndex::new(alloc);
        Pipe {
            alloc,
            seed,
            number,
            config,
            ids,
            slots,
            dues,
            unmasked: is_zero(&config.mask),
        }
    }

    /// Returns the configuration.
    pub fn config(&self) -> PipeConfig
        ensures { result ≡ self.now.config }
    {
        self.config
    }

    /// Returns the pipe's number.
    pub fn number(&self) -> PipeNumber
        ensures { result ≡ self.now.number }
    {
        self.number
    }

    /// Returns the number of instances, at most 256.
    #[inline(always)]
    pub fn instances(&self) -> usize
        ensures instances { result ≡ length self.now.slots }
        ensures few { result ≤ 256 }
    {
        let _ = &self.ids;
        self.slots.len()
    }

    /// Returns the times of an instance's next exit and next finish (ns).
    pub fn dues(&self, instance: usize) -> InstanceDues
        requires { instance < length self.now.slots }
        ensures exit { (f : ℕ → Packet) → result.exit
            ≡ option_and_then (λ i. first_exit i.line.in_flight)
            (slice_get (seen_pipe f self.now).instances instance) }
        ensures finish { (f : ℕ → Packet) → result.finish
            ≡ option_map (λ s. s.period.finish) (served_in instance (seen_pipe f self.now)) }
    {
        let slot = &self.slots[instance];
        slot.instance.dues()
    }

    /// Returns the first of all exits and finishes that are due, or none if nothing is due. The
    /// contract also bounds the pipe's number and the number of its instances.
    #[inline(always)]
    pub fn least(&self) -> DueNumber
        ensures due { (f : ℕ → Packet) → result ≡ pipe_due f self.now }
        ensures number { (1 ≤ self.now.number) × (self.now.number ≤ 65535) }
        ensures few { length self.now.slots ≤ 256 }
    {
        let _range = self.number.get();
        self.dues.least()
    }

    /// Returns an instance's statistics as a listing shows them, or None if there is no such
    /// instance.
    pub fn shown(&self, instance: usize) -> Option<Shown>
        ensures { (f : ℕ → Packet) →
            result ≡ option_map shown_of (slice_get (seen_pipe f self.now).instances instance) }
    {
        let slot = self.slots.get(instance)?;
        Some(slot.instance.shown())
    }

    /// Returns the number of a packet's instance, even if that instance must still be created, or
    /// None if 256 others exist.
    pub fn instance_for(&self, packet: &Packet) -> Option<u8>
        ensures { (f : ℕ → Packet) → result ≡ instance_for packet.now (seen_pipe f self.now) }
    {
        let id = self.config.mask.apply(packet);
        self.ids.number_for(id)
    }

    /// Returns a packet's flow identifier, in the form of a mask.
    pub fn identifier(&self, packet: &Packet) -> Mask
        ensures { let i = flow_id self.now.config.mask packet.now in
            result ≡ record {
              proto = i.proto;
              src = i.src;
              dst = i.dst;
              sport = i.sport;
              dport = i.dport;
            } }
    {
        self.config.mask.apply(packet).fields()
    }

    /// Reserves the memory that `arrive` of this packet needs, or of a packet that differs only in
    /// its load, number or place. Only spare capacity changes, even if an allocation fails.
    pub fn arrive_ready<S: Shelf>(
        &mut self,
        shelf: &mut S,
        owner: Owner,
        now: u64,
        packet: &Packet,
    ) -> Result<(), AllocError>
        ensures grown { IsGrown self.old self.new }
        ensures pockets { AllStay (S.pocket shelf.old) (S.pocket shelf.new) }
        ensures rooms { (o : ℕ) → S.room shelf.old o ≤ S.room shelf.new o }
        ensures room { OnOk result
            ((S.pocket shelf.old owner).count < (S.pocket shelf.old owner).budget →
            0 < S.room shelf.new owner) }
        ensures ready { OnOk result (HasRoomAt packet.now self.new) }
        ensures succeeds { 0 < S.room shelf.old owner → HasRoomAt packet.now self.old →
            IsOk result }
    {
        self.route_ready(shelf, owner, now, packet)?;
        Ok(())
    }

    /// Reserves memory like `arrive_ready`, and returns the place of the packet's instance, or
    /// `NO_INSTANCE` if it doesn't exist yet.
    #[inline(always)]
    pub fn route_ready<S: Shelf>(
        &mut self,
        shelf: &mut S,
        owner: Owner,
        now: u64,
        packet: &Packet,
    ) -> Result<usize, AllocError>
        ensures grown { IsGrown self.old self.new }
        ensures pockets { AllStay (S.pocket shelf.old) (S.pocket shelf.new) }
        ensures rooms { (o : ℕ) → S.room shelf.old o ≤ S.room shelf.new o }
        ensures room { OnOk result
            ((S.pocket shelf.old owner).count < (S.pocket shelf.old owner).budget →
            0 < S.room shelf.new owner) }
        ensures ready { OnOk result (HasRoomAt packet.now self.new) }
        ensures succeeds { 0 < S.room shelf.old owner → HasRoomAt packet.now self.old →
            IsOk result }
        ensures place { IfOk result (λ k. k ≡ unwrap_or
            (position (same_flow (flow_id self.old.config.mask packet.now))
            (ids_of self.old.slots)) NO_INSTANCE) }
        ensures known { IfOk result (λ k. k ≢ NO_INSTANCE → HasInstance k packet.now self.new) }
    {
        shelf.put_ready(owner)?;
        let Some(instance) = self.place_for(packet) else {
            let id = self.config.mask.apply(packet);
            self.make_ready(id)?;
            return Ok(NO_INSTANCE);
        };
        self.accept_ready(instance, packet.size, now)?;
        Ok(instance)
    }

    // Returns the place of a packet's instance, or None if it doesn't exist yet.
    #[inline(always)]
    fn place_for(&self, packet: &Packet) -> Option<usize>
        ensures { result ≡ position (same_flow (flow_id self.now.config.mask packet.now))
            (ids_of self.now.slots) }
    {
        if self.has_one() {
            return Some(0);
        }
        let id = self.config.mask.apply(packet);
        let instance = self.ids.find(id)?;
        Some(instance as usize)
    }

    // Returns true if all packets belong to the pipe's only instance.
    #[inline(always)]
    fn has_one(&self) -> bool
        ensures { IsTrue result → (packet : Packet) →
            position (same_flow (flow_id self.now.config.mask packet)) (ids_of self.now.slots)
            ≡ Some 0 }
    {
        self.unmasked && self.slots.len() == 1
    }

    /// Reserves the memory that an instance needs to accept a packet of this size.
    #[inline(always)]
    pub fn accept_ready(&mut self, instance: usize, size: Size, now: u64) -> Result<(), AllocError>
        requires { instance < length self.old.slots }
        ensures grown { IsGrown self.old self.new }
        ensures ids { ids_of self.new.slots ≡ ids_of self.old.slots }
        ensures ready { OnOk result (HasRoomAtSlot size instance self.new) }
        ensures succeeds { HasRoomAtSlot size instance self.old → IsOk result }
    {
        let slot = &mut self.slots[instance];
        slot.instance.accept_ready(size, now)
    }

    // Reserves the memory for another instance, for an identifier that is new.
    fn make_ready(&mut self, id: FlowId) -> Result<(), AllocError>
        ensures same { self.new ≡ record self.old { spare = self.new.spare } }
        ensures grows { self.old.spare ≤ self.new.spare }
        ensures ready { OnOk result
            (list_any (same_flow id) (ids_of self.old.slots) ≡ false →
            length self.old.slots < 256 → 0 < self.new.spare) }
        ensures succeeds { 0 < self.old.spare → IsOk result }
        ensures full { 256 ≤ length self.old.slots → IsOk result }
    {
        self.ids.find_or_make_ready(id)?;
        if 256 <= self.slots.len() {
            return Ok(());
        }
        self.slots.reserve(1)?;
        self.dues.push_ready()?;
        Ok(())
    }

    // Returns the place of the identifier's instance, and creates the instance if the identifier is
    // new. Returns None if 256 others exist. There must be room for a new instance.
    fn find_or_make(&mut self, id: FlowId) -> Option<usize>
        requires room { instance_of (ids_of self.old.slots) id ≡ Some (length self.old.slots) →
            0 < self.old.spare }
        requires its { IsUnder self.old.config.mask id }
        ensures number { result ≡ instance_of (ids_of self.old.slots) id }
        ensures made { IfSome result
            (λ k. (f : ℕ → Packet) →
            with_instance id k (seen_pipe f self.old) ≡ seen_pipe f self.new) }
        ensures there { IfSome result (λ k. k < length self.new.slots) }
        ensures ready { IfSome result
            (λ k. (size : ℕ) → HasRoomAtSlot size k self.old → HasRoomAtSlot size k self.new) }
        ensures keys { keys_of self.new.slots ≡ keys_of self.old.slots }
        ensures same { self.new
            ≡ record self.old { slots = self.new.slots; spare = self.new.spare } }
        ensures none { IfNone result (self.new.slots ≡ self.old.slots) }
        ensures ids { KeepsIds self.old.slots self.new.slots }
    {
        if let Some(instance) = self.ids.find(id) {
            return Some(instance as usize);
        }
        let instance = match self.ids.find_or_make(id) {
            Ok(instance) => instance,
            Err(InstanceError::TooMany) => return None,
            Err(InstanceError::NoMemory) => unreachable!(),
        };
        let made = Instance::new(self.alloc, &self.config, self.seed, self.number, instance);
        self.slots.push_reserved(Slot { id, instance: made });
        self.dues.push(DueNumber::none());
        Some(instance as usize)
    }

    /// Adds a packet to an existing instance, or drops it.
    #[inline(always)]
    pub fn arrive_at<S: Shelf>(
        &mut self,
        instance: usize,
        shelf: &mut S,
        owner: Owner,
        now: u64,
        packet: &Packet,
    ) -> Arrival
        requires inside { instance < length self.old.slots }
        requires early { IsMoment now }
        requires budget { (S.pocket shelf.old owner).count < (S.pocket shelf.old owner).budget }
        requires room { 0 < S.room shelf.old owner }
        requires ready { HasRoomAtSlot packet.now.size instance self.old }
        ensures came { ArrivesAt instance now packet.now result.cause (S.pocket shelf.old owner)
            (S.pocket shelf.new owner) self.old self.new }
        ensures arrived { instance_of (ids_of self.old.slots)
            (flow_id self.old.config.mask packet.now) ≡ Some instance →
            AreNamed (S.pocket shelf.old owner) (keys_of self.old.slots) →
            pipe_arrive self.old.seed now packet.now (view (S.pocket shelf.old owner) self.old)
            ≡ record {
              state = view (S.pocket shelf.new owner) self.new;
              dropped = drops_of packet.now result.cause;
            } }
        ensures keys { Keeps (S.pocket shelf.old owner) (S.pocket shelf.new owner)
            (keys_of self.old.slots) (keys_of self.new.slots) }
        ensures same { self.new ≡ record self.old { slots = self.new.slots } }
        ensures ids { ids_of self.new.slots ≡ ids_of self.old.slots }
        ensures told { (f : ℕ → Packet) → result.is_due_same
            ≡ (is_some result.cause || is_some (served_in instance (seen_pipe f self.old))) }
        ensures due { IsTrue result.is_due_same → (f : ℕ → Packet) →
            pipe_due f self.new ≡ pipe_due f self.old }
        ensures others { OthersStay owner (S.pocket shelf.old) (S.pocket shelf.new) }
    {
        let slot = &mut self.slots[instance];
        if slot.instance.lose(self.config.plr) {
            return Arrival {
                cause: Some(DropCause::Lost),
                is_due_same: true,
            };
        }
        if !slot.instance.accepts(packet.size) {
            return Arrival {
                cause: Some(DropCause::Full),
                is_due_same: true,
            };
        }
        let Ok(key) = shelf.put(owner, *packet) else {
            unreachable_unchecked!();
        };
        let waits = slot.instance.accept(key, packet.size, now);
        if !waits {
            self.dues
                .set(instance, slot.due(self.number, instance as u8));
        }
        Arrival {
            cause: None,
            is_due_same: waits,
        }
    }

    /// Adds a packet at `now` (ns), or drops it: finds or creates its instance, draws its loss
    /// word, and then checks the limit. Returns None if the packet is accepted, otherwise the cause
    /// of the drop. Call `arrive_ready` first.
    pub fn arrive<S: Shelf>(
        &mut self,
        shelf: &mut S,
        owner: Owner,
        now: u64,
        packet: &Packet,
    ) -> Option<DropCause>
        requires early { IsMoment now }
        requires named { AreNamed (S.pocket shelf.old owner) (keys_of self.old.slots) }
        requires budget { (S.pocket shelf.old owner).count < (S.pocket shelf.old owner).budget }
        requires room { 0 < S.room shelf.old owner }
        requires ready { HasRoomAt packet.now self.old }
        ensures arrived { pipe_arrive self.old.seed now packet.now
            (view (S.pocket shelf.old owner) self.old)
            ≡ record {
              state = view (S.pocket shelf.new owner) self.new;
              dropped = drops_of packet.now result;
            } }
        ensures keys { Keeps (S.pocket shelf.old owner) (S.pocket shelf.new owner)
            (keys_of self.old.slots) (keys_of self.new.slots) }
        ensures same { self.new
            ≡ record self.old { slots = self.new.slots; spare = self.new.spare } }
        ensures ids { KeepsIds self.old.slots self.new.slots }
        ensures others { OthersStay owner (S.pocket shelf.old) (S.pocket shelf.new) }
    {
        let id = self.config.mask.apply(packet);
        let Some(instance) = self.find_or_make(id) else {
            return Some(DropCause::NoInstance);
        };
        self.arrive_at(instance, shelf, owner, now, packet).cause
    }

    /// Finishes the packet in service in an instance at `now` (ns), when it is due, and returns it:
    /// the packet enters the delay line, and the service of the next one starts. The packets that
    /// CoDel drops move from the shelf to `drops`, in order. That list is cleared first and keeps
    /// its allocation, so a list that was once long enough stays so. Allocates before it changes
    /// anything: for the delay line and, if the discipline is CoDel, for the lists of drops; if
    /// allocation fails, only spare capacity changes. If the caller knows that the finish is
    /// `plain` (see `drops_none`), nothing is dropped and the lists don't grow; `false` is always
    /// correct.
    #[inline(always)]
    pub fn finish<S: Shelf>(
        &mut self,
        shelf: &mut S,
        owner: Owner,
        instance: usize,
        now: u64,
        plain: bool,
        drops: &mut Vec<Packet>,
    ) -> Result<Packet, AllocError>
        requires early { IsMoment now }
        requires due { option_map (λ s. s.period.finish)
            (served_in instance (view (S.pocket shelf.old owner) self.old)) ≡ Some now }
        requires named { AreNamed (S.pocket shelf.old owner) (keys_of self.old.slots) }
        requires plain { IsTrue plain → IsPlainAt instance now self.old }
        ensures served { IfOk result (λ packet.
            option_map (λ s. s.item) (served_in instance (view (S.pocket shelf.old owner) self.old))
            ≡ Some packet) }
        ensures ok { OnOk result (pipe_finish now instance (view (S.pocket shelf.old owner) self.old)
            ≡ record {
              state = view (S.pocket shelf.new owner) self.new;
              dropped = drops_by_codel drops.new.items;
            }) }
        ensures keys { Keeps (S.pocket shelf.old owner) (S.pocket shelf.new owner)
            (keys_of self.old.slots) (keys_of self.new.slots) }
        ensures same { self.new ≡ record self.old { slots = self.new.slots } }
        ensures ids { ids_of self.new.slots ≡ ids_of self.old.slots }
        ensures others { OthersStay owner (S.pocket shelf.old) (S.pocket shelf.new) }
        ensures refused { OnErr result (IsGrown self.old self.new) }
        ensures refused_pocket { OnErr result
            (S.pocket shelf.new owner ≡ S.pocket shelf.old owner) }
        ensures count { OnOk result
            ((S.pocket shelf.new owner).count + length drops.new.items
            ≡ (S.pocket shelf.old owner).count) }
        ensures succeeds { IsFreeAt instance now (vec_capacity drops.old) self.old → IsOk result }
        ensures plainly { IsTrue plain → HasLineRoomAt instance self.old → IsOk result }
        ensures none { IsTrue plain → OnOk result (drops.new.items ≡ []) }
        ensures capacity { vec_capacity drops.old ≤ vec_capacity drops.new }
    {
        let slot = &mut self.slots[instance];
        let finished = slot.finish(shelf, owner, now, plain, &self.config, drops);
        self.dues
            .set_least(instance, slot.due(self.number, instance as u8));
        finished
    }

    /// Returns true if a finish of an instance at `now` (ns) is certain to drop nothing.
    #[inline(always)]
    pub fn drops_none(&self, instance: usize, now: u64) -> bool
        requires { instance < length self.now.slots }
        ensures { IsTrue result ↔ IsPlainAt instance now self.now }
    {
        let slot = &self.slots[instance];
        slot.instance.drops_none(now)
    }

    /// Returns the next packet to leave an instance, without removing it, or None if nothing is in
    /// flight.
    #[inline(always)]
    pub fn front<S: Shelf>(&self, shelf: &S, owner: Owner, instance: usize) -> Option<Packet>
        requires inside { instance < length self.now.slots }
        requires named { AreNamed (S.pocket shelf.now owner) (keys_of self.now.slots) }
        ensures { result ≡ flying_in instance (view (S.pocket shelf.now owner) self.now) }
    {
        let slot = &self.slots[instance];
        slot.front(shelf, owner)
    }

    /// Removes the next packet to leave an instance from the instance and from the shelf, and
    /// returns it, or None if nothing is in flight. Does not allocate, and keeps room for arrivals.
    #[inline(always)]
    pub fn exit<S: Shelf>(&mut self, shelf: &mut S, owner: Owner, instance: usize) -> Option<Packet>
        requires inside { instance < length self.old.slots }
        requires named { AreNamed (S.pocket shelf.old owner) (keys_of self.old.slots) }
        ensures packet { result ≡ flying_in instance (view (S.pocket shelf.old owner) self.old) }
        ensures shown { view (S.pocket shelf.new owner) self.new
            ≡ pipe_exit instance (view (S.pocket shelf.old owner) self.old) }
        ensures keys { Keeps (S.pocket shelf.old owner) (S.pocket shelf.new owner)
            (keys_of self.old.slots) (keys_of self.new.slots) }
        ensures same { self.new ≡ record self.old { slots = self.new.slots } }
        ensures ids { ids_of self.new.slots ≡ ids_of self.old.slots }
        ensures ready { (p : Packet) → HasRoomAt p self.old → HasRoomAt p self.new }
        ensures ready_at { (size k : ℕ) → HasRoomAtSlot size k self.old →
            HasRoomAtSlot size k self.new }
        ensures freed { OnSome result (0 < S.room shelf.new owner) }
        ensures below { OnSome result
            ((S.pocket shelf.new owner).count < (S.pocket shelf.new owner).budget) }
        ensures others { OthersStay owner (S.pocket shelf.old) (S.pocket shelf.new) }
    {
        let slot = &mut self.slots[instance];
        let packet = slot.exit(shelf, owner);
        self.dues
            .set_least(instance, slot.due(self.number, instance as u8));
        packet
    }

    /// Changes the configuration of the pipe and of each instance, which keeps everything it holds.
    /// Returns a refusal if the mask changes while there are instances. Does not allocate.
    pub fn configure(&mut self, config: PipeConfig) -> Option<Refusal>
        ensures refusal { (f : ℕ → Packet) → result ≡ mask_refusal config (seen_pipe f self.old) }
        ensures done { IfNone result
            ((f : ℕ → Packet) →
            seen_pipe f self.new ≡ pipe_configure config (seen_pipe f self.old)) }
        ensures keys { keys_of self.new.slots ≡ keys_of self.old.slots }
        ensures seed { self.new.seed ≡ self.old.seed }
        ensures refused { OnSome result (self.new ≡ self.old) }
    {
        if !self.slots.is_empty() && config.mask != self.config.mask {
            return Some(Refusal::MaskFixed);
        }
        configure_all(&mut self.slots, &self.config, &config);
        index_all(&self.slots, self.number, &mut self.dues);
        self.unmasked = is_zero(&config.mask);
        self.config = config;
        None
    }

    /// Removes all packets from the pipe and the shelf, and returns them by instance number; in
    /// each instance, first those in the delay line from its front, then the packet in service,
    /// then those that wait. The pipe is left without instances. If allocation fails, nothing
    /// changes.
    pub fn delete<S: Shelf>(
        &mut self,
        shelf: &mut S,
        owner: Owner,
    ) -> Result<Vec<Packet>, AllocError>
        requires { AreNamed (S.pocket shelf.old owner) (keys_of self.old.slots) }
        ensures gone { IfOk result
            (λ gone. gone.items ≡ pipe_packets (view (S.pocket shelf.old owner) self.old)) }
        ensures empty { OnOk result
            (self.new ≡ record self.old { slots = []; spare = self.new.spare }) }
        ensures keys { Keeps (S.pocket shelf.old owner) (S.pocket shelf.new owner)
            (keys_of self.old.slots) (keys_of self.new.slots) }
        ensures others { OthersStay owner (S.pocket shelf.old) (S.pocket shelf.new) }
        ensures refused { OnErr result (self.new ≡ self.old) }
        ensures refused_pocket { OnErr result
            (S.pocket shelf.new owner ≡ S.pocket shelf.old owner) }
    {
        let Some(held) = self.packet_count() else {
            return Err(AllocError);
        };
        let mut gone = Vec::new(self.alloc);
        gone.reserve(held)?;
        self.ids = Instances::new(self.alloc);
        let vacant = Vec::new(self.alloc);
        let slots = mem::replace(&mut self.slots, vacant);
        self.dues.clear();
        take_all(slots, shelf, owner, &mut gone);
        Ok(gone)
    }

    /// Moves all packets of the pipe from one shelf to another, which must have room for them, and
    /// stores the new keys. Does not allocate.
    pub fn rehouse<S: Shelf, T: Shelf>(
        &mut self,
        from: &mut S,
        owner: Owner,
        to: &mut T,
        other: Owner,
    )
        requires named { AreNamed (S.pocket from.old owner) (keys_of self.old.slots) }
        requires budget { (T.pocket to.old other).count + length (keys_of self.old.slots)
            ≤ (T.pocket to.old other).budget }
        requires room { length (keys_of self.old.slots) ≤ T.room to.old other }
        ensures shown { view (T.pocket to.new other) self.new
            ≡ view (S.pocket from.old owner) self.old }
        ensures moved { Rehouses (S.pocket from.old owner) (S.pocket from.new owner)
            (T.pocket to.old other) (T.pocket to.new other) (keys_of self.old.slots)
            (keys_of self.new.slots) }
        ensures same { self.new ≡ record self.old { slots = self.new.slots } }
        ensures room { T.room to.old other ≤ T.room to.new other + length (keys_of self.old.slots) }
        ensures others_from { OthersStay owner (S.pocket from.old) (S.pocket from.new) }
        ensures others_to { OthersStay other (T.pocket to.old) (T.pocket to.new) }
    {
        rehouse_all(&mut self.slots, from, owner, to, other);
    }

    // Returns the number of packets in all instances, or None if it exceeds a `usize`.
    fn packet_count(&self) -> Option<usize>
        ensures { IfSome result (λ n. n ≡ length (keys_of self.now.slots)) }
    {
        let mut held: usize = 0;
        for slot in &self.slots {
            held = held.checked_add(slot.packet_count()?)?;
        }
        Some(held)
    }
}

/// The place that means that a packet's instance doesn't exist yet, or that there is none for it.
pub const NO_INSTANCE: usize = usize::MAX;

// Returns true if the mask is zero, so that all packets have one identifier.
fn is_zero(mask: &Mask) -> bool
    ensures { IsTrue result ↔ IsZero mask.now }
{
    mask.proto == 0 && mask.src == 0 && mask.dst == 0 && mask.sport == 0 && mask.dport == 0
}

// Recomputes the due of each instance.
fn index_all(slots: &[Slot], number: PipeNumber, dues: &mut DueIndex)
    requires few { length slots.now ≤ 256 }
    requires numbered { (i : ℕ) (s : Slot) → slice_get slots.now i ≡ Some s →
        number * 256 + i ≡ instance_number s }
    requires long { length dues.old.leaves ≡ length slots.now }
    ensures { dues.new ≡ record dues.old { leaves = map slot_due slots.now } }
{
    for instance in 0..slots.len() {
        let slot = &slots[instance];
        dues.set(instance, slot.due(number, instance as u8));
    }
}

// Changes the configuration of each instance.
fn configure_all(slots: &mut [Slot], old: &PipeConfig, new: &PipeConfig)
    requires { All (λ s. IsTuned old.now s.instance) slots.old }
    ensures { slots.new ≡ map (configured_slot old.now new.now) slots.old }
{
    for slot in slots.iter_mut() {
        slot.instance.configure(old, new);
    }
}
