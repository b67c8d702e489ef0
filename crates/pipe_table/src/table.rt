//! The table of pipes by number: arrivals, finishes, exits and commands.

ghost use Rattle.std.specs.Prelude.{◌≡◌, ◌≢◌, ℕ, ◌+◌, ◌*◌, ◌<◌, ◌≤◌, ◌↔◌, [], Some, None, option_map, option_and_then, unwrap_or, position, is_some, IsSome, IsTrue, OnSome, OnOk, OnErr, IsOk, IfOk, MatchResult, Err, length, slice_get, vec_capacity};
ghost use Rattle.std.specs.List.{position_or_len};
ghost use Rattle.std.specs.Option.{option_map_or};
ghost use Rattle.emu_model.specs.FlowIds.{flow_id, same_flow};
ghost use Rattle.emu_model.specs.Moments.{IsMoment};
ghost use Rattle.emu_model.specs.declared.commands.EventContext.{EventContext};
ghost use Rattle.emu_model.specs.Net.{Net, find_pipe, note, note_drops, enter_pipe};
ghost use Rattle.emu_model.specs.declared.records.Record.TheVariants.{PacketFinished};
ghost use Rattle.emu_model.specs.Commands.{config_refusal, configure, new_pipe, new_pipe_refusal, delete_pipe};
ghost use Rattle.emu_model.specs.Events.{flying_in, leave_pipe_some, pipe_exits, pipe_finishes};
ghost use Rattle.packet_store.specs.Pocket.{Pocket, OthersStay, AllStay};
ghost use Rattle.pipe_core.specs.Keyed.{KeyedPipe, ids_of};
ghost use Rattle.pipe_core.specs.Moves.{AreNamed, Keeps};
ghost use Rattle.pipe_core.specs.Steps.{drops_of, drops_by_codel};
ghost use Rattle.pipe_table.specs.Table.{with_pipes, pipe_keys, pipe_of, has_number, HasRoomIn, HasGrown, IsFinishing, is_above, drops_by_deletion, refusal_in};
ghost use Rattle.pipe_table.specs.Places.{StandsAt, IsInside, IsRouted, HasRoomAtPlace, HasLineRoomIn, IsFreeIn, IsPlainIn, KeepsPlaces};

use crate::dues::index_all;
use crate::places::lead_all;
use due_index::{DueIndex, NumberTable};
use emu_model::{DropCause, Packet, PipeConfig, PipeNumber, Refusal, Size};
use packet_store::{Owner, Shelf};
use pipe_core::{NO_INSTANCE, Pipe, laws};
use std::alloc::{AllocError, Global};
use std::marker::Model;

/// The pipes of an experiment with one seed, by number.
#[derive(Drop)]
pub struct PipeTable {
    alloc: Global,
    seed: u64,
    pub(crate) pipes: Vec<Pipe>,
    pub(crate) dues: DueIndex,
    // The place of each number that a pipe has or had, even if the pipe was deleted.
    places: NumberTable,
}

/// The reason why a pipe was not configured.
#[derive(Clone, Copy)]
pub enum ConfigureError {
    Refused(Refusal),
    NoMemory,
}

impl Model for PipeTable {
    ghost use Rattle.std.specs.Prelude.{◌≤◌, length};
    ghost use Rattle.pipe_table.specs.Table.{Table, IsTable};
    ghost use Rattle.pipe_table.specs.Leaves.{AreIndexed};
    ghost use Rattle.pipe_table.specs.Places.{AreLed};

    ghost Value = { Table };

    ghost view = { λ t. record { seed = t.seed; pipes = t.pipes.items } };

    // A number that no pipe has may have no place, a place beyond the end, or the place of another
    // pipe.
    ghost invariant = { λ t. (IsTable t.seed 0 t.pipes.items × (length t.pipes.items ≤ 64))
        × AreIndexed t.pipes.items t.dues
        × AreLed t.pipes.items t.places };
}

impl PipeTable {
    /// Creates a table without pipes, for an experiment with this seed. Does not allocate.
    #[tactic(auto, unfolding(crate::specs::Table::IsTable))]
    pub fn new(alloc: Global, seed: u64) -> Self
        ensures { result ≡ record { seed = seed; pipes = [] } }
    {
        PipeTable {
            alloc,
            seed,
            pipes: Vec::new(alloc),
            dues: DueIndex::new(alloc),
            places: NumberTable::new(alloc),
        }
    }

    /// Returns the place of a pipe in the list. Does not traverse the list.
    #[inline(always)]
    pub fn place_of(&self, number: PipeNumber) -> Option<usize>
        ensures { result ≡ position (has_number number) self.now.pipes }
    {
        let place = self.places.get(number.get())?;
        let pipe = self.pipes.get(place)?;
        if pipe.number().get() == number.get() {
            return Some(place);
        }
        None
    }

    /// Reserves the memory for an arrival at the pipe at a place, and returns the place of the
    /// packet's instance, or `NO_INSTANCE` if it doesn't exist yet.
    #[inline(always)]
    pub fn route_ready<S: Shelf>(
        &mut self,
        shelf: &mut S,
        owner: Owner,
        now: u64,
        place: usize,
        packet: &Packet,
    ) -> Result<usize, AllocError>
        requires { (k : ℕ) × StandsAt k place self.old.pipes }
        ensures seed { self.new.seed ≡ self.old.seed }
        ensures grown { HasGrown self.old.pipes self.new.pipes }
        ensures places { KeepsPlaces self.old.pipes self.new.pipes }
        ensures pockets { AllStay (S.pocket shelf.old) (S.pocket shelf.new) }
        ensures rooms { (o : ℕ) → S.room shelf.old o ≤ S.room shelf.new o }
        ensures room { OnOk result
            ((S.pocket shelf.old owner).count < (S.pocket shelf.old owner).budget →
            0 < S.room shelf.new owner) }
        ensures ready { OnOk result
            ((k : ℕ) → StandsAt k place self.old.pipes →
            HasRoomIn k packet.now self.new.pipes) }
        ensures succeeds { (k : ℕ) → StandsAt k place self.old.pipes →
            0 < S.room shelf.old owner → HasRoomIn k packet.now self.old.pipes → IsOk result }
        ensures place { IfOk result
            (λ j. (p : KeyedPipe) → slice_get self.old.pipes place ≡ Some p →
            j ≡ unwrap_or (position (same_flow (flow_id p.config.mask packet.now))
            (ids_of p.slots)) NO_INSTANCE) }
        ensures known { IfOk result
            (λ j. j ≢ NO_INSTANCE → (k : ℕ) → StandsAt k place self.old.pipes →
            IsRouted k packet.now place j self.new.pipes
            × HasRoomAtPlace packet.now.size place j self.new.pipes) }
    {
        self.pipes[place].route_ready(shelf, owner, now, packet)
    }

    /// Reserves the memory for an arrival at an instance, given the places of the pipe and the
    /// instance.
    #[inline(always)]
    pub fn accept_ready_at(
        &mut self,
        place: usize,
        instance: usize,
        size: Size,
        now: u64,
    ) -> Result<(), AllocError>
        requires { IsInside place instance self.old.pipes }
        ensures seed { self.new.seed ≡ self.old.seed }
        ensures grown { HasGrown self.old.pipes self.new.pipes }
        ensures places { KeepsPlaces self.old.pipes self.new.pipes }
        ensures ready { OnOk result (HasRoomAtPlace size place instance self.new.pipes) }
        ensures succeeds { HasRoomAtPlace size place instance self.old.pipes → IsOk result }
    {
        self.pipes[place].accept_ready(instance, size, now)
    }

    /// Adds a packet to its instance, or drops it, given the places of the pipe and the instance.
    #[inline(always)]
    pub fn arrive_at<S: Shelf>(
        &mut self,
        place: usize,
        instance: usize,
        shelf: &mut S,
        owner: Owner,
        now: u64,
        packet: &Packet,
    ) -> Option<DropCause>
        requires early { IsMoment now }
        requires route { (k : ℕ) × IsRouted k packet.now place instance self.old.pipes }
        requires named { AreNamed (S.pocket shelf.old owner) (pipe_keys self.old.pipes) }
        requires budget { (S.pocket shelf.old owner).count < (S.pocket shelf.old owner).budget }
        requires room { 0 < S.room shelf.old owner }
        requires ready { HasRoomAtPlace packet.now.size place instance self.old.pipes }
        ensures seed { self.new.seed ≡ self.old.seed }
        ensures arrived { (k : ℕ) → StandsAt k place self.old.pipes → (at : EventContext) (n : Net) →
            at.seed ≡ self.old.seed → at.now ≡ now →
            enter_pipe at k packet.now (with_pipes (S.pocket shelf.old owner) self.old n)
            ≡ note_drops now (drops_of packet.now result)
            (with_pipes (S.pocket shelf.new owner) self.new n) }
        ensures keys { Keeps (S.pocket shelf.old owner) (S.pocket shelf.new owner)
            (pipe_keys self.old.pipes) (pipe_keys self.new.pipes) }
        ensures places { KeepsPlaces self.old.pipes self.new.pipes }
        ensures others { OthersStay owner (S.pocket shelf.old) (S.pocket shelf.new) }
    {
        laws::keys_say_all();
        let pipe = &mut self.pipes[place];
        let answer = pipe.arrive_at(instance, shelf, owner, now, packet);
        if !answer.is_due_same {
            self.dues.set(place, pipe.least());
        }
        answer.cause
    }

    /// Returns true if a finish of an instance at `now` (ns) is certain to drop nothing, given the
    /// places of the pipe and the instance.
    #[inline(always)]
    pub fn drops_none(&self, place: usize, instance: usize, now: u64) -> bool
        requires { IsInside place instance self.now.pipes }
        ensures { IsTrue result ↔ IsPlainIn place instance now self.now.pipes }
    {
        self.pipes[place].drops_none(instance, now)
    }

    /// Finishes the packet in service in an instance at `now` (ns), when it is due, and returns it.
    /// Replaces the contents of `drops` with the packets that CoDel drops, in order, and keeps the
    /// list's allocation. If allocation fails, only spare capacity changes. If the caller knows
    /// that the finish is `plain` (see `drops_none`), nothing is dropped.
    #[inline(always)]
    pub fn finish<S: Shelf>(
        &mut self,
        place: usize,
        instance: usize,
        shelf: &mut S,
        owner: Owner,
        now: u64,
        plain: bool,
        drops: &mut Vec<Packet>,
    ) -> Result<Packet, AllocError>
        requires early { IsMoment now }
        requires due { (k : ℕ) × StandsAt k place self.old.pipes
            × IsFinishing k instance now self.old.pipes }
        requires named { AreNamed (S.pocket shelf.old owner) (pipe_keys self.old.pipes) }
        requires plain { IsTrue plain → IsPlainIn place instance now self.old.pipes }
        ensures seed { self.new.seed ≡ self.old.seed }
        ensures ok { IfOk result
            (λ packet. (k : ℕ) → StandsAt k place self.old.pipes → (at : EventContext) (n : Net) →
            at.now ≡ now →
            let m = with_pipes (S.pocket shelf.old owner) self.old n in
            option_map_or (pipe_finishes at k instance m) (find_pipe k m) m
            ≡ note_drops now (drops_by_codel drops.new.items)
            (with_pipes (S.pocket shelf.new owner) self.new
            (note (PacketFinished now packet.number k instance) n))) }
        ensures keys { Keeps (S.pocket shelf.old owner) (S.pocket shelf.new owner)
            (pipe_keys self.old.pipes) (pipe_keys self.new.pipes) }
        ensures places { KeepsPlaces self.old.pipes self.new.pipes }
        ensures others { OthersStay owner (S.pocket shelf.old) (S.pocket shelf.new) }
        ensures count { OnOk result
            ((S.pocket shelf.new owner).count + length drops.new.items
            ≡ (S.pocket shelf.old owner).count) }
        ensures refused { OnErr result (HasGrown self.old.pipes self.new.pipes) }
        ensures refused_pocket { OnErr result
            (S.pocket shelf.new owner ≡ S.pocket shelf.old owner) }
        ensures succeeds { IsFreeIn place instance now (vec_capacity drops.old) self.old.pipes →
            IsOk result }
        ensures plainly { IsTrue plain → HasLineRoomIn place instance self.old.pipes →
            IsOk result }
        ensures none { IsTrue plain → OnOk result (drops.new.items ≡ []) }
        ensures capacity { vec_capacity drops.old ≤ vec_capacity drops.new }
    {
        laws::keys_say_all();
        let pipe = &mut self.pipes[place];
        let finished = pipe.finish(shelf, owner, instance, now, plain, drops);
        self.dues.set_least(place, pipe.least());
        finished
    }

    /// Returns the packet that `exit` would return, without removing it, or None if nothing is in
    /// flight.
    #[inline(always)]
    pub fn front<S: Shelf>(
        &self,
        place: usize,
        instance: usize,
        shelf: &S,
        owner: Owner,
    ) -> Option<Packet>
        requires inside { IsInside place instance self.now.pipes }
        requires named { AreNamed (S.pocket shelf.now owner) (pipe_keys self.now.pipes) }
        ensures { (k : ℕ) → StandsAt k place self.now.pipes → (n : Net) →
            result ≡ option_and_then (flying_in instance)
            (find_pipe k (with_pipes (S.pocket shelf.now owner) self.now n)) }
    {
        self.pipes[place].front(shelf, owner, instance)
    }

    /// Removes the next packet to leave an instance from the pipe and from the shelf, given the
    /// places of the pipe and the instance, which must exist. Returns None if nothing is in flight.
    /// Does not allocate, and keeps room for arrivals.
    #[inline(always)]
    pub fn exit<S: Shelf>(
        &mut self,
        place: usize,
        instance: usize,
        shelf: &mut S,
        owner: Owner,
    ) -> Option<Packet>
        requires inside { IsInside place instance self.old.pipes }
        requires named { AreNamed (S.pocket shelf.old owner) (pipe_keys self.old.pipes) }
        ensures seed { self.new.seed ≡ self.old.seed }
        ensures gone { (k : ℕ) → StandsAt k place self.old.pipes → (at : EventContext) (n : Net) →
            let m = with_pipes (S.pocket shelf.old owner) self.old n in
            option_map_or (pipe_exits at k instance m) (find_pipe k m) m
            ≡ leave_pipe_some at k instance result
            (with_pipes (S.pocket shelf.new owner) self.new n) }
        ensures packet { (k : ℕ) → StandsAt k place self.old.pipes → (n : Net) →
            result ≡ option_and_then (flying_in instance)
            (find_pipe k (with_pipes (S.pocket shelf.old owner) self.old n)) }
        ensures keys { Keeps (S.pocket shelf.old owner) (S.pocket shelf.new owner)
            (pipe_keys self.old.pipes) (pipe_keys self.new.pipes) }
        ensures places { KeepsPlaces self.old.pipes self.new.pipes }
        ensures ready { (k : ℕ) (p : Packet) → HasRoomIn k p self.old.pipes →
            HasRoomIn k p self.new.pipes }
        ensures ready_at { (size i j : ℕ) → HasRoomAtPlace size i j self.old.pipes →
            HasRoomAtPlace size i j self.new.pipes }
        ensures freed { OnSome result (0 < S.room shelf.new owner) }
        ensures below { OnSome result
            ((S.pocket shelf.new owner).count < (S.pocket shelf.new owner).budget) }
        ensures others { OthersStay owner (S.pocket shelf.old) (S.pocket shelf.new) }
    {
        laws::keys_say_all();
        let pipe = &mut self.pipes[place];
        let packet = pipe.exit(shelf, owner, instance);
        self.dues.set_least(place, pipe.least());
        packet
    }

    /// Returns true if there is a pipe with this number.
    pub fn has(&self, number: PipeNumber) -> bool
        ensures { (p : Pocket) (n : Net) →
            result ≡ is_some (find_pipe number (with_pipes p self.now n)) }
    {
        self.place_of(number).is_some()
    }

    /// Adds a packet to the pipe at a place at `now` (ns), or drops it, and finds or creates its
    /// instance. Returns None if the packet is accepted, otherwise the cause of the drop. Call
    /// `route_ready` first.
    pub fn arrive<S: Shelf>(
        &mut self,
        place: usize,
        shelf: &mut S,
        owner: Owner,
        now: u64,
        packet: &Packet,
    ) -> Option<DropCause>
        requires early { IsMoment now }
        requires there { (k : ℕ) × StandsAt k place self.old.pipes
            × HasRoomIn k packet.now self.old.pipes }
        requires named { AreNamed (S.pocket shelf.old owner) (pipe_keys self.old.pipes) }
        requires budget { (S.pocket shelf.old owner).count < (S.pocket shelf.old owner).budget }
        requires room { 0 < S.room shelf.old owner }
        ensures seed { self.new.seed ≡ self.old.seed }
        ensures arrived { (k : ℕ) → StandsAt k place self.old.pipes → (at : EventContext) (n : Net) →
            at.seed ≡ self.old.seed → at.now ≡ now →
            enter_pipe at k packet.now (with_pipes (S.pocket shelf.old owner) self.old n)
            ≡ note_drops now (drops_of packet.now result)
            (with_pipes (S.pocket shelf.new owner) self.new n) }
        ensures keys { Keeps (S.pocket shelf.old owner) (S.pocket shelf.new owner)
            (pipe_keys self.old.pipes) (pipe_keys self.new.pipes) }
        ensures places { KeepsPlaces self.old.pipes self.new.pipes }
        ensures others { OthersStay owner (S.pocket shelf.old) (S.pocket shelf.new) }
    {
        laws::keys_say_all();
        let pipe = &mut self.pipes[place];
        let answer = pipe.arrive(shelf, owner, now, packet);
        self.dues.set(place, pipe.least());
        answer
    }

    /// Configures a pipe, or creates it. Refuses with `MaskFixed` if the mask of a pipe with
    /// instances would change, and with `TooManyPipes` if 64 others exist. After an error nothing
    /// has changed.
    pub fn configure(
        &mut self,
        number: PipeNumber,
        config: &PipeConfig,
    ) -> Result<(), ConfigureError>
        ensures seed { self.new.seed ≡ self.old.seed }
        ensures ok { OnOk result ((p : Pocket) (n : Net) →
            configure number config.now (with_pipes p self.old n) ≡ with_pipes p self.new n) }
        ensures refusal { MatchResult result
            (λ _. (p : Pocket) (n : Net) →
            config_refusal number config.now (with_pipes p self.old n) ≡ None)
            (λ e. (p : Pocket) (n : Net) →
            config_refusal number config.now (with_pipes p self.old n) ≡ refusal_in e) }
        ensures keys { pipe_keys self.new.pipes ≡ pipe_keys self.old.pipes }
        ensures memory { result ≡ Err ConfigureError.NoMemory →
            pipe_of number self.old.pipes ≡ None }
        ensures err { OnErr result (self.new ≡ self.old) }
    {
        let Some(place) = self.place_of(number) else {
            return self.make(number, config);
        };
        if let Some(refusal) = self.pipes[place].configure(*config) {
            return Err(ConfigureError::Refused(refusal));
        }
        self.dues.set(place, self.pipes[place].least());
        Ok(())
    }

    // Inserts a new pipe before the first one with a larger number.
    fn make(&mut self, number: PipeNumber, config: &PipeConfig) -> Result<(), ConfigureError>
        requires { pipe_of number self.old.pipes ≡ None }
        ensures seed { self.new.seed ≡ self.old.seed }
        ensures ok { OnOk result
            ((p : Pocket) (n : Net) →
            new_pipe number config.now (with_pipes p self.old n) ≡ with_pipes p self.new n) }
        ensures refusal { MatchResult result
            (λ _. (p : Pocket) (n : Net) → new_pipe_refusal (with_pipes p self.old n) ≡ None)
            (λ e. (p : Pocket) (n : Net) →
            new_pipe_refusal (with_pipes p self.old n) ≡ refusal_in e) }
        ensures keys { pipe_keys self.new.pipes ≡ pipe_keys self.old.pipes }
        ensures err { OnErr result (self.new ≡ self.old) }
    {
        if MAX_PIPES <= self.pipes.len() {
            return Err(ConfigureError::Refused(Refusal::TooManyPipes));
        }
        let Ok(()) = self.pipes.reserve(1) else {
            return Err(ConfigureError::NoMemory);
        };
        let Ok(()) = self.dues.push_ready() else {
            return Err(ConfigureError::NoMemory);
        };
        let Ok(()) = self.places.make_room(number.get()) else {
            return Err(ConfigureError::NoMemory);
        };
        let place = self.place_behind(number);
        let pipe = Pipe::new(self.alloc, self.seed, number, *config);
        let Ok(()) = self.pipes.insert(place, pipe) else {
            unreachable!();
        };
        index_all(&self.pipes, &mut self.dues);
        lead_all(&self.pipes, &mut self.places);
        Ok(())
    }

    // Returns the place of the first pipe with a larger number, if there is one.
    fn place_above(&self, number: PipeNumber) -> Option<usize>
        ensures { result ≡ position (is_above number) self.now.pipes }
    {
        let number = number.get();
        self.pipes
            .iter()
            .position(|pipe| number < pipe.number().get())
    }

    // Returns the place of the first pipe with a larger number, or the length of the list if there
    // is none.
    fn place_behind(&self, number: PipeNumber) -> usize
        ensures { result ≡ position_or_len (is_above number) self.now.pipes }
    {
        self.place_above(number).unwrap_or(self.pipes.len())
    }

    /// Deletes a pipe and removes its packets from the shelf; returns them by instance number: in
    /// each instance, first those in the delay line from its front, then the packet in service,
    /// then those that wait. Returns None if there is no such pipe. If allocation fails, nothing
    /// changes.
    pub fn delete<S: Shelf>(
        &mut self,
        shelf: &mut S,
        owner: Owner,
        number: PipeNumber,
    ) -> Result<Option<Vec<Packet>>, AllocError>
        requires { AreNamed (S.pocket shelf.old owner) (pipe_keys self.old.pipes) }
        ensures seed { self.new.seed ≡ self.old.seed }
        ensures ok { IfOk result
            (λ gone. (now : ℕ) (n : Net) →
            let m = with_pipes (S.pocket shelf.old owner) self.old n in
            option_map_or (delete_pipe now number m) (find_pipe number m) m
            ≡ note_drops now (drops_by_deletion (option_map (λ v. v.items) gone))
            (with_pipes (S.pocket shelf.new owner) self.new n)) }
        ensures there { IfOk result
            (λ gone. (n : Net) →
            is_some gone
            ≡ is_some (find_pipe number (with_pipes (S.pocket shelf.old owner) self.old n))) }
        ensures count { IfOk result
            (λ gone. length (drops_by_deletion (option_map (λ v. v.items) gone))
            ≤ (S.pocket shelf.old owner).count) }
        ensures keys { Keeps (S.pocket shelf.old owner) (S.pocket shelf.new owner)
            (pipe_keys self.old.pipes) (pipe_keys self.new.pipes) }
        ensures others { OthersStay owner (S.pocket shelf.old) (S.pocket shelf.new) }
        ensures memory { OnErr result (IsSome (pipe_of number self.old.pipes)) }
        ensures refused { OnErr result (self.new ≡ self.old) }
        ensures refused_pocket { OnErr result
            (S.pocket shelf.new owner ≡ S.pocket shelf.old owner) }
    {
        laws::keys_say_all();
        let Some(place) = self.place_of(number) else {
            return Ok(None);
        };
        let gone = self.pipes[place].delete(shelf, owner)?;
        self.pipes.remove(place);
        index_all(&self.pipes, &mut self.dues);
        lead_all(&self.pipes, &mut self.places);
        Ok(Some(gone))
    }
}

/// The maximum number of pipes.
const MAX_PIPES: usize = 64;
