//! One instance of a pipe with its flow identifier, and what packets do there.

ghost use Rattle.std.specs.Prelude.{◌≡◌, ◌+◌, ◌-◌, ◌*◌, ◌<◌, ◌≤◌, false, [], Some, None, length, option_map, IfSome, OnSome, IfOk, OnOk, OnErr, IsOk, IsTrue, vec_capacity};
ghost use Rattle.emu_model.specs.Moments.{IsMoment};
ghost use Rattle.pipe_core.specs.KeyedInstance.{IsTuned, keys_in};
ghost use Rattle.pipe_core.specs.Steps.{Arrives, Exits, Finishes, HasRoom, IsFree, IsPlain, most_dropped};
ghost use Rattle.emu_model.specs.Delay.{first_item};
ghost use Rattle.packet_store.specs.Pocket.{OthersStay};
ghost use Rattle.pipe_core.specs.Keyed.{seen_slot};
ghost use Rattle.pipe_core.specs.Leaves.{instance_number, slot_due};
ghost use Rattle.pipe_core.specs.Moves.{packet_at, AreNamed};

use crate::Instance;
use crate::takes::{clear_for, take_dropped};
use due_index::DueNumber;
use emu_model::{DropCause, Packet, PipeConfig, PipeNumber, Source};
use flow_mask::FlowId;
use packet_store::{Owner, Shelf};
use std::alloc::AllocError;
use unchecked::unreachable_unchecked;

#[derive(Drop)]
pub(crate) struct Slot {
    pub(crate) id: FlowId,
    pub(crate) instance: Instance,
}

impl Slot {
    /// Returns the instance's next exit or its finish, whichever is first. At the same time the exit
    /// is first.
    #[tactic(auto, using(crate::proofs::DueLeaves::exit_first, crate::proofs::DueLeaves::finish_first, crate::proofs::DueLeaves::exit_alone))]
    #[inline(always)]
    pub(crate) fn due(&self, pipe: PipeNumber, instance: u8) -> DueNumber
        requires { pipe * 256 + instance ≡ instance_number self.now }
        ensures { result ≡ slot_due self.now }
    {
        let dues = self.instance.dues();
        let Some(finish) = dues.finish else {
            return DueNumber::at_some(dues.exit, Source::exit(pipe, instance));
        };
        if let Some(exit) = dues.exit {
            if exit <= finish {
                return DueNumber::at(exit, Source::exit(pipe, instance));
            }
        }
        DueNumber::at(finish, Source::finish(pipe, instance))
    }

    /// Finishes the packet in service, when it is due, and returns it; the service of the next one
    /// starts. The packets that CoDel drops move from the shelf to `drops`, which is cleared first
    /// and keeps its allocation; there are none if the caller knows that the finish is `plain`.
    /// Allocates before it changes anything.
    #[inline(always)]
    pub(crate) fn finish<S: Shelf>(
        &mut self,
        shelf: &mut S,
        owner: Owner,
        now: u64,
        plain: bool,
        config: &PipeConfig,
        drops: &mut Vec<Packet>,
    ) -> Result<Packet, AllocError>
        requires early { IsMoment now }
        requires tuned { IsTuned config.now self.old.instance }
        requires due { option_map (λ s. s.period.finish) self.old.instance.service.busy ≡ Some now }
        requires named { AreNamed (S.pocket shelf.old owner) (keys_in self.old.instance) }
        requires plain { IsTrue plain → IsPlain now self.old }
        ensures finished { IfOk result
            (λ packet. Finishes config.now now packet drops.new.items (S.pocket shelf.old owner)
            (S.pocket shelf.new owner) self.old self.new) }
        ensures refused { OnErr result (self.new ≡ record self.old {
          instance = record self.old.instance {
            delay_line = record self.old.instance.delay_line { spare = self.new.instance.delay_line.spare };
          };
        }) }
        ensures refused_pocket { OnErr result
            (S.pocket shelf.new owner ≡ S.pocket shelf.old owner) }
        ensures others { OthersStay owner (S.pocket shelf.old) (S.pocket shelf.new) }
        ensures succeeds { IsFree now (vec_capacity drops.old) self.old.instance → IsOk result }
        ensures plainly { IsTrue plain → 0 < self.old.instance.delay_line.spare → IsOk result }
        ensures none { IsTrue plain → OnOk result (drops.new.items ≡ []) }
        ensures capacity { vec_capacity drops.old ≤ vec_capacity drops.new }
    {
        let most = self.most_dropped(plain, config);
        clear_for(most, drops)?;
        let done = self.instance.finish(now, config.delay, plain)?;
        let Some(packet) = shelf.look(owner, done.key) else {
            unreachable_unchecked!();
        };
        take_dropped(done.dropped.as_slice(), shelf, owner, drops);
        Ok(packet)
    }

    // Returns an upper bound on the packets that a finish can drop.
    #[inline(always)]
    fn most_dropped(&self, plain: bool, config: &PipeConfig) -> usize
        requires { IsTuned config.now self.now.instance }
        ensures none { IsTrue plain → result ≡ 0 }
        ensures most { plain ≡ false → result ≡ most_dropped self.now.instance.queue }
        ensures few { result ≤ most_dropped self.now.instance.queue }
    {
        if plain {
            return 0;
        }
        if config.discipline.may_drop() {
            self.instance.waiting()
        } else {
            0
        }
    }

    /// Returns the next packet to leave, without removing it, or None if nothing is in flight.
    #[inline(always)]
    pub(crate) fn front<S: Shelf>(&self, shelf: &S, owner: Owner) -> Option<Packet>
        requires { AreNamed (S.pocket shelf.now owner) (keys_in self.now.instance) }
        ensures { result ≡ first_item
            (seen_slot (packet_at (S.pocket shelf.now owner).find) self.now).line.in_flight }
    {
        let key = self.instance.front()?;
        let Some(packet) = shelf.look(owner, key) else {
            unreachable_unchecked!();
        };
        Some(packet)
    }

    /// Removes the next packet to leave from the instance and from the shelf, and returns it, or
    /// None if nothing is in flight.
    #[inline(always)]
    pub(crate) fn exit<S: Shelf>(&mut self, shelf: &mut S, owner: Owner) -> Option<Packet>
        requires { AreNamed (S.pocket shelf.old owner) (keys_in self.old.instance) }
        ensures left { Exits result (S.pocket shelf.old owner)
            (S.pocket shelf.new owner) self.old self.new }
        ensures freed { OnSome result (0 < S.room shelf.new owner) }
        ensures below { OnSome result
            ((S.pocket shelf.new owner).count < (S.pocket shelf.new owner).budget) }
        ensures others { OthersStay owner (S.pocket shelf.old) (S.pocket shelf.new) }
    {
        let key = self.instance.exit()?;
        let Some(packet) = shelf.take(owner, key) else {
            unreachable_unchecked!();
        };
        Some(packet)
    }

    /// Returns the number of packets in the instance, or None if it exceeds a `usize`.
    pub(crate) fn packet_count(&self) -> Option<usize>
        ensures { IfSome result (λ n. n ≡ length (keys_in self.now.instance)) }
    {
        let shown = self.instance.shown();
        let moving = (shown.in_flight as usize).checked_add(usize::from(shown.busy))?;
        moving.checked_add(shown.waiting as usize)
    }
}
