//! The first due among the pipes.

ghost use Rattle.std.specs.Prelude.{◌≡◌, ℕ, ◌+◌, ◌*◌, ◌<◌, ◌≤◌, ◌++◌, length, Some, option_map, option_to_list, flat_map, slice_get, slice_set, IsTrue, IfSome, vec_len, vec_capacity, OnOk, OnErr};
ghost use Rattle.std.specs.List.{sum_by};
ghost use Rattle.emu_model.specs.declared.packets.Packet.{Packet};
ghost use Rattle.emu_model.specs.Dues.{due, pipe_dues};
ghost use Rattle.due_index.specs.Least.{least_of};
ghost use Rattle.emu_model.specs.Net.{Net};
ghost use Rattle.packet_store.specs.Pocket.{Pocket};
ghost use Rattle.pipe_core.specs.Keyed.{seen_pipe};
ghost use Rattle.pipe_core.specs.Leaves.{pipe_due};
ghost use Rattle.pipe_table.specs.Table.{with_pipes, IsExitDue, IsFinishDue, IsPiped};
ghost use Rattle.pipe_table.specs.Leaves.{AreIndexed};
ghost use Rattle.pipe_table.specs.Reach.{instance_dues};

use crate::PipeTable;
use due_index::{DueIndex, DueNumber};
use emu_model::{Due, Source};
use pipe_core::Pipe;
use std::alloc::AllocError;

/// Recomputes the due of each pipe.
pub(crate) fn index_all(pipes: &[Pipe], dues: &mut DueIndex)
    requires { length pipes.now ≤ length dues.old.leaves + dues.old.spare }
    ensures { AreIndexed pipes.now dues.new }
{
    dues.clear();
    for pipe in pipes {
        dues.push(pipe.least());
    }
}

// Appends an optional due.
fn append(dues: &mut Vec<Due>, source: Source, moment: Option<u64>)
    requires { vec_len dues.old + 1 ≤ vec_capacity dues.old }
    ensures items { dues.new.items
        ≡ dues.old.items ++ option_to_list (option_map (due source.class source.number) moment) }
    ensures length { vec_len dues.new ≤ vec_len dues.old + 1 }
    ensures capacity { vec_capacity dues.new ≡ vec_capacity dues.old }
{
    if let Some(moment) = moment {
        dues.push_reserved(Due { moment, source });
    }
}

// Appends the dues of one instance.
fn add_at(pipe: &Pipe, index: usize, dues: &mut Vec<Due>)
    requires inside { index < length pipe.now.slots }
    requires few { index < 256 }
    requires room { vec_len dues.old + 2 ≤ vec_capacity dues.old }
    ensures items { (f : ℕ → Packet) →
        dues.new.items ≡ dues.old.items ++ instance_dues f pipe.now index }
    ensures length { vec_len dues.new ≤ vec_len dues.old + 2 }
    ensures capacity { vec_capacity dues.new ≡ vec_capacity dues.old }
{
    let there = pipe.dues(index);
    let place = index as u8;
    append(dues, Source::exit(pipe.number(), place), there.exit);
    append(dues, Source::finish(pipe.number(), place), there.finish);
}

// Appends the dues of one pipe.
fn add_in(pipe: &Pipe, dues: &mut Vec<Due>)
    requires { vec_len dues.old + 2 * length pipe.now.slots ≤ vec_capacity dues.old }
    ensures items { (f : ℕ → Packet) →
        dues.new.items ≡ dues.old.items ++ pipe_dues (seen_pipe f pipe.now) }
    ensures length { vec_len dues.new ≤ vec_len dues.old + 2 * length pipe.now.slots }
    ensures capacity { vec_capacity dues.new ≡ vec_capacity dues.old }
{
    for index in 0..pipe.instances() {
        add_at(pipe, index, dues);
    }
}

impl PipeTable {
    /// Returns the earliest of an optional due and those of all pipes, by time, class and number;
    /// the first of equal ones. Does not traverse the pipes.
    #[inline(always)]
    pub fn earliest(&self, best: DueNumber) -> DueNumber
        ensures least { (p : Pocket) (n : Net) → result
            ≡ least_of (option_to_list best ++ flat_map pipe_dues (with_pipes p self.now n).pipes) }
        ensures finishing { IfSome best (λ d. IsFinishDue d self.now.pipes) →
            IfSome result (λ d. IsFinishDue d self.now.pipes) }
        ensures leaving { IfSome best (λ d. IsExitDue d self.now.pipes) →
            IfSome result (λ d. IsExitDue d self.now.pipes) }
        ensures piped { IfSome best IsPiped → IfSome result IsPiped }
    {
        best.or_earlier(self.dues.least())
    }

    /// Appends the dues of all pipes, pipe by pipe and instance by instance. If allocation fails,
    /// `dues` is unchanged; that is possible only if `dues` has no room for two dues per instance.
    pub fn add_dues(&self, dues: &mut Vec<Due>) -> Result<(), AllocError>
        ensures ok { OnOk result
            ((p : Pocket) (n : Net) →
            dues.new.items ≡ dues.old.items ++ flat_map pipe_dues (with_pipes p self.now n).pipes) }
        ensures err { OnErr result (dues.new.items ≡ dues.old.items) }
        ensures full { OnErr result
            (vec_capacity dues.old
            < vec_len dues.old + 2 * sum_by (λ p. length p.slots) self.now.pipes) }
    {
        dues.reserve(2 * self.instances())?;
        for pipe in &self.pipes {
            add_in(pipe, dues);
        }
        Ok(())
    }

    // Returns the number of instances of all pipes.
    fn instances(&self) -> usize
        ensures sum { result ≡ sum_by (λ p. length p.slots) self.now.pipes }
        ensures few { result ≤ 64 * 256 }
    {
        let mut instances = 0;
        for pipe in &self.pipes {
            instances += pipe.instances();
        }
        instances
    }
}
