//! The move of all pipes' packets from one shelf to another.

ghost use Rattle.std.specs.Prelude.{◌≡◌, ℕ, ◌+◌, ◌≤◌, length};
ghost use Rattle.emu_model.specs.Net.{Net};
ghost use Rattle.packet_store.specs.Pocket.{OthersStay};
ghost use Rattle.pipe_core.specs.Moves.{AreNamed, packet_at};
ghost use Rattle.pipe_core.specs.Rehousing.{Rehouses};
ghost use Rattle.pipe_table.specs.Places.{KeepsPlaces};
ghost use Rattle.pipe_table.specs.Table.{seen_pipes, with_pipes, pipe_keys, IsTable};

use crate::PipeTable;
use packet_store::{Owner, Shelf};
use pipe_core::{Pipe, laws};

impl PipeTable {
    /// Moves all packets of the pipes from one shelf to another, which must have room for them, and
    /// stores the new keys. Does not allocate.
    pub fn rehouse<S: Shelf, T: Shelf>(
        &mut self,
        from: &mut S,
        owner: Owner,
        to: &mut T,
        other: Owner,
    )
        requires named { AreNamed (S.pocket from.old owner) (pipe_keys self.old.pipes) }
        requires budget { (T.pocket to.old other).count + length (pipe_keys self.old.pipes)
            ≤ (T.pocket to.old other).budget }
        requires room { length (pipe_keys self.old.pipes) ≤ T.room to.old other }
        ensures shown { (n : Net) →
            with_pipes (T.pocket to.new other) self.new n
            ≡ with_pipes (S.pocket from.old owner) self.old n }
        ensures moved { Rehouses (S.pocket from.old owner) (S.pocket from.new owner)
            (T.pocket to.old other) (T.pocket to.new other) (pipe_keys self.old.pipes)
            (pipe_keys self.new.pipes) }
        ensures seed { self.new.seed ≡ self.old.seed }
        ensures places { KeepsPlaces self.old.pipes self.new.pipes }
        ensures room { T.room to.old other
            ≤ T.room to.new other + length (pipe_keys self.old.pipes) }
        ensures others_from { OthersStay owner (S.pocket from.old) (S.pocket from.new) }
        ensures others_to { OthersStay other (T.pocket to.old) (T.pocket to.new) }
    {
        rehouse_all(self.pipes.as_mut_slice(), from, owner, to, other);
    }
}

// Moves the packets of pipes, pipe by pipe.
fn rehouse_all<S: Shelf, T: Shelf>(
    pipes: &mut [Pipe],
    from: &mut S,
    owner: Owner,
    to: &mut T,
    other: Owner,
)
    requires named { AreNamed (S.pocket from.old owner) (pipe_keys pipes.old) }
    requires budget { (T.pocket to.old other).count + length (pipe_keys pipes.old)
        ≤ (T.pocket to.old other).budget }
    requires room { length (pipe_keys pipes.old) ≤ T.room to.old other }
    ensures shown { seen_pipes (packet_at (T.pocket to.new other).find) pipes.new
        ≡ seen_pipes (packet_at (S.pocket from.old owner).find) pipes.old }
    ensures moved { Rehouses (S.pocket from.old owner) (S.pocket from.new owner)
        (T.pocket to.old other) (T.pocket to.new other) (pipe_keys pipes.old)
        (pipe_keys pipes.new) }
    ensures table { (seed low : ℕ) → IsTable seed low pipes.old → IsTable seed low pipes.new }
    ensures long { length pipes.new ≡ length pipes.old }
    ensures room { T.room to.old other ≤ T.room to.new other + length (pipe_keys pipes.old) }
    ensures others_from { OthersStay owner (S.pocket from.old) (S.pocket from.new) }
    ensures others_to { OthersStay other (T.pocket to.old) (T.pocket to.new) }
{
    laws::keys_say_all();
    for i in 0..pipes.len() {
        pipes[i].rehouse(from, owner, to, other);
    }
}
