//! The law that many turns are single ones, stated as the contract of a function with an empty
//! body, so that the checker proves it.

ghost use Rattle.shard.specs.Turns.{ManyAreSingle};

use crate::mail::Mail;

/// A call of `turns` equals as many single turns of the same resident as ran, each a case of `turn`
/// with its letters, and one more if the resident ended in it.
pub fn many_turns_are_turns<M: Mail>()
    ensures { ManyAreSingle M.seen }
{}
