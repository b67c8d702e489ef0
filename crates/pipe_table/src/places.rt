//! The places of the pipes, by number.

ghost use Rattle.std.specs.Prelude.{◌≡◌, ℕ, ◌<◌, ◌≤◌, Some, length, slice_get};
ghost use Rattle.pipe_core.specs.Keyed.{KeyedPipe};
ghost use Rattle.pipe_table.specs.Places.{AreLed};
ghost use Rattle.pipe_table.specs.Table.{IsTable};

use due_index::NumberTable;
use pipe_core::Pipe;

/// Sets the place of each pipe's number.
pub(crate) fn lead_all(pipes: &[Pipe], places: &mut NumberTable)
    requires few { length pipes.now ≤ 64 }
    requires sorted { (seed : ℕ) × IsTable seed 0 pipes.now }
    requires entries { (i : ℕ) (p : KeyedPipe) → slice_get pipes.now i ≡ Some p →
        p.number < length places.old }
    ensures { AreLed pipes.now places.new }
{
    for place in 0..pipes.len() {
        places.set(pipes[place].number().get(), place);
    }
}
