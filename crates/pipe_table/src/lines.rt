//! The lines of a listing.

ghost use Rattle.std.specs.Prelude.{◌≡◌, ℕ, ◌+◌, ◌<◌, ◌≤◌, ◌++◌, length, flat_map};
ghost use Rattle.emu_model.specs.declared.packets.Packet.{Packet};
ghost use Rattle.emu_model.specs.Commands.{pipe_lines};
ghost use Rattle.emu_model.specs.Net.{Net};
ghost use Rattle.packet_store.specs.Pocket.{Pocket};
ghost use Rattle.pipe_core.specs.Keyed.{seen_pipe};
ghost use Rattle.emu_model.specs.declared.records.Record.TheVariants.{InstanceLine};
ghost use Rattle.pipe_table.specs.Table.{with_pipes};

use crate::{PipeTable, RecordLog};
use emu_model::{PipeNumber, Record};
use pipe_core::{Pipe, Shown};

// Returns the line of an instance.
fn instance_line(pipe: PipeNumber, index: usize, shown: Shown) -> Record
    requires { index < 256 }
    ensures { result
        ≡ InstanceLine pipe index shown.waiting shown.bytes shown.busy shown.in_flight shown.drawn }
{
    Record::InstanceLine {
        pipe,
        instance: index as u8,
        waiting: shown.waiting,
        bytes: shown.bytes,
        busy: shown.busy,
        in_flight: shown.in_flight,
        drawn: shown.drawn,
    }
}

// Records the line of a pipe, and those of its instances.
fn show_pipe(pipe: &Pipe, log: &mut RecordLog)
    requires { 1 + length pipe.now.slots ≤ log.old.spare }
    ensures records { (f : ℕ → Packet) →
        log.new.records ≡ log.old.records ++ pipe_lines (seen_pipe f pipe.now) }
    ensures room { log.old.spare ≤ log.new.spare + 1 + length pipe.now.slots }
{
    let number = pipe.number();
    log.note(&Record::PipeLine {
        pipe: number,
        config: pipe.config(),
    });
    for index in 0..pipe.instances() {
        let Some(shown) = pipe.shown(index) else {
            unreachable!();
        };
        log.note(&instance_line(number, index, shown));
    }
}

impl PipeTable {
    /// Returns the number of lines that `show` records: one per pipe, and one per instance.
    pub fn lines(&self) -> usize
        ensures { (p : Pocket) (n : Net) →
            result ≡ length (flat_map pipe_lines (with_pipes p self.now n).pipes) }
    {
        let mut lines = 0;
        for pipe in &self.pipes {
            lines += 1 + pipe.instances();
        }
        lines
    }

    /// Records a line for each pipe, followed by its instances, by number. There must be room for
    /// them.
    pub fn show(&self, log: &mut RecordLog)
        requires { (p : Pocket) (n : Net) →
            length (flat_map pipe_lines (with_pipes p self.now n).pipes) ≤ log.old.spare }
        ensures records { (p : Pocket) (n : Net) →
            log.new.records
            ≡ log.old.records ++ flat_map pipe_lines (with_pipes p self.now n).pipes }
        ensures room { (p : Pocket) (n : Net) →
            log.old.spare
            ≤ log.new.spare + length (flat_map pipe_lines (with_pipes p self.now n).pipes) }
    {
        for pipe in &self.pipes {
            show_pipe(pipe, log);
        }
    }
}
