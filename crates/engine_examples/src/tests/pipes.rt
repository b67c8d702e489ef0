//! Worked pipes, computed by hand, and instances without a pipe.

mod bench;
mod instances;
mod pipes;
mod tables;

use emu_model::{Bandwidth, Delay, Discipline, LossRate, Mask, PipeConfig, QueueLimit};

/// The first time (ns) that is too late for an event.
const END: u64 = 2_000_000_000_000_000;

/// Returns a pipe for all packets with this bandwidth (bit/s) and delay (ms).
fn pipe(bw: u64, delay: u16, queue: QueueLimit, discipline: Discipline) -> Option<PipeConfig> {
    Some(PipeConfig {
        bw: Bandwidth::new(bw)?,
        delay: Delay::new(delay)?,
        queue,
        plr: LossRate::new(0)?,
        mask: Mask {
            proto: 0,
            src: 0,
            dst: 0,
            sport: 0,
            dport: 0,
        },
        discipline,
    })
}
