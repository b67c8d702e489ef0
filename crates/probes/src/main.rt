//! `probes`: work that tools start. The first word chooses it.
//!
//! - `probes work ..`: a given amount of work by one part, to be timed from outside.
//! - `probes random ..`: random steps of worlds, which must leave the same reports.
//! - `probes all ..`: `work` without further words, and then `random` with them.
//!
//! The heads of `work.rt` and `random.rt` list the further words.
#![tactic(auto)]

mod random;
mod work;

use std::env;
use thiserror::Error;

/// The work to do.
#[derive(Clone, Copy, Debug, PartialEq)]
enum Probe {
    Work,
    Random,
    All,
}

/// The reason why no work is done.
#[derive(Clone, Copy, Debug, Drop, Error, PartialEq)]
enum Fault {
    /// The first argument is not one of the program.
    #[error("words: work, random or all, and what follows it")]
    Words,
}

// Returns what the first of the arguments (the program's name before it) chooses.
fn probe_of(words: &[String]) -> Result<Probe, Fault> {
    let Some(word) = words.get(1) else {
        return Err(Fault::Words);
    };
    match word.as_str() {
        "work" => Ok(Probe::Work),
        "random" => Ok(Probe::Random),
        "all" => Ok(Probe::All),
        _ => Err(Fault::Words),
    }
}

fn main(rt: HostRuntime) -> anyhow::Result<()> {
    let alloc = rt.alloc();
    let words = env::args(&rt)?.collect::<Vec<String>>(alloc)?;
    match probe_of(words.as_slice())? {
        Probe::Work => work::run(&rt, alloc, words.as_slice()),
        Probe::Random => random::run(&rt, alloc, words.as_slice()),
        Probe::All => {
            work::do_a_little(&rt, alloc)?;
            random::run(&rt, alloc, words.as_slice())
        }
    }
}
