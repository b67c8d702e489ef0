//! Random steps of worlds, which must leave the reports that each experiment has when it runs alone.
//!
//! `probes random LISTS STEPS SEED [on]` reads a scenario from standard input, and runs LISTS random
//! lists of STEPS steps each, drawn from SEED. Each list has a world of its own with the scenario's
//! experiments, which then runs to its end.
//!
//! Standard output has the reports of the worlds, which are the same for each list. If they are
//! not, the program exits with status 1 and prints on standard error which list left different
//! ones. It also prints there how many steps were performed and done. With `on` it continues after
//! failed allocations; a line `halted` follows the report of an experiment that was halted.

mod fault;
mod guests;
mod lists;
mod stage;
mod words;

use fault::Fault;
use guests::Guest;
use lists::{Plan, Tally, left_by};
use std::alloc::Global;
use std::io::{self, Read, Write};
use timer_wheel::{ListAgenda, Wheel};
use words::task_of;
use world::World;

// Returns the reports of one list: alternately over a wheel and over a list of dues.
fn one(
    alloc: Global,
    guests: &mut [Guest],
    plan: Plan,
    tally: &mut Tally,
) -> Result<Vec<u8>, Fault> {
    if plan.list % 2 == 0 {
        left_by::<World<Wheel>>(alloc, guests, plan, tally)
    } else {
        left_by::<World<ListAgenda>>(alloc, guests, plan, tally)
    }
}

// Returns the reports of all lists, which are those of the first.
fn all(
    alloc: Global,
    guests: &mut [Guest],
    first: Plan,
    lists: u32,
    tally: &mut Tally,
) -> Result<Vec<u8>, Fault> {
    let wanted = one(alloc, guests, first, tally)?;
    for list in 1..lists {
        let left = one(alloc, guests, Plan { list, ..first }, tally)?;
        if left.as_slice() != wanted.as_slice() {
            return Err(Fault::Differs(list));
        }
    }
    Ok(wanted)
}

/// Performs the task that the arguments (the program's name and a word first) request.
pub fn run(rt: &HostRuntime, alloc: Global, words: &[String]) -> anyhow::Result<()> {
    let task = task_of(words)?;
    let mut text = Vec::new(alloc);
    rt.reader().read_to_end(&mut text)?;
    let mut guests = guests::guests_in(alloc, text.as_slice())?;
    let mut tally = Tally::new(task.goes_on);
    let first = Plan {
        list: 0,
        steps: task.steps,
        seed: task.seed,
    };
    let reports = all(alloc, guests.as_mut_slice(), first, task.lists, &mut tally)?;
    io::writer(rt).write_all(reports.as_slice())?;
    eprintln!(rt;
        "steps {}, of these done {}, refused {}, moves {}",
        tally.steps, tally.done, tally.refused, tally.moves
    )?;
    Ok(())
}
