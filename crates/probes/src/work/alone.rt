//! Flows that run by themselves, one after the other, for comparison with turns.

ghost use Rattle.packet_store.specs.Own.{own_pocket};
ghost use Rattle.experiment.specs.Kept.{IsHousedIn};

use super::fault::Fault;
use super::plans::{Plan, flow_plan};
use experiment::{Event, Experiment};
use packet_store::OwnShelf;
use std::alloc::Global;

// Processes events until there is nothing more to do.
fn advance(experiment: &mut Experiment, shelf: &mut OwnShelf) -> Result<(), Fault>
    requires { IsHousedIn (own_pocket shelf.old) experiment.old }
    ensures { IsHousedIn (own_pocket shelf.new) experiment.new }
{
    for _ in 0..u64::MAX {
        match experiment.event(shelf, 0) {
            Event::Ran => {}
            Event::Halted => return Err(Fault::Memory),
            Event::Ended | Event::Still => return Ok(()),
        }
    }
    Ok(())
}

// Applies each command in turn.
fn play(experiment: &mut Experiment, shelf: &mut OwnShelf, plan: &Plan) -> Result<(), Fault>
    requires { IsHousedIn (own_pocket shelf.old) experiment.old }
{
    for k in 0..plan.orders.len() {
        if experiment.apply(&plan.orders[k].timed_command()).is_err() {
            return Err(Fault::Memory);
        }
        advance(experiment, shelf)?;
    }
    Ok(())
}

// Runs an experiment to its end, and returns the number of its steps.
fn run(alloc: Global, plan: &Plan) -> Result<u64, Fault> {
    let mut shelf = OwnShelf::new(alloc, plan.spec.budget.packets);
    let Ok(mut experiment) = Experiment::new(alloc, plan.spec) else {
        return Err(Fault::Memory);
    };
    let played = play(&mut experiment, &mut shelf, plan);
    let has_ended = experiment.ending().is_some();
    let events = experiment.events();
    drop(shelf);
    drop(experiment);
    played?;
    if !has_ended {
        return Err(Fault::Unfinished);
    }
    Ok(events)
}

/// Runs `residents` flows one after the other, and returns the number of their steps.
pub fn steps(alloc: Global, residents: usize) -> Result<u64, Fault> {
    let Some(plan) = flow_plan() else {
        return Err(Fault::Range);
    };
    let mut steps = 0u64;
    for _ in 0..residents {
        steps = steps.saturating_add(run(alloc, &plan)?);
    }
    Ok(steps)
}
