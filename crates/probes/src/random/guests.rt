//! The experiments of a scenario as guests of a world, whose commands are posted in their order.

use super::fault::Fault;
use control::{Experiment, ParseError, parse_scenario};
use emu_model::Spec;
use std::alloc::{AllocError, Global};
use world::Step;

/// An experiment, and the number of its commands that were posted.
#[derive(Drop)]
pub struct Guest {
    plan: Experiment,
    posted: usize,
}

impl Guest {
    pub fn spec(&self) -> Spec {
        self.plan.spec
    }

    pub fn title(&self) -> &[u8] {
        self.plan.name.as_bytes()
    }

    /// Resets the guest, so that none of its commands was posted.
    pub fn again(&mut self) {
        self.posted = 0;
    }
}

/// Returns the guests of a text.
pub fn guests_in(alloc: Global, text: &[u8]) -> Result<Vec<Guest>, Fault> {
    match parse_scenario(alloc, text) {
        Ok(scenario) => Ok(guests_of(alloc, scenario.into_vec())?),
        Err(ParseError::Fault(_)) => Err(Fault::Scenario),
        Err(ParseError::NoMemory) => Err(Fault::Memory),
    }
}

fn guests_of(alloc: Global, plans: Vec<Experiment>) -> Result<Vec<Guest>, AllocError> {
    let mut guests = Vec::new(alloc);
    for plan in plans {
        guests.push(Guest { plan, posted: 0 })?;
    }
    Ok(guests)
}

/// Returns the name of a guest. Names begin at 0.
pub fn name_of(index: usize) -> u32 {
    u32::try_from(index).unwrap_or(u32::MAX)
}

/// Returns the post of a name's next command, or `None` if all were posted or no guest has the
/// name.
pub fn next_post(guests: &[Guest], name: u32) -> Option<Step> {
    let guest = guests.get(name as usize)?;
    let timed = *guest.plan.commands.as_slice().get(guest.posted)?;
    Some(Step::Post { name, timed })
}

/// Records that a name's next command was taken.
pub fn was_posted(guests: &mut [Guest], name: u32) {
    if let Some(guest) = guests.get_mut(name as usize) {
        guest.posted = guest.posted.saturating_add(1);
    }
}
