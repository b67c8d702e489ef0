//! The guests of a world, which the examples share. Their commands are posted in order.

use super::calls::{Stage, step};
use crate::tests::wants::assert_with_message;
use control::{Experiment as Plan, ParseError, parse_scenario};
use emu_model::Spec;
use std::alloc::AllocError;
use std::process::Abort;
use world::{Place, Step};

/// The maximum number of rounds, which is more than any example needs.
pub const MAX_ROUNDS: u32 = 1_000_000;

/// An experiment of a text, the number of its commands that were posted, and its report.
#[derive(Drop)]
pub struct Guest {
    plan: Plan,
    posted: usize,
    report: &'static str,
}

impl Guest {
    pub fn spec(&self) -> Spec {
        self.plan.spec
    }

    /// Resets the guest, so that none of its commands was posted.
    pub fn again(&mut self) {
        self.posted = 0;
    }
}

// Returns the only experiment of a text.
fn plan(rt: &(impl Abort + AllocGlobal), text: &str) -> Result<Plan, AllocError> {
    match parse_scenario(rt.alloc(), text.as_bytes()) {
        Ok(scenario) => {
            let mut plans = scenario.into_vec();
            assert_eq!(rt; plans.len(), 1, "{text}");
            return Ok(plans.remove(0));
        }
        Err(error) => {
            assert!(rt; matches!(error, ParseError::NoMemory), "{text}");
            return Err(AllocError);
        }
    }
}

/// Creates the guest of a text that has exactly one experiment.
pub fn invite(
    rt: &(impl Abort + AllocGlobal),
    text: &str,
    report: &'static str,
) -> Result<Guest, AllocError> {
    Ok(Guest {
        plan: plan(rt, text)?,
        posted: 0,
        report,
    })
}

/// Creates the guests of texts, each with its report.
pub fn invite_all(
    rt: &(impl Abort + AllocGlobal),
    texts: &[(&'static str, &'static str)],
) -> Result<Vec<Guest>, AllocError> {
    let mut guests = Vec::new(rt.alloc());
    for (text, report) in texts {
        guests.push(invite(rt, *text, *report)?)?;
    }
    Ok(guests)
}

/// Returns the name of a guest. Names begin at 0.
pub fn name_of(index: usize) -> u32 {
    u32::try_from(index).unwrap_or(u32::MAX)
}

/// Returns the post of a name's next command, or `None` if all were posted.
pub fn next_post(guests: &mut [Guest], name: u32) -> Option<Step> {
    let guest = guests.get_mut(name as usize)?;
    let timed = *guest.plan.commands.as_slice().get(guest.posted)?;
    guest.posted = guest.posted.saturating_add(1);
    Some(Step::Post { name, timed })
}

/// Registers all guests, in their order.
pub fn register<W: Stage>(world: &mut W, guests: &[Guest]) -> Result<(), AllocError> {
    for guest in guests {
        step(world, Step::Registered(guest.spec()))?;
    }
    Ok(())
}

/// Posts all remaining commands of a name.
pub fn post_all<W: Stage>(
    world: &mut W,
    guests: &mut [Guest],
    name: u32,
) -> Result<(), AllocError> {
    for _ in 0..64 {
        let Some(post) = next_post(guests, name) else {
            return Ok(());
        };
        step(world, post)?;
    }
    Ok(())
}

// Performs steps that bring a name closer to its end. Returns false if the name has ended or
// doesn't exist.
fn help<W: Stage>(world: &mut W, guests: &mut [Guest], name: u32) -> Result<bool, AllocError> {
    match world.place_of(name) {
        Some(Place::HandedOut) => step(world, Step::Admit { name, shard: 0 })?,
        Some(Place::InDeque { shard }) => step(world, Step::Retake { shard })?,
        Some(Place::Resident { shard, slot }) => {
            post_all(world, guests, name)?;
            step(world, Step::Poll { shard, slot })?;
            step(world, Step::Turn { shard })?
        }
        Some(Place::Ended) => return Ok(false),
        None => return Ok(false),
    };
    Ok(true)
}

/// Runs all names to their ends.
pub fn finish<W: Stage>(
    rt: &(impl Abort + AllocGlobal),
    world: &mut W,
    guests: &mut [Guest],
) -> Result<(), AllocError> {
    for _ in 0..MAX_ROUNDS {
        let mut left = false;
        for index in 0..guests.len() {
            if help(world, guests, name_of(index))? {
                left = true;
            }
        }
        if !left {
            return Ok(());
        }
    }
    assert_with_message(rt, false, "not ended");
    Ok(())
}

// Checks the guest's report. If the guest was halted, it checks that the lines except the last
// begin the report, and returns false. Returns `None` if the guest hasn't ended.
fn has_report<W: Stage>(
    rt: &(impl Abort + AllocGlobal),
    world: &W,
    guest: &Guest,
    name: u32,
) -> Result<Option<bool>, AllocError> {
    let title = guest.plan.name.as_bytes();
    let Some(written) = world.report_of(rt.alloc(), name, title)? else {
        return Ok(None);
    };
    let text = written.text.as_slice();
    if written.halted {
        assert_holds!(rt; begins_like(text, guest.report.as_bytes()));
        return Ok(Some(false));
    }
    assert_holds!(rt; text == guest.report.as_bytes());
    Ok(Some(true))
}

// Returns true if all lines of a text except the last are the first lines of another text.
fn begins_like(text: &[u8], whole: &[u8]) -> bool {
    let mut end = 0;
    for (at, byte) in text.iter().enumerate() {
        if *byte == b'\n' && at.saturating_add(1) < text.len() {
            end = at;
        }
    }
    if end > text.len() || end > whole.len() {
        return false;
    }
    text[..end] == whole[..end]
}

/// The number of names that have ended with their reports, and the number that were halted, with
/// the first lines of theirs.
#[derive(Clone, Copy)]
pub struct Reports {
    pub whole: usize,
    pub cut: usize,
}

/// Checks the reports of all names that have ended.
pub fn reports_of_ended<W: Stage>(
    rt: &(impl Abort + AllocGlobal),
    world: &W,
    guests: &[Guest],
) -> Result<Reports, AllocError> {
    let mut reports = Reports { whole: 0, cut: 0 };
    for (index, guest) in guests.iter().enumerate() {
        match has_report(rt, world, guest, name_of(index))? {
            Some(true) => reports.whole = reports.whole.saturating_add(1),
            Some(false) => reports.cut = reports.cut.saturating_add(1),
            None => {}
        }
    }
    Ok(reports)
}
