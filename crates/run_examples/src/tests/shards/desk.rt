//! The guests of a shard, which the examples share. Their commands are posted in order.

use super::calls::{Host, advance, poll, put, read, slot_of, take_in};
use crate::tests::wants::{assert_same, assert_with_message};
use control::{Experiment as Plan, ParseError, parse_scenario};
use emu_model::Timed;
use report::report_text;
use shard::{Dossier, ListMail, Parcel, Polled, Turned};
use std::alloc::{AllocError, Global};
use std::process::Abort;
use timer_wheel::Agenda;

/// The capacity of a mail, in letters.
const LETTERS: usize = 64;

/// The maximum number of turns, which is more than any example needs.
pub const MAX_TURNS: u32 = 1_000_000;

/// An experiment of a text, its name on the shards, the number of its commands that were posted,
/// and the expected report.
#[derive(Drop)]
pub struct Guest {
    name: u32,
    plan: Plan,
    posted: usize,
    report: &'static str,
}

impl Guest {
    pub fn name(&self) -> u32 {
        self.name
    }

    pub fn plan(&self) -> &Plan {
        &self.plan
    }

    pub fn commands(&self) -> &[Timed] {
        self.plan.commands.as_slice()
    }

    pub fn report(&self) -> &'static str {
        self.report
    }
}

/// Creates the guest of a text that has exactly one experiment.
pub fn invite(
    rt: &(impl Abort + AllocGlobal),
    name: u32,
    text: &str,
    report: &'static str,
) -> Result<Guest, AllocError> {
    let mut plans = match parse_scenario(rt.alloc(), text.as_bytes()) {
        Ok(scenario) => scenario.into_vec(),
        Err(error) => {
            assert!(rt; matches!(error, ParseError::NoMemory), "{text}");
            return Err(AllocError);
        }
    };
    assert_eq!(rt; plans.len(), 1, "{text}");
    let plan = plans.remove(0);
    Ok(Guest {
        name,
        plan,
        posted: 0,
        report,
    })
}

/// Creates the guests of texts with their expected reports, named from a number on.
pub fn invite_all(
    rt: &(impl Abort + AllocGlobal),
    first: u32,
    cards: &[(&'static str, &'static str)],
) -> Result<Vec<Guest>, AllocError> {
    let mut guests = Vec::new(rt.alloc());
    let mut name = first;
    for (text, report) in cards {
        guests.reserve(1)?;
        let guest = invite(rt, name, text, report)?;
        guests.push_reserved(guest);
        name = name.saturating_add(1);
    }
    Ok(guests)
}

/// Creates a guest's experiment, which has no commands yet.
pub fn parcel(alloc: Global, guest: &Guest) -> Result<Parcel<ListMail>, AllocError> {
    let mail = ListMail::new(alloc)?;
    match Parcel::open(alloc, guest.name, guest.plan.spec, mail) {
        Ok(parcel) => Ok(parcel),
        Err(_) => Err(AllocError),
    }
}

/// Takes a guest in.
pub fn settle<A: Agenda>(
    alloc: Global,
    shard: &mut Host<A>,
    guest: &Guest,
) -> Result<usize, AllocError> {
    let parcel = parcel(alloc, guest)?;
    take_in(shard, parcel).ok_or(AllocError)
}

/// Takes all guests in.
pub fn settle_all<A: Agenda>(
    alloc: Global,
    shard: &mut Host<A>,
    guests: &[Guest],
) -> Result<(), AllocError> {
    for guest in guests {
        settle(alloc, shard, guest)?;
    }
    Ok(())
}

/// Puts a guest's commands into its mail until the mail is full.
pub fn post<A: Agenda>(shard: &mut Host<A>, slot: usize, guest: &mut Guest) {
    for next in guest.posted..guest.commands().len() {
        let Some(timed) = guest.commands().get(next) else {
            return;
        };
        if !matches!(put(shard, slot, *timed), Some(Ok(()))) {
            return;
        }
        guest.posted = next + 1;
    }
}

/// Reads the waiting letters.
pub fn read_all<A: Agenda>(shard: &mut Host<A>, slot: usize) {
    for _ in 0..LETTERS {
        if !matches!(read(shard, slot), Ok(Some(_))) {
            return;
        }
    }
}

/// Posts the commands of each guest that is there, polls it, and reads its letters if `reads` is
/// true. No allocation may fail. Returns the number of guests whose entry is restored after an
/// earlier failure.
pub fn attend<A: Agenda>(
    rt: &impl Abort,
    shard: &mut Host<A>,
    guests: &mut [Guest],
    reads: bool,
) -> u64 {
    let mut resumed = 0u64;
    for guest in guests.iter_mut() {
        let Some(slot) = slot_of(shard, guest.name) else {
            continue;
        };
        post(shard, slot, guest);
        let answer = poll(shard, slot);
        assert_holds!(rt; !matches!(answer, Polled::NoMemory(_)));
        if matches!(answer, Polled::Resumed(_)) {
            resumed = resumed.saturating_add(1);
        }
        if reads {
            read_all(shard, slot);
        }
    }
    resumed
}

/// A turn, and the name of its experiment; for one that has ended also its steps.
#[derive(Clone, Copy, Debug, PartialEq)]
pub enum Move {
    Ran(u32),
    Ended(u32, u64),
    Idle,
}

/// Processes a turn, and checks the report of a guest that ended.
pub fn turn<A: Agenda>(
    rt: &(impl Abort + AllocGlobal),
    shard: &mut Host<A>,
    guests: &[Guest],
) -> Result<Move, AllocError> {
    let turned = advance(shard);
    let seen = seen_of(rt, guests, &turned);
    drop(turned);
    seen
}

// Returns the kind of a turn, and checks the report of a guest that ended.
fn seen_of(
    rt: &(impl Abort + AllocGlobal),
    guests: &[Guest],
    turned: &Turned<ListMail>,
) -> Result<Move, AllocError> {
    match turned {
        Turned::Ran(name) => Ok(Move::Ran(*name)),
        Turned::Idle => Ok(Move::Idle),
        Turned::Ended(left) => {
            has_report(rt, guests, left)?;
            Ok(Move::Ended(left.name(), left.events()))
        }
    }
}

/// Attends and turns until as many experiments have ended as there are guests, each with its
/// report.
pub fn host<A: Agenda>(
    rt: &(impl Abort + AllocGlobal),
    shard: &mut Host<A>,
    guests: &mut [Guest],
    reads: bool,
) -> Result<(), AllocError> {
    let mut ended = 0usize;
    for _ in 0..MAX_TURNS {
        if ended == guests.len() {
            return Ok(());
        }
        assert_same(rt, attend(rt, shard, guests, reads), 0);
        if let Move::Ended(..) = turn(rt, shard, guests)? {
            ended = ended.saturating_add(1);
        }
    }
    assert_with_message(rt, false, "not ended");
    Ok(())
}

/// Checks the report of the guest that left this dossier.
pub fn has_report(
    rt: &(impl Abort + AllocGlobal),
    guests: &[Guest],
    left: &Dossier<ListMail>,
) -> Result<(), AllocError> {
    let (text, wanted) = reports(rt, guests, left)?;
    assert!(rt; text.as_slice() == wanted.as_bytes(), "of {}", left.name());
    Ok(())
}

/// Checks the first lines of the report of a guest that was halted. The last line, with the
/// counters, may differ.
pub fn has_lines(
    rt: &(impl Abort + AllocGlobal),
    guests: &[Guest],
    left: &Dossier<ListMail>,
) -> Result<(), AllocError> {
    let (text, wanted) = reports(rt, guests, left)?;
    assert!(rt;
        begins_like(text.as_slice(), wanted.as_bytes()),
        "of {}",
        left.name()
    );
    Ok(())
}

// Returns the report of a guest's dossier, and the expected one.
fn reports(
    rt: &(impl Abort + AllocGlobal),
    guests: &[Guest],
    left: &Dossier<ListMail>,
) -> Result<(Vec<u8>, &'static str), AllocError> {
    for guest in guests {
        if guest.name == left.name() {
            let name = guest.plan.name.as_bytes();
            let text = report_text(rt.alloc(), name, left.records(), &left.counters())?;
            return Ok((text, guest.report));
        }
    }
    assert!(rt; false, "not invited: {}", left.name());
    Err(AllocError)
}

// Returns true if all lines of a text except the last are the first lines of another text.
fn begins_like(text: &[u8], whole: &[u8]) -> bool {
    let mut end = 0;
    for (at, byte) in text.iter().enumerate() {
        if *byte == b'\n' && at.saturating_add(1) < text.len() {
            end = at;
        }
    }
    if end > text.len() || end > whole.len() {
        return false;
    }
    text[..end] == whole[..end]
}
