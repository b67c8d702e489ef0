//! The tenant's side: it posts the commands of its experiment, reads its letters, and keeps both.

ghost use Rattle.std.specs.Prelude.{◌≡◌};
ghost use Rattle.std.specs.Bool.{Decides};
ghost use Rattle.experiment.specs.Kept.{last_moment};
ghost use Rattle.emu_model.specs.Commands.{is_end, has_end};
ghost use Rattle.rtrb.specs.Ring.{sent, received, producer_capacity};
ghost use Rattle.bench.specs.Rings.{commands_of, letters_of};
ghost use Rattle.bench.specs.Commands.{BeginsWith, Took};

use crate::mail::{Moments, News, Posted, RingMail};
use crate::outcome::Outcome;
use emu_model::{Command, Ending, LATEST_MOMENT, Record, Spec, Timed};
use rtrb::{Consumer, Producer, PushError};
use shard::Dossier;
use std::alloc::{AllocError, Global};

/// A tenant, which posts an experiment's commands and reads its letters, and keeps both.
#[derive(Drop)]
pub struct Tenant {
    name: u32,
    spec: Spec,
    to: Producer<Posted, Global, Moments>,
    from: Consumer<News>,
    posted: Vec<Timed>,
    read: Vec<Record>,
    last: u64,
    closed: bool,
    pub ghost sends: { commands_of (sent to) ≡ posted.items },
    pub ghost gets: { letters_of (received from) ≡ read.items },
    pub ghost latest: { last ≡ last_moment 0 posted.items },
    pub ghost closes: { closed ≡ has_end posted.items },
    pub ghost slots: { producer_capacity to ≡ 64 },
}

/// The reason why a command was not posted, in this order: an `end` was posted (45), its time is
/// after 10^15 ns (42) or before that of the last posted command (40), memory ran out, or 64 posted
/// commands are not known to be taken (41).
#[derive(Clone, Copy, Debug, PartialEq, Eq)]
pub enum PostError {
    Closed = 45,
    TooLate = 42,
    Early = 40,
    NoMemory = 99,
    MailFull = 41,
}

/// A command that was not posted, and the reason.
#[derive(Clone, Copy)]
pub struct RefusedPost {
    pub cause: PostError,
    pub command: Timed,
}

/// A dossier that doesn't belong to the tenant (43).
#[derive(Drop)]
pub struct Strange {
    pub tenant: Tenant,
    pub dossier: Dossier<RingMail>,
}

impl Tenant {
    ghost use Rattle.std.specs.Prelude.{◌≡◌, [], ◌∷◌, ◌++◌, OnOk, IfOk, IfErr, OnErr, MatchOption, length};
    ghost use Rattle.std.specs.Bool.{Decides};
    ghost use Rattle.rtrb.specs.Ring.{sent, received, producer_capacity};
    ghost use Rattle.bench.specs.Tenants.{posted, letters_read, SameTenant, MayPost, PostFails, NoneWaits, Fits};
    ghost use Rattle.bench.specs.Outcomes.{settled};

    pub(crate) fn new(
        alloc: Global,
        name: u32,
        spec: Spec,
        to: Producer<Posted, Global, Moments>,
        from: Consumer<News>,
    ) -> Tenant
        requires sends { sent to ≡ [] }
        requires gets { received from ≡ [] }
        requires slots { producer_capacity to ≡ 64 }
        ensures given { (result.name ≡ name) × (result.spec ≡ spec) × (posted result ≡ [])
            × (letters_read result ≡ []) }
        ensures ends { (result.to ≡ to) × (result.from ≡ from) }
    {
        Tenant {
            name,
            spec,
            to,
            from,
            posted: Vec::new(alloc),
            read: Vec::new(alloc),
            last: 0,
            closed: false,
        }
    }

    /// Returns the name.
    pub fn name(&self) -> u32
        ensures { result ≡ self.now.name }
    {
        self.name
    }

    /// Returns the specification with which the tenant was opened.
    pub fn spec(&self) -> Spec
        ensures { result ≡ self.now.spec }
    {
        self.spec
    }

    /// Returns the number of commands posted.
    pub fn posted_len(&self) -> usize
        ensures { result ≡ length (posted self.now) }
    {
        self.posted.len()
    }

    /// Returns the letters that were read.
    pub fn letters(&self) -> &[Record]
        ensures { result.now ≡ letters_read self.now }
    {
        &self.read
    }

    /// Posts a command, at a time (ns), after those already posted, or returns it with the first
    /// reason that applies.
    pub fn post(&mut self, command: Timed) -> Result<(), RefusedPost>
        ensures same { SameTenant self.old self.new
            × (letters_read self.new ≡ letters_read self.old) }
        ensures ok { OnOk result
            ((posted self.new ≡ posted self.old ++ command ∷ [])
            × MayPost (posted self.old) command) }
        ensures back { IfErr result
            (λ e. (e.command ≡ command) × (posted self.new ≡ posted self.old)) }
        ensures cause { IfErr result (λ e. PostFails e.cause self.old self.new command) }
    {
        if self.closed {
            return Err(hand_back(PostError::Closed, command));
        }
        if command.moment > LATEST_MOMENT {
            return Err(hand_back(PostError::TooLate, command));
        }
        if command.moment < self.last {
            return Err(hand_back(PostError::Early, command));
        }
        if self.posted.reserve(1).is_err() {
            return Err(hand_back(PostError::NoMemory, command));
        }
        match self.to.push(Posted { timed: command }) {
            Ok(()) => {
                self.posted.push_reserved(command);
                self.last = command.moment;
                self.closed = is_end_command(&command.command);
                return Ok(());
            }
            Err(PushError::Full(_)) => return Err(hand_back(PostError::MailFull, command)),
        }
    }

    /// Reads the next letter, if there is one; returns None only if none is known to wait. If
    /// memory runs out, no letter is removed.
    pub fn read(&mut self) -> Result<Option<Record>, AllocError>
        ensures same { SameTenant self.old self.new × (posted self.new ≡ posted self.old) }
        ensures ok { IfOk result
            (λ o. MatchOption o (letters_read self.new ≡ letters_read self.old)
            (λ x. letters_read self.new ≡ letters_read self.old ++ x ∷ [])) }
        ensures none { IfOk result (λ o. MatchOption o (NoneWaits self.new) (λ _. Unit {0})) }
        ensures err { OnErr result (letters_read self.new ≡ letters_read self.old) }
    {
        self.read.reserve(1)?;
        match self.from.pop() {
            Ok(news) => {
                self.read.push_reserved(news.letter);
                return Ok(Some(news.letter));
            }
            Err(_) => return Ok(None),
        }
    }

    // Returns true if the dossier belongs to this tenant.
    fn fits(&self, dossier: &Dossier<RingMail>) -> bool
        ensures { Decides result (Fits self.now dossier.now) }
    {
        dossier.name() == self.name
            && dossier.spec() == self.spec
            && matches_posted(dossier.ending(), self.posted.as_slice(), dossier.consumed())
            && begins(dossier, self.read.as_slice())
    }

    /// Accepts a dossier as its own, exactly if the name and specification are its own, the
    /// dossier's commands are a prefix of the posted ones (all of them, if it ended by its
    /// command), and the letters read are a prefix of its records. Otherwise returns both. Does not
    /// allocate.
    pub fn settle(self, dossier: Dossier<RingMail>) -> Result<Outcome, Strange>
        ensures fits { IfOk result (λ _. Fits self dossier) }
        ensures outcome { IfOk result (λ o. o ≡ settled dossier) }
        ensures strange { IfErr result (λ s. (s.tenant ≡ self) × (s.dossier ≡ dossier)) }
        ensures differs { OnErr result (¬ Fits self dossier) }
    {
        if !self.fits(&dossier) {
            return Err(Strange {
                tenant: self,
                dossier,
            });
        }
        Ok(Outcome::new(dossier))
    }
}

fn hand_back(cause: PostError, command: Timed) -> RefusedPost
    ensures { (result.cause ≡ cause) × (result.command ≡ command) }
{
    RefusedPost { cause, command }
}

fn is_end_command(command: &Command) -> bool
    ensures { result ≡ is_end command.now }
{
    matches!(command, Command::End)
}

// Returns true if the first list begins with the second.
fn starts(all: &[Timed], first: &[Timed]) -> bool
    ensures { Decides result (BeginsWith all.now first.now) }
{
    first.len() <= all.len() && &all[..first.len()] == first
}

// Returns true if the records of a dossier begin with these.
fn begins(dossier: &Dossier<RingMail>, first: &[Record]) -> bool
    ensures { Decides result (BeginsWith dossier.now.records first.now) }
{
    for place in 0..first.len() {
        if dossier.record(place) != Some(first[place]) {
            return false;
        }
    }
    true
}

// Returns true if these commands were taken from the posted ones, as the ending implies.
fn matches_posted(ending: Ending, posted: &[Timed], commands: &[Timed]) -> bool
    ensures { Decides result (Took ending posted.now commands.now) }
{
    match ending {
        Ending::Ended => return commands == posted,
        Ending::Spent => return starts(posted, commands),
        Ending::Halted => return starts(posted, commands),
    }
}
