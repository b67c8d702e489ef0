//! The other ends of the residents' mails, for mails of two lists.

use crate::list_mail::ListMail;
use crate::resident::Resident;
use crate::shard::Shard;
use emu_model::{Record, Timed};
use timer_wheel::Agenda;

/// The reason why a command was not added, with the command.
#[derive(Clone, Copy, PartialEq)]
pub enum PostError {
    /// The slot has no resident.
    Vacant(Timed),
    /// 64 commands are waiting.
    Full(Timed),
}

/// The slot has no resident.
#[derive(Clone, Copy, Debug, PartialEq, Eq)]
pub struct Vacant;

impl Resident<ListMail> {
    ghost use Rattle.std.specs.Prelude.{◌≡◌, ◌≤◌, ◌<◌, ◌^◌, OnOk, IfErr, OnErr, length};
    ghost use Rattle.shard.specs.Posts.{with_command, Reads};

    // Returns the records.
    fn records(&self) -> &[Record]
        ensures { result.now ≡ self.now.experiment.net.log.records }
    {
        self.body.records()
    }

    // Adds a command to the mail.
    fn put(&mut self, timed: Timed) -> Result<(), Timed>
        requires { timed.moment ≤ 10 ^ 15 }
        ensures ok { OnOk result
            (self.new ≡ record self.old { mail = with_command self.old.mail timed }) }
        ensures room { OnOk result (length self.old.mail.waiting < 64) }
        ensures err { OnErr result (self.new ≡ self.old) }
        ensures back { IfErr result (λ t. t ≡ timed) }
        ensures full { OnErr result (length self.old.mail.waiting ≡ 64) }
    {
        self.body.put(timed)
    }

    // Removes the first unread letter from the mail, and returns it.
    fn read(&mut self) -> Option<Record>
        ensures reads { Reads result self.old.mail self.new.mail }
        ensures same { self.new ≡ record self.old { mail = self.new.mail } }
    {
        self.body.read()
    }
}

impl<A: Agenda> Shard<A, ListMail> {
    ghost use Rattle.std.specs.Prelude.{◌≡◌, ◌≤◌, ◌<◌, ◌^◌, None, OnOk, IfOk, IfErr, OnErr, length};
    ghost use Rattle.shard.specs.Mails.{MailBook};
    ghost use Rattle.shard.specs.Stand.{Seat, seat_at};
    ghost use Rattle.shard.specs.Posts.{ChangedMail, with_command, IsNotPut, Reads};

    /// Adds a command to the mail of a slot's resident, after those that wait. On error returns the
    /// command, and the shard is unchanged: `Vacant` if the slot has no resident, and `Full` if 64
    /// are waiting. Does not allocate.
    pub fn put(&mut self, slot: usize, timed: Timed) -> Result<(), PostError>
        requires { timed.moment ≤ 10 ^ 15 }
        ensures ok { OnOk result ((s : Seat MailBook) × (length s.stand.mail.waiting < 64)
            × ChangedMail self.old self.new slot s (with_command s.stand.mail timed)) }
        ensures back { IfErr result (IsNotPut timed self.old slot) }
        ensures err { OnErr result (self.new ≡ self.old) }
    {
        if slot >= self.slots.len() {
            return Err(PostError::Vacant(timed));
        }
        let Some(resident) = &mut self.slots[slot] else {
            return Err(PostError::Vacant(timed));
        };
        match resident.put(timed) {
            Ok(()) => return Ok(()),
            Err(timed) => return Err(PostError::Full(timed)),
        }
    }

    /// Removes the first unread letter from the mail of a slot's resident, and returns it, or None
    /// if there is none.
    pub fn read(&mut self, slot: usize) -> Result<Option<Record>, Vacant>
        ensures ok { IfOk result
            (λ letter. (s : Seat MailBook) × (mail : MailBook) × Reads letter s.stand.mail mail
            × ChangedMail self.old self.new slot s mail) }
        ensures vacant { OnErr result (seat_at self.old.seats slot ≡ None) }
        ensures err { OnErr result (self.new ≡ self.old) }
    {
        if slot >= self.slots.len() {
            return Err(Vacant);
        }
        let Some(resident) = &mut self.slots[slot] else {
            return Err(Vacant);
        };
        Ok(resident.read())
    }

    /// Returns the records of a slot's resident, or `Vacant` if the slot has none.
    pub fn records(&self, slot: usize) -> Result<&[Record], Vacant>
        ensures there { IfOk result (λ rs. (s : Seat MailBook) × (seat_at self.now.seats slot ≡ Some s)
            × (rs.now ≡ s.stand.state.net.records)) }
        ensures vacant { OnErr result (seat_at self.now.seats slot ≡ None) }
    {
        let resident = self.resident(slot)?;
        Ok(resident.records())
    }
}
