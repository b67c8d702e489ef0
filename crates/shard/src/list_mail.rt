//! A mail of two lists, which has both ends of each.

ghost use Rattle.std.specs.Prelude.{◌≡◌, ◌≤◌, ◌<◌, ◌^◌, [], ◌∷◌, ◌++◌, length, IfOk, IfErr, OnOk, OnErr, IfSome, IfNone, IsOk};
ghost use Rattle.rtrb.specs.Ring.{sent, received, known_items, producer_capacity, IsPair};
ghost use Rattle.shard.specs.Mails.{mail_seen};

use crate::mail::Mail;
use emu_model::{Record, Timed};
use rtrb::{Consumer, Producer, Protocol, RingBuffer};
use std::alloc::{AllocError, Global};
use std::marker::Model;

/// The maximum number of commands that wait in a mail, and of letters.
pub const SLOTS: usize = 64;

// A command in transit.
#[derive(Clone, Copy)]
struct Posted {
    timed: Timed,
}

// A record in transit.
#[derive(Clone, Copy)]
struct News {
    record_of: Record,
}

/// The commands that a mail accepts: those at times of at most 10^15 ns.
pub struct Moments;

impl Protocol<Posted> for Moments {
    ghost use Rattle.std.specs.Prelude.{◌≤◌, ◌^◌};

    ghost allows = { λ before p. p.timed.moment ≤ 10 ^ 15 };
}

/// A mail of two lists of at most 64 items, with both ends of each: commands that wait, and letters
/// that are unread. Contracts see the commands it has delivered, those that wait, and the read and
/// unread letters.
#[derive(Drop)]
pub struct ListMail {
    put: Producer<Posted, Global, Moments>,
    commands: Consumer<Posted, Global, Moments>,
    news: Producer<News>,
    letters: Consumer<News>,
}

impl Model for ListMail {
    ghost use Rattle.std.specs.Prelude.{◌≡◌, ◌++◌};
    ghost use Rattle.rtrb.specs.Ring.{sent, received, known_items, producer_capacity, IsPair};
    ghost use Rattle.shard.specs.Mails.{MailBook, commands_of, records_of};

    ghost Value = { MailBook };

    ghost view = { λ m. record {
      given = commands_of (received m.commands);
      waiting = commands_of (known_items m.commands);
      read = records_of (received m.letters);
      unread = records_of (known_items m.letters);
    } };

    ghost invariant = { λ m. IsPair m.put m.commands
        × (received m.commands ++ known_items m.commands ≡ sent m.put)
        × (producer_capacity m.put ≡ 64)
        × IsPair m.news m.letters × (received m.letters ++ known_items m.letters ≡ sent m.news)
        × (producer_capacity m.news ≡ 64) };
}

impl ListMail {
    /// Creates an empty mail, with room for everything that it may hold.
    pub fn new(alloc: Global) -> Result<Self, AllocError>
        ensures { IfOk result
            (λ m. m ≡ record { given = []; waiting = []; read = []; unread = [] }) }
    {
        let (put, commands) = RingBuffer::with_protocol::<Global, Moments>(alloc, SLOTS)?;
        let (news, letters) = RingBuffer::new(alloc, SLOTS)?;
        Ok(ListMail {
            put,
            commands,
            news,
            letters,
        })
    }

    /// Adds a command after those that wait, or returns it if 64 are waiting. Does not allocate.
    pub fn put(&mut self, timed: Timed) -> Result<(), Timed>
        requires { timed.moment ≤ 10 ^ 15 }
        ensures ok { OnOk result
            (self.new ≡ record self.old { waiting = self.old.waiting ++ timed ∷ [] }) }
        ensures room { OnOk result (length self.old.waiting < 64) }
        ensures err { OnErr result (self.new ≡ self.old) }
        ensures back { IfErr result (λ t. t ≡ timed) }
        ensures full { OnErr result (length self.old.waiting ≡ 64) }
        ensures succeeds { length self.old.waiting < 64 → IsOk result }
    {
        if self.put.slots_beside(&mut self.commands) == 0 {
            return Err(timed);
        }
        self.put.push_reserved(Posted { timed });
        self.commands.slots_beside(&mut self.put);
        Ok(())
    }

    /// Removes the first unread letter, and returns it, or None if there is none.
    pub fn read(&mut self) -> Option<Record>
        ensures some { IfSome result
            (λ r. (self.old.unread ≡ r ∷ self.new.unread)
            × (self.new
            ≡ record self.old { read = self.old.read ++ r ∷ []; unread = self.new.unread })) }
        ensures none { IfNone result ((self.old.unread ≡ []) × (self.new ≡ self.old)) }
    {
        if self.letters.slots_beside(&mut self.news) == 0 {
            return None;
        }
        let news = self.letters.pop_known();
        Some(news.record_of)
    }
}

impl Mail for ListMail {
    ghost seen = { mail_seen };

    ghost kept = { λ _. [] };

    fn take_command(&mut self) -> Option<Timed> {
        if self.commands.slots_beside(&mut self.put) == 0 {
            return None;
        }
        let posted = self.commands.pop_known();
        Some(posted.timed)
    }

    fn letter(&mut self, news: Record) -> Result<(), Record> {
        if self.news.slots_beside(&mut self.letters) == 0 {
            return Err(news);
        }
        self.news.push_reserved(News { record_of: news });
        self.letters.slots_beside(&mut self.news);
        Ok(())
    }

    fn may_take(&mut self) -> bool {
        true
    }

    fn knows_room(&self) -> bool {
        true
    }

    fn keep(&mut self, _records: &[Record]) -> bool {
        false
    }

    fn kept_len(&self) -> usize {
        0
    }

    fn kept_record(&self, _place: usize) -> Option<Record> {
        None
    }
}
