//! A mail over two rings, whose other ends belong to a tenant.

ghost use Rattle.std.specs.Prelude.{◌≡◌, IsTrue};
ghost use Rattle.rtrb.specs.Ring.{known_free};

use emu_model::{Record, Timed};
use report::{Archive, Source};
use rtrb::{Consumer, Producer, Protocol};
use shard::Mail;
use std::alloc::Global;

/// A command in transit.
#[derive(Clone, Copy)]
pub struct Posted {
    pub timed: Timed,
}

/// A record in transit.
#[derive(Clone, Copy)]
pub struct News {
    pub letter: Record,
}

/// The commands that a ring accepts: those at times of at most 10^15 ns.
#[derive(Clone, Copy)]
pub struct Moments;

impl Protocol<Posted> for Moments {
    ghost use Rattle.std.specs.Prelude.{◌≤◌, ◌^◌};

    ghost allows = { λ before p. p.timed.moment ≤ 10 ^ 15 };
}

/// The experiment's ends of two rings, one for commands and one for letters, and the packed records
/// that the mail keeps.
#[derive(Drop)]
pub struct RingMail {
    pub(crate) from: Consumer<Posted, Global, Moments>,
    pub(crate) to: Producer<News>,
    pub(crate) kept: Archive,
    // True if no room for a letter was known at the last check.
    full: bool,
    ghost none: { IsTrue full → known_free to ≡ 0 },
}

impl RingMail {
    ghost use Rattle.std.specs.Prelude.{[]};

    pub(crate) fn new(
        alloc: Global,
        from: Consumer<Posted, Global, Moments>,
        to: Producer<News>,
    ) -> Self
        ensures { (result.from ≡ from) × (result.to ≡ to) × (result.kept ≡ []) }
    {
        RingMail {
            from,
            to,
            kept: Archive::new(alloc),
            full: false,
        }
    }
}

impl Mail for RingMail {
    ghost use Rattle.bench.specs.Rings.{ring_seen};

    ghost seen = { ring_seen };

    ghost kept = { λ m. m.kept };

    fn take_command(&mut self) -> Option<Timed> {
        match self.from.pop() {
            Ok(posted) => Some(posted.timed),
            Err(_) => None,
        }
    }

    fn letter(&mut self, news: Record) -> Result<(), Record> {
        // Checked first, so that a letter for which there is no room isn't copied.
        self.full = self.to.is_full();
        if self.full {
            return Err(news);
        }
        self.to.push_reserved(News { letter: news });
        Ok(())
    }

    #[inline(always)]
    fn may_take(&mut self) -> bool {
        let full = self.to.is_full();
        self.full = full;
        !full
    }

    #[inline(always)]
    fn knows_room(&self) -> bool {
        !self.full
    }

    fn keep(&mut self, records: &[Record]) -> bool {
        self.kept.append(records).is_ok()
    }

    #[inline(always)]
    fn kept_len(&self) -> usize {
        self.kept.len()
    }

    fn kept_record(&self, place: usize) -> Option<Record> {
        self.kept.record(place)
    }
}
