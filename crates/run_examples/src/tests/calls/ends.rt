//! Readers and writers of our own: they transfer one byte at a time, are interrupted before each,
//! and fail at each in turn.

ghost use Rattle.std.specs.Prelude.{◌≡◌, ◌<◌, true};
ghost use Rattle.alone.specs.Troubles.{has_failed};

use super::*;

/// A reader that returns one byte at each read. It is interrupted `interrupts` times before each of
/// them, and fails at the read after `reads` reads.
#[derive(Drop)]
struct Drip<'a> {
    left: &'a [u8],
    reads: usize,
    interrupts: u32,
    patience: u32,
    failed: bool,
}

impl Inlet for Drip<'_> {
    ghost use Rattle.std.specs.Prelude.{None, Some};
    ghost use Rattle.std.specs.Io.KnownBytes.{Consumes};
    ghost use Rattle.std.proofs.KnownBytes.{Consumes-nil, Consumes-trans};

    ghost remaining = { λ _. None };

    ghost gives = { λ d bytes e. Consumes (Some d.left.now) (Some e.left.now) bytes };

    ghost failed = { λ d. d.failed };

    ghost patience = { λ d. d.patience };

    ghost gives_none = { λ d. Consumes-nil (Some d.left.now) };

    ghost gives_both = { λ a b c. Consumes-trans (Some a.left.now) (Some b.left.now) (Some c.left.now) };

    fn read(&mut self, room: &mut [u8]) -> Result<usize, Trouble> {
        if self.failed {
            return Err(Trouble::Failed);
        }
        if self.patience > 0 {
            self.patience -= 1;
            return Err(Trouble::Interrupted);
        }
        if self.reads == 0 {
            self.failed = true;
            return Err(Trouble::Failed);
        }
        self.reads -= 1;
        self.patience = self.interrupts;
        if self.left.is_empty() || room.is_empty() {
            return Ok(0);
        }
        room[0] = self.left[0];
        self.left = &self.left[1..];
        Ok(1)
    }
}

/// A writer that accepts one byte at each write. It is interrupted `interrupts` times before each
/// of them and before a flush, and fails at the call after `calls` calls.
#[derive(Drop)]
struct Drain {
    taken: Vec<u8>,
    calls: usize,
    interrupts: u32,
    patience: u32,
    failed: bool,
}

impl Drain {
    // Begins a call. Returns an error if the call is interrupted or fails.
    fn begin(&mut self) -> Result<(), Trouble>
        ensures failed { self.new.failed ≡ has_failed result }
        ensures stays { self.old.failed ≡ true → result ≡ Err Trouble.Failed }
        ensures patience { result ≡ Err Trouble.Interrupted →
            self.new.patience < self.old.patience }
    {
        if self.failed {
            return Err(Trouble::Failed);
        }
        if self.patience > 0 {
            self.patience -= 1;
            return Err(Trouble::Interrupted);
        }
        if self.calls == 0 {
            self.failed = true;
            return Err(Trouble::Failed);
        }
        self.calls -= 1;
        self.patience = self.interrupts;
        Ok(())
    }
}

impl Outlet for Drain {
    ghost use Rattle.std.specs.Prelude.{None};

    ghost contents = { λ _. None };

    ghost failed = { λ d. d.failed };

    ghost patience = { λ d. d.patience };

    fn write(&mut self, bytes: &[u8]) -> Result<usize, Trouble> {
        self.begin()?;
        let Ok(()) = self.taken.push(bytes[0]) else {
            self.failed = true;
            return Err(Trouble::Failed);
        };
        Ok(1)
    }

    fn flush(&mut self) -> Result<(), Trouble> {
        self.begin()
    }
}

// Creates a reader of this text.
fn drip_of(text: &str, reads: usize, interrupts: u32) -> Drip<'_> {
    Drip {
        left: text.as_bytes(),
        reads,
        interrupts,
        patience: interrupts,
        failed: false,
    }
}

// Creates a writer that holds nothing yet.
fn new_drain(alloc: Global, calls: usize, interrupts: u32) -> Drain {
    Drain {
        taken: Vec::new(alloc),
        calls,
        interrupts,
        patience: interrupts,
        failed: false,
    }
}

/// The output of each way for `one_packet`.
const WRITTEN: [(Way, &str); 3] = [
    (Way::Alone, texts::ONE_PACKET_REPORT),
    (Way::Together, texts::ONE_PACKET_REPORT),
    (Way::Check, "ok 1 4\n"),
];

#[test]
fn byte_by_byte(rt: HostRuntime) {
    // One read for each byte and one for the end, and one write for each byte and a flush: no more
    // calls.
    for (way, report) in WRITTEN {
        for interrupts in [0, 1, 100] {
            let mut reader = drip_of(texts::ONE_PACKET, texts::ONE_PACKET.len() + 1, interrupts);
            let mut writer = new_drain(rt.alloc(), report.len() + 1, interrupts);
            let outcome = call(&rt, rt.alloc(), way, &mut reader, &mut writer);
            assert!(rt; outcome == Ok(()));
            assert!(rt; writer.taken.as_slice() == report.as_bytes());
            assert!(rt; !reader.failed && !writer.failed);
            assert!(rt; reader.reads == 0 && writer.calls == 0);
        }
    }
}

#[test]
fn each_byte_fails(rt: HostRuntime) {
    for (way, _) in WRITTEN {
        for reads in 0..=texts::ONE_PACKET.len() {
            let mut reader = drip_of(texts::ONE_PACKET, reads, 1);
            let mut writer = new_drain(rt.alloc(), 0, 0);
            let outcome = call(&rt, rt.alloc(), way, &mut reader, &mut writer);
            assert!(rt; outcome == Err(RunFault::Read));
            assert!(rt; reader.failed && !writer.failed);
            assert_eq!(rt; reader.left.len(), texts::ONE_PACKET.len() - reads);
        }
    }
}

#[test]
fn each_written_byte_fails(rt: HostRuntime) {
    for (way, report) in WRITTEN {
        for calls in 0..=report.len() {
            let mut reader = drip_of(texts::ONE_PACKET, usize::MAX, 0);
            let mut writer = new_drain(rt.alloc(), calls, 1);
            let outcome = call(&rt, rt.alloc(), way, &mut reader, &mut writer);
            assert!(rt; outcome == Err(RunFault::Write));
            assert!(rt; writer.failed && !reader.failed);
            assert!(rt; writer.taken.as_slice() == &report.as_bytes()[..calls]);
        }
    }
}
