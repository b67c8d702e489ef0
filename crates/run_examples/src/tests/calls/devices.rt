//! Readers and writers that fail, are interrupted, return or accept few bytes, or buffer bytes.

use super::*;
use std::io::{ErrorKind, Read, Write};

/// A reader that returns a few bytes at each read, and fails at the read after `reads` reads.
#[derive(Drop)]
struct Reader<'a> {
    left: &'a [u8],
    reads: usize,
}

impl Read for Reader<'_> {
    fn read(&mut self, buf: &mut [u8]) -> io::Result<usize> {
        if self.reads == 0 {
            return Err(io::Error::from(ErrorKind::Other));
        }
        self.reads -= 1;
        let room = buf.len().min(40);
        self.left.read(&mut buf[..room])
    }
}

/// A reader that is interrupted twice before each read, which returns one byte.
#[derive(Drop)]
struct Shaky<'a> {
    left: &'a [u8],
    turn: u32,
}

impl Read for Shaky<'_> {
    fn read(&mut self, buf: &mut [u8]) -> io::Result<usize> {
        self.turn = self.turn.wrapping_add(1);
        if self.turn % 3 != 0 {
            return Err(io::Error::from(ErrorKind::Interrupted));
        }
        let room = buf.len().min(1);
        self.left.read(&mut buf[..room])
    }
}

/// A writer that is interrupted twice before each write, which accepts one byte, and before each
/// flush.
#[derive(Drop)]
struct ShakyOut {
    taken: Vec<u8>,
    turn: u32,
}

impl ShakyOut {
    fn begin(&mut self) -> io::Result<()> {
        self.turn = self.turn.wrapping_add(1);
        if self.turn % 3 != 0 {
            return Err(io::Error::from(ErrorKind::Interrupted));
        }
        Ok(())
    }
}

impl Write for ShakyOut {
    fn write(&mut self, buf: &[u8]) -> io::Result<usize> {
        self.begin()?;
        let count = buf.len().min(1);
        self.taken.extend_from_slice(&buf[..count])?;
        Ok(count)
    }

    fn flush(&mut self) -> io::Result<()> {
        self.begin()
    }
}

/// A writer that accepts `room` bytes, a few at each write, and then fails, or accepts none.
#[derive(Drop)]
struct Writer {
    taken: Vec<u8>,
    room: usize,
    fails: bool,
}

impl Write for Writer {
    fn write(&mut self, buf: &[u8]) -> io::Result<usize> {
        if self.room == 0 && self.fails {
            return Err(io::Error::from(ErrorKind::Other));
        }
        let count = buf.len().min(self.room).min(50);
        self.taken.extend_from_slice(&buf[..count])?;
        self.room -= count;
        Ok(count)
    }

    fn flush(&mut self) -> io::Result<()> {
        Ok(())
    }
}

/// A writer that buffers bytes until it is flushed. It is interrupted at its first flushes, and may
/// fail at the next one.
#[derive(Drop)]
struct Late {
    kept: Vec<u8>,
    out: Vec<u8>,
    interrupts: u32,
    fails: bool,
}

impl Write for Late {
    fn write(&mut self, buf: &[u8]) -> io::Result<usize> {
        self.kept.extend_from_slice(buf)?;
        Ok(buf.len())
    }

    fn flush(&mut self) -> io::Result<()> {
        if self.interrupts > 0 {
            self.interrupts -= 1;
            return Err(io::Error::from(ErrorKind::Interrupted));
        }
        if self.fails {
            return Err(io::Error::from(ErrorKind::Other));
        }
        self.out.extend_from_slice(self.kept.as_slice())?;
        self.kept.clear();
        Ok(())
    }
}

// Checks that nothing is written if one of the first reads fails.
fn reads_fail<H: Threads + Wait + Sync + Abort + AllocGlobal>(rt: &H, way: Way, scenario: &str) {
    for reads in 0..3 {
        let mut reader = Device::new(Reader {
            left: scenario.as_bytes(),
            reads,
        });
        let mut writer = Device::new(Vec::new(rt.alloc()));
        let outcome = call(rt, rt.alloc(), way, &mut reader, &mut writer);
        assert!(rt; writer.into_inner().is_empty());
        assert!(rt; outcome == Err(RunFault::Read));
        assert!(rt; reader.has_failed());
    }
}

#[test]
fn each_read_fails(rt: HostRuntime) {
    for way in [Way::Alone, Way::Together] {
        reads_fail(&rt, way, texts::ONE_PACKET);
        reads_fail(&rt, way, texts::CODEL_TWO_DROPS);
    }
}

// Checks writes that fail after each number of bytes: exactly these bytes were written.
fn writes_fail<H: Threads + Wait + Sync + Abort + AllocGlobal>(
    rt: &H,
    way: Way,
    scenario: &str,
    report: &str,
    fails: bool,
) {
    for room in 0..report.len() {
        let mut reader = Device::new(scenario.as_bytes());
        let mut writer = Device::new(Writer {
            taken: Vec::new(rt.alloc()),
            room,
            fails,
        });
        let outcome = call(rt, rt.alloc(), way, &mut reader, &mut writer);
        assert!(rt; outcome == Err(RunFault::Write));
        assert!(rt; writer.has_failed());
        let Writer { taken, .. } = writer.into_inner();
        assert!(rt; report.as_bytes().starts_with(taken.as_slice()));
        assert_eq!(rt; taken.len(), room);
    }
}

#[test]
fn each_write_fails(rt: HostRuntime) {
    for way in [Way::Alone, Way::Together] {
        writes_fail(&rt, way, texts::ONE_PACKET, texts::ONE_PACKET_REPORT, true);
        writes_fail(&rt, way, texts::ONE_PACKET, texts::ONE_PACKET_REPORT, false);
    }
}

#[test]
fn each_write_of_many_fails(rt: HostRuntime) {
    writes_fail(
        &rt,
        Way::Alone,
        texts::CODEL_TWO_DROPS,
        texts::CODEL_TWO_DROPS_REPORT,
        true,
    );
}

#[test]
fn interrupted_reads(rt: HostRuntime) {
    for way in [Way::Alone, Way::Together] {
        let mut reader = Device::new(Shaky {
            left: texts::ONE_PACKET.as_bytes(),
            turn: 0,
        });
        let mut writer = Device::new(Vec::new(rt.alloc()));
        let outcome = call(&rt, rt.alloc(), way, &mut reader, &mut writer);
        assert!(rt; outcome == Ok(()));
        assert!(rt; !reader.has_failed());
        assert!(rt; writer.into_inner().as_slice() == texts::ONE_PACKET_REPORT.as_bytes());
    }
}

/// Checks that patience for two interruptions is enough if each call after them succeeds, because
/// that restores it.
#[test]
fn patience_is_given_back(rt: HostRuntime) {
    for way in [Way::Alone, Way::Together] {
        let shaky = Shaky {
            left: texts::ONE_PACKET.as_bytes(),
            turn: 0,
        };
        let mut reader = Device::with_patience(shaky, 2);
        let shaky = ShakyOut {
            taken: Vec::new(rt.alloc()),
            turn: 0,
        };
        let mut writer = Device::with_patience(shaky, 2);
        let outcome = call(&rt, rt.alloc(), way, &mut reader, &mut writer);
        assert!(rt; outcome == Ok(()));
        assert!(rt; !reader.has_failed() && !writer.has_failed());
        let ShakyOut { taken, .. } = writer.into_inner();
        assert!(rt; taken.as_slice() == texts::ONE_PACKET_REPORT.as_bytes());
    }
}

// Returns the result of a call with a writer that buffers bytes, and the bytes that the writer
// passed on.
fn flushes<H: Threads + Wait + Sync>(
    rt: &H,
    alloc: Global,
    way: Way,
    interrupts: u32,
    fails: bool,
) -> (Result<(), RunFault>, Vec<u8>) {
    let mut reader = Device::new(texts::ONE_PACKET.as_bytes());
    let mut writer = Device::new(Late {
        kept: Vec::new(alloc),
        out: Vec::new(alloc),
        interrupts,
        fails,
    });
    let outcome = call(rt, alloc, way, &mut reader, &mut writer);
    let Late { out, .. } = writer.into_inner();
    (outcome, out)
}

#[test]
fn interrupted_flush(rt: HostRuntime) {
    for way in [Way::Alone, Way::Together] {
        for interrupts in [0, 1, 1000] {
            let (outcome, out) = flushes(&rt, rt.alloc(), way, interrupts, false);
            assert!(rt; outcome == Ok(()));
            assert!(rt; out.as_slice() == texts::ONE_PACKET_REPORT.as_bytes());
        }
        let (outcome, out) = flushes(&rt, rt.alloc(), way, 2, true);
        assert!(rt; outcome == Err(RunFault::Write));
        assert!(rt; out.is_empty());
    }
}

/// A device whose calls are interrupted forever. It counts them.
#[derive(Drop)]
struct Endless {
    calls: u64,
}

impl Endless {
    fn interrupt(&mut self) -> io::Error {
        self.calls = self.calls.wrapping_add(1);
        io::Error::from(ErrorKind::Interrupted)
    }
}

impl Read for Endless {
    fn read(&mut self, _: &mut [u8]) -> io::Result<usize> {
        Err(self.interrupt())
    }
}

impl Write for Endless {
    fn write(&mut self, _: &[u8]) -> io::Result<usize> {
        Err(self.interrupt())
    }

    fn flush(&mut self) -> io::Result<()> {
        Err(self.interrupt())
    }
}

#[test]
fn interrupted_without_end(rt: HostRuntime) {
    for way in [Way::Alone, Way::Together, Way::Check] {
        let mut reader = Device::with_patience(Endless { calls: 0 }, 1000);
        let mut writer = Device::new(Vec::new(rt.alloc()));
        let outcome = call(&rt, rt.alloc(), way, &mut reader, &mut writer);
        assert!(rt; outcome == Err(RunFault::Read));
        assert!(rt; reader.has_failed() && !writer.has_failed());
        assert_eq!(rt; reader.into_inner().calls, 1001);
        assert!(rt; writer.into_inner().is_empty());
        let mut reader = Device::new(texts::ONE_PACKET.as_bytes());
        let mut writer = Device::with_patience(Endless { calls: 0 }, 1000);
        let outcome = call(&rt, rt.alloc(), way, &mut reader, &mut writer);
        assert!(rt; outcome == Err(RunFault::Write));
        assert!(rt; writer.has_failed() && !reader.has_failed());
        assert_eq!(rt; writer.into_inner().calls, 1001);
    }
}

#[test]
fn flush_interrupted_without_end(rt: HostRuntime) {
    // Nothing is written, so the flush is the only call.
    let mut reader = Device::new("".as_bytes());
    let mut writer = Device::with_patience(Endless { calls: 0 }, 1000);
    let outcome = run_alone(rt.alloc(), &mut reader, &mut writer);
    assert!(rt; outcome == Err(RunFault::Write));
    assert_eq!(rt; writer.into_inner().calls, 1001);
}

/// A device whose first call fails, and no later one. It counts them.
#[derive(Drop)]
struct Once {
    calls: u64,
}

impl Once {
    fn begin(&mut self) -> io::Result<()> {
        self.calls = self.calls.wrapping_add(1);
        if self.calls == 1 {
            return Err(io::Error::from(ErrorKind::Other));
        }
        Ok(())
    }
}

impl Read for Once {
    fn read(&mut self, _: &mut [u8]) -> io::Result<usize> {
        self.begin()?;
        Ok(0)
    }
}

impl Write for Once {
    fn write(&mut self, buf: &[u8]) -> io::Result<usize> {
        self.begin()?;
        Ok(buf.len())
    }

    fn flush(&mut self) -> io::Result<()> {
        self.begin()
    }
}

#[test]
fn failed_for_good(rt: HostRuntime) {
    // A device that failed isn't called again, not even by the next run.
    let mut reader = Device::new(Once { calls: 0 });
    let mut writer = Device::new(Once { calls: 0 });
    for way in [Way::Alone, Way::Together, Way::Check] {
        let outcome = call(&rt, rt.alloc(), way, &mut reader, &mut writer);
        assert!(rt; outcome == Err(RunFault::Read));
        let mut fine = Device::new(texts::ONE_PACKET.as_bytes());
        let outcome = call(&rt, rt.alloc(), way, &mut fine, &mut writer);
        assert!(rt; outcome == Err(RunFault::Write));
    }
    assert_eq!(rt; reader.into_inner().calls, 1);
    assert_eq!(rt; writer.into_inner().calls, 1);
}
