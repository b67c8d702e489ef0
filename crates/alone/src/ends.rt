//! The ends of a call: what it requires of a reader and of a writer, and what their calls return.

ghost use Rattle.std.specs.Prelude.{◌≡◌, ◌<◌, ◌≤◌, ◌++◌, [], ℕ, List, Option, Err, Bool, true, false, length, drop, is_err, OnOk, OnErr, IfOk};
ghost use Rattle.std.specs.Io.KnownBytes.{Appends, Keeps, ReadConsumes, WriteAppends};
ghost use Rattle.alone.specs.Bytes.{IsCut};
ghost use Rattle.alone.specs.Troubles.{bytes_given, has_failed};

/// The reason why a call did nothing.
#[derive(Clone, Copy, Debug, Drop, PartialEq)]
pub enum Trouble {
    /// The call was interrupted, and may be made again.
    Interrupted,
    /// The reader or the writer failed.
    Failed,
}

/// The reader or the writer failed.
#[derive(Drop)]
pub struct Failed;

/// A source of bytes that has an end.
pub trait Inlet: Drop {
    /// The bytes that are left to read, if they are known.
    ghost remaining: { Self → Option (List ℕ) };

    /// True if calls of `read` can have returned these bytes, one after the other, between two
    /// states of the reader.
    ghost gives: { Self → List ℕ → Self → Type 0 };

    /// True if the reader has failed.
    ghost failed: { Self → Bool };

    /// The number of further calls in a row that can be interrupted.
    ghost patience: { Self → ℕ };

    /// Reads some bytes. Returns 0 only at the end or if there is no space in `room`. A reader that
    /// has failed fails at every later call.
    fn read(&mut self, room: &mut [u8]) -> Result<usize, Trouble>
        ensures bound { IfOk result (λ n. n ≤ length room.new) }
        ensures bytes { ReadConsumes (remaining self.old) (remaining self.new) result room.new }
        ensures gives { gives self.old (bytes_given result room.new) self.new }
        ensures failed { failed self.new ≡ has_failed result }
        ensures stays { failed self.old ≡ true → result ≡ Err Trouble.Failed }
        ensures patience { result ≡ Err Trouble.Interrupted →
            patience self.new < patience self.old };

    /// No call returns no byte.
    ghost gives_none: { (r : Self) → gives r [] r };

    /// Consecutive calls return the concatenation of their bytes.
    ghost gives_both: { (a b c : Self) (xs ys : List ℕ) → gives a xs b → gives b ys c →
        gives a (xs ++ ys) c };
}

/// A sink of bytes.
pub trait Outlet: Drop {
    /// The bytes that the writer holds, if they are known.
    ghost contents: { Self → Option (List ℕ) };

    /// True if the writer has failed.
    ghost failed: { Self → Bool };

    /// The number of further calls in a row that can be interrupted.
    ghost patience: { Self → ℕ };

    /// Writes some of these bytes, and at least one. A writer that has failed fails at every later
    /// call.
    fn write(&mut self, bytes: &[u8]) -> Result<usize, Trouble>
        requires { 0 < length bytes.now }
        ensures bound { IfOk result (λ n. (0 < n) × (n ≤ length bytes.now)) }
        ensures bytes { WriteAppends (contents self.old) (contents self.new) result bytes.now }
        ensures failed { failed self.new ≡ has_failed result }
        ensures stays { failed self.old ≡ true → result ≡ Err Trouble.Failed }
        ensures patience { result ≡ Err Trouble.Interrupted →
            patience self.new < patience self.old };

    /// Passes on the bytes that the writer still buffers. A writer that has failed fails at every
    /// later call.
    fn flush(&mut self) -> Result<(), Trouble>
        ensures bytes { Keeps (contents self.old) (contents self.new) }
        ensures failed { failed self.new ≡ has_failed result }
        ensures stays { failed self.old ≡ true → result ≡ Err Trouble.Failed }
        ensures patience { result ≡ Err Trouble.Interrupted →
            patience self.new < patience self.old };
}

/// Reads some bytes. Returns 0 only at the end or if there is no space in `room`. Repeats an
/// interrupted call.
pub(crate) fn read_some<R: Inlet>(reader: &mut R, room: &mut [u8]) -> Result<usize, Failed>
    ensures bound { IfOk result (λ n. n ≤ length room.new) }
    ensures bytes { ReadConsumes (R.remaining reader.old) (R.remaining reader.new) result room.new }
    ensures gives { R.gives reader.old (bytes_given result room.new) reader.new }
    ensures failed { R.failed reader.new ≡ is_err result }
{
    loop {
        match reader.read(room) {
            Ok(count) => return Ok(count),
            Err(Trouble::Interrupted) => {}
            Err(Trouble::Failed) => return Err(Failed),
        }
    }
}

// Writes some of these bytes, and at least one. Repeats an interrupted call.
fn write_some<W: Outlet>(writer: &mut W, bytes: &[u8]) -> Result<usize, Failed>
    requires { 0 < length bytes.now }
    ensures bound { IfOk result (λ n. (0 < n) × (n ≤ length bytes.now)) }
    ensures bytes { WriteAppends (W.contents writer.old) (W.contents writer.new) result bytes.now }
    ensures failed { W.failed writer.new ≡ is_err result }
{
    loop {
        match writer.write(bytes) {
            Ok(count) => return Ok(count),
            Err(Trouble::Interrupted) => {}
            Err(Trouble::Failed) => return Err(Failed),
        }
    }
}

// Returns the bytes after the first `count`.
fn past(bytes: &[u8], count: usize) -> &[u8]
    requires { count ≤ length bytes.now }
    ensures { result.now ≡ drop count bytes.now }
{
    &bytes[count..]
}

/// Writes all of these bytes, or a prefix of them if the writer fails.
#[tactic(auto, using(crate::proofs::Writing::writing_all, crate::proofs::Writing::writing_past, crate::proofs::Writing::writing_done_as, crate::proofs::Writing::writing_cut))]
pub(crate) fn write_all<W: Outlet>(writer: &mut W, bytes: &[u8]) -> Result<(), Failed>
    ensures bytes { OnOk result
        (Appends (W.contents writer.old) (W.contents writer.new) bytes.now) }
    ensures cut { OnErr result (IsCut (W.contents writer.old) (W.contents writer.new) bytes.now) }
    ensures failed { OnErr result (W.failed writer.new ≡ true) }
    ensures sound { W.failed writer.old ≡ false → W.failed writer.new ≡ is_err result }
{
    let mut rest = bytes;
    while !rest.is_empty() {
        let count = write_some(writer, rest)?;
        rest = past(rest, count);
    }
    Ok(())
}

/// Flushes a writer. Repeats an interrupted call.
pub(crate) fn flush_all<W: Outlet>(writer: &mut W) -> Result<(), Failed>
    ensures bytes { Keeps (W.contents writer.old) (W.contents writer.new) }
    ensures failed { W.failed writer.new ≡ is_err result }
{
    loop {
        match writer.flush() {
            Ok(()) => return Ok(()),
            Err(Trouble::Interrupted) => {}
            Err(Trouble::Failed) => return Err(Failed),
        }
    }
}
