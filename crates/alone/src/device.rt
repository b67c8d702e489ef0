//! Wraps std's readers and writers as an `Inlet` and an `Outlet`. Only this module handles std's
//! errors.

ghost use Rattle.std.specs.Prelude.{◌≡◌, ◌<◌, ◌+◌, ◌↔◌, true, false};
ghost use Rattle.std.specs.Io.KnownBytes.{Consumes};
ghost use Rattle.std.specs.IoError.{error_kind};
ghost use Rattle.std.proofs.KnownBytes.{Consumes-nil, Consumes-trans};

use crate::ends::{Inlet, Outlet, Trouble};
use std::io::{Error, ErrorKind, Read, Write};

/// The maximum number of interrupted calls in a row.
const PATIENCE: u32 = u32::MAX;

/// A reader or a writer of std. It fails if one of its calls returns an error other than
/// `Interrupted`, if too many calls in a row are interrupted, or if the writer accepts no byte of a
/// non-empty slice. After a failure it isn't called again.
#[derive(Drop)]
pub struct Device<T: Drop> {
    inner: T,
    failed: bool,
    patience: u32,
}

impl<T: Drop> Device<T> {
    /// Creates a device that hasn't failed.
    pub fn new(inner: T) -> Self
        ensures inner { result.inner ≡ inner }
        ensures failed { result.failed ≡ false }
        ensures patience { result.patience ≡ u32.MAX }
    {
        Device::with_patience(inner, PATIENCE)
    }

    /// Creates a device that hasn't failed, and of which `patience` calls can be interrupted at
    /// first.
    pub fn with_patience(inner: T, patience: u32) -> Self
        ensures inner { result.inner ≡ inner }
        ensures failed { result.failed ≡ false }
        ensures patience { result.patience ≡ patience }
    {
        Device {
            inner,
            failed: false,
            patience,
        }
    }

    /// Returns true if the device has failed.
    pub fn has_failed(&self) -> bool
        ensures { result ≡ self.now.failed }
    {
        self.failed
    }

    /// Returns the reader or the writer itself.
    pub fn into_inner(self) -> T
        ensures { result ≡ self.inner }
    {
        let Device { inner, .. } = self;
        inner
    }

    // Records a failure.
    fn fail(&mut self) -> Trouble
        ensures same { self.new.inner ≡ self.old.inner }
        ensures failed { self.new.failed ≡ true }
        ensures result { result ≡ Trouble.Failed }
    {
        self.failed = true;
        Trouble::Failed
    }

    // Classifies an error: counts an interruption if the patience allows it, and records a failure
    // otherwise.
    fn note(&mut self, error: &Error) -> Trouble
        ensures same { self.new.inner ≡ self.old.inner }
        ensures kind { (result ≡ Trouble.Interrupted) ↔
            ((error_kind error.now ≡ ErrorKind.Interrupted) × (0 < self.old.patience)) }
        ensures again { result ≡ Trouble.Interrupted →
            (self.new.failed ≡ self.old.failed) × (self.new.patience + 1 ≡ self.old.patience) }
        ensures failed { result ≡ Trouble.Failed → self.new.failed ≡ true }
    {
        if self.patience == 0 || error.kind() != ErrorKind::Interrupted {
            return self.fail();
        }
        self.patience -= 1;
        Trouble::Interrupted
    }
}

impl<R: Read + Drop> Inlet for Device<R> {
    ghost remaining = { λ d. R.remaining d.inner };

    ghost gives = { λ d bytes e. Consumes (R.remaining d.inner) (R.remaining e.inner) bytes };

    ghost failed = { λ d. d.failed };

    ghost patience = { λ d. d.patience };

    ghost gives_none = { λ d. Consumes-nil (R.remaining d.inner) };

    ghost gives_both = { λ a b c. Consumes-trans (R.remaining a.inner) (R.remaining b.inner) (R.remaining c.inner) };

    fn read(&mut self, room: &mut [u8]) -> Result<usize, Trouble> {
        if self.failed {
            return Err(Trouble::Failed);
        }
        match self.inner.read(room) {
            Ok(count) => {
                self.patience = PATIENCE;
                Ok(count)
            }
            Err(error) => Err(self.note(&error)),
        }
    }
}

impl<W: Write + Drop> Outlet for Device<W> {
    ghost contents = { λ d. W.contents d.inner };

    ghost failed = { λ d. d.failed };

    ghost patience = { λ d. d.patience };

    fn write(&mut self, bytes: &[u8]) -> Result<usize, Trouble> {
        if self.failed {
            return Err(Trouble::Failed);
        }
        match self.inner.write(bytes) {
            Ok(0) => Err(self.fail()),
            Ok(count) => {
                self.patience = PATIENCE;
                Ok(count)
            }
            Err(error) => Err(self.note(&error)),
        }
    }

    fn flush(&mut self) -> Result<(), Trouble> {
        if self.failed {
            return Err(Trouble::Failed);
        }
        match self.inner.flush() {
            Ok(()) => {
                self.patience = PATIENCE;
                Ok(())
            }
            Err(error) => Err(self.note(&error)),
        }
    }
}
