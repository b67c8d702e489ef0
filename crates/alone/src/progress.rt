//! The receiver of progress reports.

ghost use Rattle.std.specs.Prelude.{◌≤◌};

/// A receiver of progress reports. No output depends on it.
pub trait Progress {
    /// Reports that `ended` of `total` experiments have ended.
    fn note_ends(&self, ended: u64, total: u64);

    /// Reports that the experiment that runs by itself has taken `steps` of at most `most` steps.
    /// Called every 65536 steps.
    fn note_steps(&self, steps: u64, most: u64)
        requires { steps ≤ most };
}

/// A receiver that does nothing.
#[derive(Clone, Copy, Debug)]
pub struct Silent;

impl Progress for Silent {
    fn note_ends(&self, _ended: u64, _total: u64) {}

    fn note_steps(&self, _steps: u64, _most: u64) {}
}
