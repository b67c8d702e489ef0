//! Reports the progress of a run on standard error, if the user requested that.

use alone::Progress;
use std::sync::atomic::{AtomicU64, Ordering};
use std::time::{Clock, Instant};

/// The minimum time between two reports, in ms.
const PAUSE: u64 = 200;

/// A progress meter, which reports at most five times a second, and never if it has no start.
#[derive(Drop)]
pub struct Meter<'a, R> {
    rt: &'a R,
    start: Option<Instant>,
    // The time of the earliest next report, in ms from the start.
    next: AtomicU64,
    // The number of experiments that have ended.
    ended: AtomicU64,
}

impl<'a, R: Eprint + Clock> Meter<'a, R> {
    /// Creates a meter, which reports if `speaks` is true and there is a clock.
    pub fn new(rt: &'a R, speaks: bool) -> Meter<'a, R> {
        let start = if speaks { Instant::now(rt).ok() } else { None };
        Meter {
            rt,
            start,
            next: AtomicU64::new(0),
            ended: AtomicU64::new(0),
        }
    }

    // Returns true if a report is due, and reserves it for the calling thread.
    fn is_time(&self) -> bool {
        let Some(start) = self.start else {
            return false;
        };
        let Ok(passed) = start.elapsed(self.rt) else {
            return false;
        };
        let now = u64::try_from(passed.as_millis()).unwrap_or(u64::MAX);
        let next = self.next.load(Ordering::SeqCst);
        if now < next {
            return false;
        }
        let then = now.saturating_add(PAUSE);
        self.next
            .compare_exchange(next, then, Ordering::SeqCst, Ordering::SeqCst)
            .is_ok()
    }
}

impl<R: Eprint + Clock + Sync> Progress for Meter<'_, R> {
    fn note_ends(&self, ended: u64, total: u64) {
        self.ended.store(ended, Ordering::SeqCst);
        if self.is_time() {
            // There is nowhere else to report that this can't be printed.
            let _ = eprintln!(self.rt; "dnlab: {ended} of {total} experiments have ended");
        }
    }

    fn note_steps(&self, steps: u64, most: u64) {
        if self.is_time() {
            let ended = self.ended.load(Ordering::SeqCst);
            let _ = eprintln!(self.rt;
                "dnlab: {ended} experiments have ended, {steps} steps of at most {most} of the next"
            );
        }
    }
}
