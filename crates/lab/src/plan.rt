//! The plan by which many workers run a scenario, and the gate that watches them.

ghost use Rattle.std.specs.Prelude.{◌≡◌, ℕ, IfSome, IfNone, IsFalse, Bool, true, false};
ghost use Rattle.lab.specs.Plans.{IsPlan};

/// The number of workers, 1 to 16, and the number of turns after which each of them offers an
/// experiment to the others, at most 10^6; 0 means never.
#[derive(Clone, Copy, Debug)]
pub struct Plan {
    pub(crate) workers: usize,
    pub(crate) moves: u32,
    pub(crate) ghost range: { IsPlan workers moves },
}

impl Plan {
    /// Creates a plan. Returns None exactly if a number is out of its range.
    pub fn new(workers: usize, moves: u32) -> Option<Plan>
        ensures some { IfSome result (λ p. (p.workers ≡ workers) × (p.moves ≡ moves)) }
        ensures none { IfNone result (¬ IsPlan workers moves) }
    {
        if workers < 1 || workers > 16 || moves > 1_000_000 {
            return None;
        }
        Some(Plan { workers, moves })
    }
}

/// An observer of the turns of a run, which can end the run; programs use only `OpenGate`.
pub trait Gate: Send + Sync {
    /// True if a gate of this type may return false.
    ghost may_refuse: { Bool };

    /// The result that a gate may return after a turn of this bench and of the experiment with this
    /// name.
    ghost may_return: { Self → ℕ → ℕ → Bool → Type 0 };

    /// Observes a turn that ran, given the number of the bench and the name of the experiment. If
    /// it returns false, the run ends.
    fn ran(&self, bench: u32, name: u32) -> bool
        ensures returns { may_return self.now bench name result }
        ensures refused { IsFalse result → may_refuse ≡ true };
}

/// A gate that always returns true.
#[derive(Clone, Copy, Debug)]
pub struct OpenGate;

impl Gate for OpenGate {
    ghost may_refuse = { false };

    ghost may_return = { λ _ _ _ answer. answer ≡ true };

    fn ran(&self, _bench: u32, _name: u32) -> bool {
        true
    }
}
