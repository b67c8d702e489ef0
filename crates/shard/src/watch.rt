//! Observers of turns.

ghost use Rattle.std.specs.Prelude.{◌≡◌, ℕ, Bool, true, false, IsFalse};

/// An observer that is called right after each turn that ran.
pub trait Watch {
    /// True if an observer of this type may return false.
    ghost may_refuse: { Bool };

    /// The effect that a call with a name and a result may have on the observer.
    ghost hears: { ℕ → Bool → Self → Self → Type 0 };

    /// Observes a turn of the experiment with this name. If it returns false, no turn follows at
    /// once.
    fn ran(&mut self, name: u32) -> bool
        ensures hears { hears name result self.old self.new }
        ensures refused { IsFalse result → may_refuse ≡ true };
}

/// An observer that does nothing, and always returns true.
#[derive(Clone, Copy, Debug)]
pub struct Unwatched;

impl Watch for Unwatched {
    ghost may_refuse = { false };

    ghost hears = { λ _ _ _ _. Unit {0} };

    fn ran(&mut self, _name: u32) -> bool {
        true
    }
}
