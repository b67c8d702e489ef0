//! The words of an archive in the order of their records (our choice).

ghost use Rattle.std.specs.Prelude.{◌≡◌, ◌≤◌, ◌<◌, ◌∷◌, [], drop, length, None, IfSome};
ghost use Rattle.std.specs.List.{All};
ghost use Rattle.report.specs.Orders.{IsRun, in_order};

use crate::archive::Run;
use crate::packed::Packed;
use std::marker::Model;

/// What is left of the words of runs, and of those from a word on. Contracts see the list of words.
#[derive(Drop)]
pub(crate) struct Stretches<'a> {
    stored: &'a [Packed],
    // What is left of the current stretch: all is read once nothing is.
    at: usize,
    end: usize,
    // The runs behind it, and the word from which all others follow.
    runs: &'a [Run],
    tail: usize,
}

impl<'a> Model for Stretches<'a> {
    ghost use Rattle.std.specs.Prelude.{◌≡◌, ◌-◌, ◌≤◌, ◌++◌, List, [], drop, length, take};
    ghost use Rattle.std.specs.List.{All};
    ghost use Rattle.report.specs.declared.packed.Packed.{Packed};
    ghost use Rattle.report.specs.Orders.{IsRun, in_order};

    ghost Value = { List Packed };

    ghost view = { λ s. take (s.end - s.at) (drop s.at s.stored.now)
        ++ in_order s.runs.now s.tail s.stored.now };

    ghost invariant = { λ s. (s.at ≤ s.end) × (s.end ≤ length s.stored.now)
        × (s.tail ≤ length s.stored.now) × All (IsRun s.tail) s.runs.now
        × (s.at ≡ s.end → in_order s.runs.now s.tail s.stored.now ≡ []) };
}

impl<'a> Stretches<'a> {
    /// Returns the words of runs, and then those from `tail` on.
    pub(crate) fn new(stored: &'a [Packed], runs: &'a [Run], tail: usize) -> Self
        requires tail { tail ≤ length stored.now }
        requires runs { All (IsRun tail) runs.now }
        ensures { result ≡ in_order runs.now tail stored.now }
    {
        let mut next = 0;
        while next < runs.len() {
            let Run { from, end } = runs[next];
            next += 1;
            if from < end {
                return Stretches {
                    stored,
                    at: from,
                    end,
                    runs: &runs[next..],
                    tail,
                };
            }
        }
        Stretches {
            stored,
            at: tail,
            end: stored.len(),
            runs: &runs[next..],
            tail: stored.len(),
        }
    }

    /// Returns the next word.
    #[inline(always)]
    pub(crate) fn peek(&self) -> Option<Packed>
        ensures some { IfSome result (λ w. self.now ≡ w ∷ drop 1 self.now) }
        ensures none { result ≡ None → self.now ≡ [] }
    {
        if self.at == self.end {
            return None;
        }
        Some(self.stored[self.at])
    }

    /// Leaves out the next word.
    #[inline(always)]
    pub(crate) fn skip(&mut self)
        requires { 0 < length self.old }
        ensures { self.new ≡ drop 1 self.old }
    {
        self.at += 1;
        if self.at == self.end {
            *self = Stretches::new(self.stored, self.runs, self.tail);
        }
    }
}
