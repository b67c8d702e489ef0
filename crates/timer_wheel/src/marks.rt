//! The slots, of 2048, that aren't empty, with one bit for each slot.
ghost use Rattle.std.specs.Prelude.{◌≡◌, ℕ, ◌<◌, IfSome, IfNone, cond, ◌==◌};
ghost use Rattle.timer_wheel.specs.Marks.{mark_at};

const WORDS: usize = 32;

/// A bit for each slot, in words of 64.
#[derive(Drop)]
pub struct Marks {
    words: [u64; WORDS],
}

impl Marks {
    /// Creates marks with no slot marked.
    pub fn new() -> Marks
        ensures { (q : ℕ) → mark_at result q ≡ 0 }
    {
        Marks { words: [0; WORDS] }
    }

    /// Marks a slot.
    pub fn mark(&mut self, place: usize)
        requires { place < 2048 }
        ensures { (q : ℕ) → mark_at self.new q ≡ cond (q == place) 1 (mark_at self.old q) }
    {
        self.words[place / 64] |= 1 << (place % 64);
    }

    /// Removes the mark of a slot.
    pub fn unmark(&mut self, place: usize)
        requires { place < 2048 }
        ensures { (q : ℕ) → mark_at self.new q ≡ cond (q == place) 0 (mark_at self.old q) }
    {
        self.words[place / 64] &= !(1 << (place % 64));
    }

    /// Returns the first slot that is marked.
    pub fn first(&self) -> Option<usize>
        ensures within { IfSome result (λ p. p < 2048) }
        ensures marked { IfSome result (λ p. mark_at self.now p ≡ 1) }
        ensures first { IfSome result (λ p. (q : ℕ) → q < p → mark_at self.now q ≡ 0) }
        ensures none { IfNone result ((q : ℕ) → q < 2048 → mark_at self.now q ≡ 0) }
    {
        for index in 0..WORDS {
            let word = self.words[index];
            if word != 0 {
                return Some(index * 64 + word.trailing_zeros() as usize);
            }
        }
        None
    }
}
