//! A set of numbers that finds its minimum at once.

ghost use Rattle.std.specs.Prelude.{◌≡◌, ℕ, ◌==◌, ◌&&◌, ◌||◌, ◌<◌, ◌≤◌, if◌then◌else◌, true, false, length, slice_index, IfSome, IfNone, OnOk};
ghost use Rattle.std.specs.Int.{bit_at};
ghost use Rattle.sources.specs.Numbers.{flag, is_in, IsWhole, HasEntry, IsLowest};

use std::alloc::{AllocError, Global};

/// A set of numbers below 65536. Each number has a bit; each word of these bits has a bit that is
/// set if the word isn't zero, and so does each word of those bits.
#[derive(Drop)]
pub(crate) struct NumberSet {
    words: Vec<u64>,
    some: [u64; 16],
    any: u64,
}

/// Returns the word with one bit set or cleared.
#[inline(always)]
fn with_bit(word: u64, place: u64, set: bool) -> u64
    requires { place < 64 }
    ensures { (i : ℕ) → i < 64 →
        bit_at result i ≡ (if i == place then flag set else bit_at word i) }
{
    if set {
        return word | 1 << place;
    }
    word & !(1 << place)
}

/// Returns the place of the lowest bit that is set.
#[inline(always)]
fn lowest_bit(word: u64) -> u32
    requires { 0 < word }
    ensures { IsLowest word result }
{
    word.trailing_zeros()
}

/// Extends a list to at least `count` words; the new ones are zero.
fn grow(words: &mut Vec<u64>, count: usize) -> Result<(), AllocError>
    ensures same { (i : ℕ) → slice_index words.new.items i ≡ slice_index words.old.items i }
    ensures grows { length words.old.items ≤ length words.new.items }
    ensures ready { OnOk result (count ≤ length words.new.items) }
{
    if count <= words.len() {
        return Ok(());
    }
    words.resize(count, 0)
}

impl NumberSet {
    /// Creates an empty set. Does not allocate.
    pub(crate) fn new(alloc: Global) -> Self
        ensures whole { IsWhole result }
        ensures none { (k : ℕ) → is_in result k ≡ false }
    {
        NumberSet {
            words: Vec::new(alloc),
            some: [0; 16],
            any: 0,
        }
    }

    /// Reserves the memory for one `set` of a number. Only spare capacity changes, even if
    /// allocation fails.
    pub(crate) fn make_room(&mut self, number: u16) -> Result<(), AllocError>
        ensures same { (k : ℕ) → is_in self.new k ≡ is_in self.old k }
        ensures whole { IsWhole self.old → IsWhole self.new }
        ensures grows { length self.old.words.items ≤ length self.new.words.items }
        ensures ready { OnOk result (HasEntry number self.new) }
    {
        grow(&mut self.words, usize::from(number / 64) + 1)
    }

    /// Adds a number to the set, or removes it.
    #[inline(always)]
    pub(crate) fn set(&mut self, number: u16, there: bool)
        requires { HasEntry number self.old }
        ensures sets { (k : ℕ) →
            is_in self.new k ≡ (if k == number then there else is_in self.old k) }
        ensures whole { IsWhole self.old → IsWhole self.new }
        ensures entries { length self.new.words.items ≡ length self.old.words.items }
    {
        let word = usize::from(number / 64);
        let bits = with_bit(self.words[word], u64::from(number % 64), there);
        self.words[word] = bits;
        let group = word / 64;
        let some = with_bit(self.some[group], (word % 64) as u64, bits != 0);
        self.some[group] = some;
        self.any = with_bit(self.any, group as u64, some != 0);
    }

    /// Adds a number to the set if `there` is true.
    pub(crate) fn add(&mut self, number: u16, there: bool)
        requires { HasEntry number self.old }
        ensures adds { (k : ℕ) →
            is_in self.new k ≡ ((number == k && there) || is_in self.old k) }
        ensures whole { IsWhole self.old → IsWhole self.new }
        ensures entries { length self.new.words.items ≡ length self.old.words.items }
    {
        if there {
            self.set(number, true);
        }
    }

    /// Returns the minimum of the set.
    #[inline(always)]
    pub(crate) fn first(&self) -> Option<u32>
        requires { IsWhole self.now }
        ensures none { IfNone result ((k : ℕ) → is_in self.now k ≡ false) }
        ensures there { IfSome result (λ k. is_in self.now k ≡ true) }
        ensures least { IfSome result (λ k. (j : ℕ) → is_in self.now j ≡ true → k ≤ j) }
    {
        if self.any == 0 {
            return None;
        }
        let group = lowest_bit(self.any);
        let word = group * 64 + lowest_bit(self.some[group as usize]);
        Some(word * 64 + lowest_bit(self.words[word as usize]))
    }
}
