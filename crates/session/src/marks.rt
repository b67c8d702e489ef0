//! A set of marked numbers.

ghost use Rattle.std.specs.Prelude.{◌≡◌, ◌%◌, ◌^◌, [], OnOk};
ghost use Rattle.session.specs.Marking.{MarksOne, is_marked};

use std::alloc::{AllocError, Global};
use std::marker::Model;

/// The marked numbers, as one bit for each number up to the largest marked one.
#[derive(Drop)]
pub struct Marks {
    bytes: Vec<u8>,
}

impl Model for Marks {
    ghost use Rattle.session.specs.Marking.{Marks as Bytes};

    ghost Value = { Bytes };

    ghost view = { λ m. m.bytes.items };
}

// Returns the bit of a number in its byte.
fn bit_of(number: u64) -> u8
    ensures { result ≡ 2 ^ (number % 8) }
{
    1u8 << (number % 8)
}

impl Marks {
    /// Creates an empty set. Does not allocate.
    pub fn new(alloc: Global) -> Self
        ensures { result ≡ [] }
    {
        Marks {
            bytes: Vec::new(alloc),
        }
    }

    /// Returns true if a number is marked.
    pub fn has(&self, number: u64) -> bool
        ensures { result ≡ is_marked self.now number }
    {
        match self.bytes.get((number / 8) as usize) {
            Some(byte) => *byte & bit_of(number) != 0,
            None => false,
        }
    }

    /// Marks a number, and no other. If an allocation fails, it returns `AllocError` and marks
    /// nothing.
    pub fn mark(&mut self, number: u64) -> Result<(), AllocError>
        ensures { OnOk result (MarksOne number self.old self.new) }
    {
        let place = (number / 8) as usize;
        while self.bytes.len() <= place {
            self.bytes.push(0)?;
        }
        self.bytes[place] |= bit_of(number);
        Ok(())
    }
}
