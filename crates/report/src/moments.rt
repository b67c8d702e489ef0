//! The cache that is passed from line to line.

use crate::clock::Clock;

/// The number of bytes at which a page is full.
pub const FULL: usize = 4096;

/// The size of a page, with room for one more line, and for what is written past the line's end.
pub const ROOM: usize = FULL + 256;

/// The cache that is passed from line to line: the digits of the last time, and the page on which
/// lines are built, which therefore needs no clearing. It doesn't change the text.
#[derive(Drop)]
pub struct Moments {
    // The page is the first field, so that one register addresses both.
    pub(crate) page: [u8; ROOM],
    pub(crate) clock: Clock,
}

impl Moments {
    /// Creates the cache for the first line.
    pub fn new() -> Self {
        Moments {
            page: [0; ROOM],
            clock: Clock::new(),
        }
    }
}
