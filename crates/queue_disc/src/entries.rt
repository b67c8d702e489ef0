//! The items that wait, and the reasons why one is refused.

use emu_model::Size;
use std::marker::Model;

/// An item that waits, its bytes, and its time of arrival in nanoseconds.
#[derive(Drop)]
pub struct Queued<A> {
    pub item: A,
    pub size: Size,
    pub stamp: u64,
}

impl<A> Model for Queued<A> {
    ghost use Rattle.emu_model.specs.DropTail.{Queued as Entry};

    ghost Value = { Entry A };

    ghost view = { λ w. record { item = w.item; size = w.size; stamp = w.stamp } };
}

/// The reason why an item was not enqueued.
#[derive(Clone, Copy, Debug, PartialEq, Eq)]
pub enum EnqueueError {
    /// The limit of the queue.
    Full,
    /// An allocation failed.
    NoMemory,
}

/// An item that was not enqueued, and the reason.
#[derive(Drop)]
pub struct Refused<A> {
    pub item: A,
    pub cause: EnqueueError,
}
