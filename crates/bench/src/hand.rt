//! The state of a deque's passes: what each has pushed and taken.

use emu_model::{Spec, Timed};
use std::collections::LinkedList;

/// The part of an experiment that doesn't change while it moves: its name, its specification, its
/// commands so far, and the number of steps made. By the type of a parcel, these determine its
/// state. No value of this type is created.
pub struct Stamp {
    pub name: u32,
    pub spec: Spec,
    pub consumed: LinkedList<Timed>,
    pub events: u64,
}

/// The stamps that a pass has pushed and taken. No value of this type is created.
pub struct Hand {
    pub pushed: LinkedList<Stamp>,
    pub taken: LinkedList<Stamp>,
}
