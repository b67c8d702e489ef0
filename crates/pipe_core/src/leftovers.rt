//! The keys of a deleted instance.

ghost use Rattle.std.specs.Prelude.{◌≡◌, [], ◌∷◌, ◌++◌, map, option_to_list, MatchOption};

use link_core::DelayLine;
use packet_store::Key;
use queue_disc::Queue;
use std::marker::Model;

/// The keys that an instance held: those in flight, the one in service, and those that waited.
/// Contracts see the list of keys.
#[derive(Drop)]
pub struct Leftovers {
    line: DelayLine<Key>,
    served: Option<Key>,
    queue: Queue<Key>,
}

impl Model for Leftovers {
    ghost use Rattle.std.specs.Prelude.{ℕ, List, ◌++◌, map, option_to_list};

    ghost Value = { List ℕ };

    ghost view = { λ l. map (λ x. x.item) l.line.line.in_flight ++ option_to_list l.served
        ++ map (λ w. w.item) l.queue.waiting };
}

impl Leftovers {
    pub(crate) fn new(line: DelayLine<Key>, served: Option<Key>, queue: Queue<Key>) -> Self
        ensures { result ≡ map (λ x. x.item) line.line.in_flight ++ option_to_list served
            ++ map (λ w. w.item) queue.waiting }
    {
        Leftovers {
            line,
            served,
            queue,
        }
    }

    /// Removes the first key, and returns it.
    pub fn next(&mut self) -> Option<Key>
        ensures { MatchOption result ((self.old ≡ []) × (self.new ≡ []))
            (λ key. self.old ≡ key ∷ self.new) }
    {
        if let Some(key) = self.line.leave() {
            return Some(key);
        }
        if let Some(key) = self.served {
            self.served = None;
            return Some(key);
        }
        let first = self.queue.take()?;
        Some(first.item)
    }
}
