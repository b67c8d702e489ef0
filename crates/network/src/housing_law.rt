//! A law about changes of spare capacity, stated as the contract of a function with an empty body,
//! so that the checker proves it.

ghost use Rattle.network.specs.Changes.{StillIsHoused};

/// If only spare capacity has changed, the owner's packets are still exactly those that the keys
/// refer to.
pub fn still_is_housed()
    ensures { StillIsHoused }
{}
