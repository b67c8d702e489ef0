//! The core: shards, deques and mails as lists, and experiments that are named, posted to, moved
//! and turned. Our choice.
#![tactic(auto)]

mod deque;
mod home;
mod mails;
mod moves;
mod run;
mod steps;
mod world;
mod worlds_law;

pub use home::Place;
pub use steps::{Did, Step};
pub use world::World;
pub use worlds_law::two_worlds;
