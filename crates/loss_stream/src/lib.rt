//! Seeded loss (our choice): the words of ChaCha20 decide which packets an instance of a pipe
//! loses.
#![tactic(auto)]

mod stream;

pub use stream::LossStream;
