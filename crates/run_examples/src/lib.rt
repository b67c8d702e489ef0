//! Worked examples of texts, of the calls of the program, and of many experiments on shards, benches
//! and worlds. The crate contains only tests, and the texts that they use. Our choice.
#![tactic(auto)]

#[cfg(test)]
mod tests;
#[cfg(test)]
mod texts;
