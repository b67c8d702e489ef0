//! Worked examples of the engine, from single components to one experiment. The crate contains only
//! tests. Our choice.
#![tactic(auto)]

#[cfg(test)]
mod tests;
