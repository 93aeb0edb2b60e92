//! Reads by look-up: of each object the committed value of greatest version among the rows of a log.
#![tactic(auto)]

mod kept;
mod store;
mod writes;

pub use store::{Reading, VersionStore};

#[cfg(test)]
mod tests;
