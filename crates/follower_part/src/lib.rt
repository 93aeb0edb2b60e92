//! The log of a shard's follower: the only one into which entries are accepted.
#![tactic(auto)]

mod followers;
#[cfg(test)]
mod tests;

pub use followers::{Follower, first_follower, follow};
