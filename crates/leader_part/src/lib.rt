//! The log of a shard's leader: the only one in which transactions can be prepared.
#![tactic(auto)]

mod leaders;
#[cfg(test)]
mod tests;

pub use leaders::{Leader, first_leader, lead};
