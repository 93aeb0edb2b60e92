//! A monitor that counts the messages that each node left without any of its own, and proposes to move its shard.
#![tactic(auto)]

mod missing;
mod monitor;
mod moves;
mod tally;
#[cfg(test)]
mod tests;

pub use monitor::Monitor;
pub use moves::Proposal;
