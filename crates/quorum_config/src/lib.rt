//! The configuration service over several acceptors: one configuration for each shard and epoch, by majority.
#![tactic(auto)]

mod engine;
mod limits;
mod parts;
mod places;
mod printing;
mod reading;
mod stops;
mod stores;
#[cfg(test)]
mod tests;

pub use engine::quorum;
pub use stops::QuorumStop;
