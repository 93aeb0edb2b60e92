//! How a node moves a shard to a new configuration, stage by stage (after Bravo and Gotsman, PODC 2019; the stages are
//! this project's own).
#![tactic(auto)]

mod moves;
mod probers;
mod proposals;
mod requests;
mod stages;
#[cfg(test)]
mod tests;

pub use probers::Prober;
