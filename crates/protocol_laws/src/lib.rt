//! What holds of every run of the protocol.
#![tactic(auto)]

pub mod addresses;
pub mod copies;
pub mod epochs;
pub mod exchange;
pub mod growth;
pub mod histories;
pub mod invariant;
pub mod limits;
pub mod losses;
pub mod promises;
pub mod ranges;
pub mod refusals;
pub mod steps;
