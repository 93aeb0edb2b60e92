//! The whole protocol as plain definitions, in `specs/`, and what computing them on small runs shows.
#![tactic(auto)]

pub mod certifying;
pub mod clients;
pub mod committing;
pub mod coordinating;
pub mod gathering;
pub mod histories;
pub mod invariant;
pub mod moving;
pub mod preparing;
pub mod probing;
pub mod serving;
pub mod transferring;
