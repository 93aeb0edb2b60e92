//! Configurations stored by ballots at a majority of acceptors: the rules as plain definitions, in `specs/`, and what
//! holds of every run of them (after Lamport's Paxos; the texts and the climbing of epochs are this project's own).
#![tactic(auto)]

mod laws;
mod terms;

pub use laws::{configurations_agree, epochs_are_climbed, stored_was_proposed};
pub use terms::{Accepted, Ballot, Event, Knows, Message, Outcome, Place, Say, Stored};
