//! The world of a quorum store, event by event: acceptors and proposers that do as the rules of `quorum_protocol` say.
#![tactic(auto)]

mod acceptors;
mod attempts;
mod entries;
mod happenings;
mod proposers;
mod world;

pub use happenings::Happening;
pub use world::World;
