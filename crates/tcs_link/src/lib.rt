//! Datagrams among nodes: the trait that the programs attach, send and poll through, and a network in memory whose
//! losses, doubles, faults and strange frames are planned.
#![tactic(auto)]

mod bytes;
mod fault_plan;
mod linking;
mod mail;
mod mem_link;
mod queues;
mod telling;
#[cfg(test)]
mod tests;

pub use bytes::Bytes;
pub use linking::{Link, LinkStop, Polled};
pub use mail::{Alien, Fate};
pub use mem_link::MemLink;
pub use telling::{Arrival, Attachment, Poll, Sent};
