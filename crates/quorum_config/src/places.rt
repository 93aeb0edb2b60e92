//! Where in an input a reader stands, and what a line is.

use quorum_protocol::Event;

/// What a reader waits for.
#[derive(Clone, Copy, Debug, PartialEq, Eq)]
pub enum Place {
    /// The first line.
    Version,
    /// The line of the number of acceptors.
    Acceptors,
    /// The line of the number of proposers.
    Proposers,
    /// The line of the number of shards.
    Shards,
    /// The first configuration of the next shard.
    Configs,
    /// The line `events`.
    Begin,
    /// A line between `events` and `end`, or `end`.
    Events,
    /// Nothing: `end` was taken.
    Ended,
}

/// Where a reader stands, and what it knows: the numbers of acceptors, proposers and shards, how many configurations
/// it has read, and how many events.
#[derive(Clone, Copy, Debug, PartialEq, Eq)]
pub struct Progress {
    pub place: Place,
    pub acceptors: u8,
    pub proposers: u8,
    pub shards: u8,
    pub configs: u8,
    pub events: u32,
}

/// What a line is.
#[derive(Debug, Drop)]
pub enum Item {
    /// A line of the header, but not its last.
    Header,
    /// The line `events`.
    Begun,
    Event(Event),
    /// The line `end`.
    End,
}
