//! What the rules speak of.

use tcs_terms::{Config, Epoch, NodeId, ShardId};

/// A ballot: compared by its round, and then by its proposer. That of a run's attempts has a round of 1 to 1,000,000;
/// round 0 of proposer 0 is below all of them.
#[derive(Clone, Copy, Debug, PartialEq, Eq, Hash)]
pub struct Ballot {
    pub round: u32,
    pub proposer: NodeId,
}

/// What an acceptor accepted last for a shard and epoch, and in which ballot.
#[derive(Debug, Drop)]
pub struct Accepted {
    pub ballot: Ballot,
    pub config: Config,
}

/// What a message says.
#[derive(Debug, Drop)]
pub enum Say {
    /// A proposer asks for a promise.
    Ask,
    /// An acceptor promised, and tells what it accepted last.
    Told(Option<Accepted>),
    /// A proposer puts a configuration.
    Put(Config),
    /// An acceptor accepted what was put.
    Kept,
}

/// A message between a proposer and an acceptor, about one shard and epoch.
#[derive(Debug, Drop)]
pub struct Message {
    pub from: NodeId,
    pub to: NodeId,
    pub ballot: Ballot,
    pub shard: ShardId,
    pub epoch: Epoch,
    pub say: Say,
}

/// An event of a run.
#[derive(Debug, Drop)]
pub enum Event {
    /// The proposer of the configuration begins an attempt to store it, in this round.
    Cas { round: u32, config: Config },
    /// The message of this number, from 1, reaches its receiver.
    Deliver(u32),
    /// An acceptor stops for good.
    Stop(NodeId),
}

/// What became of an event.
#[derive(Clone, Copy, Debug, PartialEq, Eq)]
pub enum Outcome {
    Acted,
    /// A proposer did nothing: it tells a mark of its own.
    Held(u32),
    /// An acceptor did nothing: it tells the round that it has promised.
    Stale(u32),
    /// The acceptor has stopped.
    Gone,
    /// No message of that number was sent.
    Unsent,
}

/// A proposer learned that a configuration is stored.
#[derive(Debug, Drop)]
pub struct Stored {
    pub proposer: NodeId,
    pub config: Config,
}

/// What an acceptor has is of one shard and epoch.
#[derive(Clone, Copy, Debug, PartialEq, Eq, Hash)]
pub struct Place {
    pub acceptor: NodeId,
    pub shard: ShardId,
    pub epoch: Epoch,
}

/// A proposer knows epochs of one shard.
#[derive(Clone, Copy, Debug, PartialEq, Eq, Hash)]
pub struct Knows {
    pub proposer: NodeId,
    pub shard: ShardId,
}
