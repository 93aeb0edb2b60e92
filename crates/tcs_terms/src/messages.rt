//! Messages between nodes, and to and from the configuration service.

ghost use Rattle.std.specs.Prelude.{◌≡◌, IfOk};

use crate::configurations::Config;
use crate::ids::{Epoch, NodeId, ShardId, Slot, TxId};
use crate::logs::{Entry, Rows};
use crate::memory::OutOfMemory;
use crate::payloads::{Payload, copy_payload};
use crate::shard_sets::ShardSet;
use crate::votes::Decision;
use std::alloc::Global;

/// Why a message was not acted on.
#[derive(Clone, Copy, Debug, PartialEq, Eq, Hash)]
pub enum Why {
    /// Its epoch is below the mark.
    Stale,
    /// It does not fit what the receiver knows.
    Held,
    /// The receiver's log has no room.
    Full,
}

/// A message. The names PREPARE, PREPARE_ACK, ACCEPT, ACCEPT_ACK, DECISION, PROBE, PROBE_ACK, NEW_CONFIG,
/// NEW_STATE and CONFIG_CHANGE are those of Bravo and Gotsman (PODC 2019); the other kinds and all fields are
/// this project's own.
#[derive(Debug, Drop)]
pub enum Message {
    /// Asks a leader to prepare a transaction; without a payload, by a node that takes the transaction over.
    Prepare {
        epoch: Epoch,
        txn: TxId,
        shards: ShardSet,
        payload: Option<Payload>,
    },
    PrepareAck {
        shard: ShardId,
        epoch: Epoch,
        entry: Entry,
    },
    /// Asks a follower to accept an entry.
    Accept {
        epoch: Epoch,
        entry: Entry,
    },
    AcceptAck {
        shard: ShardId,
        epoch: Epoch,
        slot: Slot,
        txn: TxId,
    },
    /// Tells a member the decision of a transaction in its log.
    DecisionFor {
        epoch: Epoch,
        slot: Slot,
        txn: TxId,
        commit: bool,
    },
    /// Asks a member to promise an epoch.
    Probe {
        epoch: Epoch,
    },
    /// The promise, and the last epoch in which the member was initialised (0 if never).
    ProbeAck {
        epoch: Epoch,
        state: Epoch,
    },
    NewConfig {
        config: Config,
    },
    /// A leader's rows, to a follower.
    NewState {
        config: Config,
        rows: Rows,
    },
    ConfigChange {
        config: Config,
    },
    /// Asks the configuration service for the last configuration of a shard.
    Last {
        shard: ShardId,
    },
    /// Asks the configuration service for the configuration of an epoch.
    At {
        shard: ShardId,
        epoch: Epoch,
    },
    /// Asks the configuration service to store a configuration.
    Cas {
        config: Config,
    },
    Stored {
        config: Config,
    },
    OutcomeOf {
        txn: TxId,
        decision: Decision,
    },
    /// The kind of a message that was not acted on, why, and the receiver's mark.
    Refused {
        kind: u8,
        why: Why,
        mark: u32,
    },
    /// A piece of a leader's rows, numbered from 1, and how many pieces there are.
    StatePiece {
        config: Config,
        piece: u16,
        pieces: u16,
        rows: Rows,
    },
}

/// A message and the node that it is for; 0 is the configuration service.
#[derive(Debug, Drop)]
pub struct Outgoing {
    pub to: NodeId,
    pub message: Message,
}

impl Message {
    /// The same message again.
    pub fn copy(&self, alloc: Global) -> Result<Message, OutOfMemory>
        ensures { IfOk result (λ c. c ≡ self.now) }
    {
        let copy = match self {
            Message::Prepare {
                epoch,
                txn,
                shards,
                payload,
            } => Message::Prepare {
                epoch: *epoch,
                txn: *txn,
                shards: shards.copy(alloc)?,
                payload: copy_payload(alloc, payload)?,
            },
            Message::PrepareAck {
                shard,
                epoch,
                entry,
            } => Message::PrepareAck {
                shard: *shard,
                epoch: *epoch,
                entry: entry.copy(alloc)?,
            },
            Message::Accept { epoch, entry } => Message::Accept {
                epoch: *epoch,
                entry: entry.copy(alloc)?,
            },
            Message::AcceptAck {
                shard,
                epoch,
                slot,
                txn,
            } => Message::AcceptAck {
                shard: *shard,
                epoch: *epoch,
                slot: *slot,
                txn: *txn,
            },
            Message::DecisionFor {
                epoch,
                slot,
                txn,
                commit,
            } => Message::DecisionFor {
                epoch: *epoch,
                slot: *slot,
                txn: *txn,
                commit: *commit,
            },
            Message::Probe { epoch } => Message::Probe { epoch: *epoch },
            Message::ProbeAck { epoch, state } => Message::ProbeAck {
                epoch: *epoch,
                state: *state,
            },
            Message::NewConfig { config } => Message::NewConfig {
                config: config.copy(alloc)?,
            },
            Message::NewState { config, rows } => Message::NewState {
                config: config.copy(alloc)?,
                rows: rows.copy(alloc)?,
            },
            Message::ConfigChange { config } => Message::ConfigChange {
                config: config.copy(alloc)?,
            },
            Message::Last { shard } => Message::Last { shard: *shard },
            Message::At { shard, epoch } => Message::At {
                shard: *shard,
                epoch: *epoch,
            },
            Message::Cas { config } => Message::Cas {
                config: config.copy(alloc)?,
            },
            Message::Stored { config } => Message::Stored {
                config: config.copy(alloc)?,
            },
            Message::OutcomeOf { txn, decision } => Message::OutcomeOf {
                txn: *txn,
                decision: *decision,
            },
            Message::Refused { kind, why, mark } => Message::Refused {
                kind: *kind,
                why: *why,
                mark: *mark,
            },
            Message::StatePiece {
                config,
                piece,
                pieces,
                rows,
            } => Message::StatePiece {
                config: config.copy(alloc)?,
                piece: *piece,
                pieces: *pieces,
                rows: rows.copy(alloc)?,
            },
        };
        Ok(copy)
    }
}

impl Outgoing {
    /// The same message again, for the same node.
    pub fn copy(&self, alloc: Global) -> Result<Outgoing, OutOfMemory>
        ensures { IfOk result (λ c. c ≡ self.now) }
    {
        Ok(Outgoing {
            to: self.to,
            message: self.message.copy(alloc)?,
        })
    }
}
