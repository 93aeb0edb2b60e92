//! What a node is given, what it answers and notes, and the events of a run.

ghost use Rattle.std.specs.Prelude.{◌≡◌, IfOk};

use crate::configurations::Wanted;
use crate::ids::{NodeId, ShardId, TxId};
use crate::memory::OutOfMemory;
use crate::messages::Message;
use crate::objects::{Name, Value};
use crate::payloads::Payload;
use crate::votes::Decision;
use std::alloc::Global;

/// What a node is given.
#[derive(Debug, Drop)]
pub enum Input {
    /// A client hands in a payload.
    Certify(Payload),
    /// Take over a transaction whose preparation the node holds.
    Take(TxId),
    /// Send again what has had no answer.
    Nudge,
    /// Move a shard to a new configuration with these nodes beside its leader.
    Move { shard: ShardId, want: Wanted },
    /// Go down one epoch after a low answer.
    Lower,
    /// Read an object.
    ReadName(Name),
    /// Ask the configuration service for a shard's last configuration.
    Ask(ShardId),
    Deliver { from: NodeId, message: Message },
}

/// What a node did with an input. `Stale` and `Held` tell the mark that the input was held against.
#[derive(Clone, Copy, Debug, PartialEq, Eq)]
pub enum Handled {
    Acted,
    Stale(u32),
    Held(u32),
    Full,
}

/// What became of an event of a run.
#[derive(Clone, Copy, Debug, PartialEq, Eq)]
pub enum Result1 {
    Node(Handled),
    /// The node has stopped.
    Gone,
    /// No message of that number was sent.
    Unsent,
}

/// What a run notes for its history.
#[derive(Debug, Drop)]
pub enum Note {
    Begin {
        txn: TxId,
        payload: Payload,
    },
    Take {
        txn: TxId,
    },
    ReadValue {
        name: Name,
        version: u64,
        value: Value,
    },
    Decide {
        txn: TxId,
        decision: Decision,
    },
}

/// An event of a run.
#[derive(Debug, Drop)]
pub enum Event {
    /// A client's call. Its input is never `Deliver`.
    Call { node: NodeId, input: Input },
    /// The delivery of the message of that number, from 1.
    DeliverNumber(u32),
    Stop(NodeId),
}

impl Input {
    /// The same input again.
    pub fn copy(&self, alloc: Global) -> Result<Input, OutOfMemory>
        ensures { IfOk result (λ c. c ≡ self.now) }
    {
        let copy = match self {
            Input::Certify(payload) => Input::Certify(payload.copy(alloc)?),
            Input::Take(txn) => Input::Take(*txn),
            Input::Nudge => Input::Nudge,
            Input::Move { shard, want } => Input::Move {
                shard: *shard,
                want: want.copy(alloc)?,
            },
            Input::Lower => Input::Lower,
            Input::ReadName(name) => Input::ReadName(name.copy(alloc)?),
            Input::Ask(shard) => Input::Ask(*shard),
            Input::Deliver { from, message } => Input::Deliver {
                from: *from,
                message: message.copy(alloc)?,
            },
        };
        Ok(copy)
    }
}

impl Note {
    /// The same note again.
    pub fn copy(&self, alloc: Global) -> Result<Note, OutOfMemory>
        ensures { IfOk result (λ c. c ≡ self.now) }
    {
        let copy = match self {
            Note::Begin { txn, payload } => Note::Begin {
                txn: *txn,
                payload: payload.copy(alloc)?,
            },
            Note::Take { txn } => Note::Take { txn: *txn },
            Note::ReadValue {
                name,
                version,
                value,
            } => Note::ReadValue {
                name: name.copy(alloc)?,
                version: *version,
                value: value.copy(alloc)?,
            },
            Note::Decide { txn, decision } => Note::Decide {
                txn: *txn,
                decision: *decision,
            },
        };
        Ok(copy)
    }
}

impl Event {
    /// The same event again.
    pub fn copy(&self, alloc: Global) -> Result<Event, OutOfMemory>
        ensures { IfOk result (λ c. c ≡ self.now) }
    {
        let copy = match self {
            Event::Call { node, input } => Event::Call {
                node: *node,
                input: input.copy(alloc)?,
            },
            Event::DeliverNumber(number) => Event::DeliverNumber(*number),
            Event::Stop(node) => Event::Stop(*node),
        };
        Ok(copy)
    }
}
