//! What a reader of traces answers.
ghost use Rattle.std.specs.Prelude.{◌≡◌, IfOk};

use std::alloc::Global;
use std::marker::Model;
use tcs_terms::{Note, OutOfMemory, Rule, TxId};
use thiserror::Error;

/// Transactions in an order. Seen as their list.
#[derive(Debug, Drop)]
pub struct TxList {
    list: Vec<TxId>,
}

impl Model for TxList {
    ghost use Rattle.std.specs.Prelude.{List};
    ghost use Rattle.tcs_terms.specs.declared.ids.TxId.{TxId};

    ghost Value = { List TxId };

    ghost view = { λ t. t.list.items };
}

impl TxList {
    /// The transactions of this list.
    pub(crate) fn of(list: Vec<TxId>) -> TxList
        ensures { result ≡ list.items }
    {
        TxList { list }
    }

    /// The transactions, in order.
    pub fn list(&self) -> &[TxId]
        ensures { result.now ≡ self.now }
    {
        self.list.as_slice()
    }

    pub fn copy(&self, alloc: Global) -> Result<TxList, OutOfMemory>
        ensures { IfOk result (λ copy. copy ≡ self.now) }
    {
        let mut list = Vec::with_capacity(alloc, self.list.len())?;
        list.extend_from_slice(&self.list)?;
        Ok(TxList { list })
    }
}

/// What a line of a trace says.
#[derive(Debug, Drop)]
pub enum TraceItem {
    /// It is the first line: the rule of certification, and the number of shards, 1 to 16.
    Head { rule: Rule, shards: u8 },
    /// It is the line of an event.
    Event,
    /// It is the line of a note of the last event.
    NoteLine(Note),
    /// It is the line of a message that the last event sent.
    MessageLine,
    /// It has the transactions with a decision to commit, by their first one.
    Order(TxList),
    /// It is the last line.
    End,
}

/// Why a line of a trace was not taken.
#[derive(Clone, Copy, Debug, PartialEq, Eq, Error)]
pub enum TraceFault {
    /// It may not stand there.
    #[error("the line may not stand there")]
    Bad,
    #[error("out of memory")]
    OutOfMemory,
}
