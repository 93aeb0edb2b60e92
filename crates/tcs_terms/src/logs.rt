//! Entries of a shard's log, and its rows.
ghost use Rattle.std.specs.Prelude.{◌≡◌, IfOk};

use crate::copies::{Copied, copy_all};
use crate::faults::RowsFault;
use crate::ids::{Slot, TxId};
use crate::memory::OutOfMemory;
use crate::payloads::{Payload, copy_payload};
use crate::row_faults::rows_fault;
use crate::shard_sets::ShardSet;
use crate::votes::Vote;
use std::alloc::Global;
use std::marker::Model;

/// A shard's preparation of a transaction: its slot in the log, the part of its payload that lies in the shard,
/// and the vote. There is no payload exactly where the vote is `Lost`.
#[derive(Debug, Drop)]
pub struct Entry {
    pub slot: Slot,
    pub txn: TxId,
    pub shards: ShardSet,
    pub payload: Option<Payload>,
    pub vote: Vote,
}

impl Model for Entry {
    ghost use Rattle.tcs_terms.specs.Preparations.{Preparation, KeepsPayload};

    ghost Value = { Preparation };

    ghost view = { λ e. record {
      slot = e.slot;
      txn = e.txn;
      shards = e.shards;
      payload = e.payload;
      vote = e.vote;
    } };

    ghost invariant = { λ e. KeepsPayload e.payload e.vote };
}

impl Entry {
    /// Another entry of the same parts.
    pub fn copy(&self, alloc: Global) -> Result<Entry, OutOfMemory>
        ensures { IfOk result (λ c. c ≡ self.now) }
    {
        Ok(Entry {
            slot: self.slot,
            txn: self.txn,
            shards: self.shards.copy(alloc)?,
            payload: copy_payload(alloc, &self.payload)?,
            vote: self.vote,
        })
    }
}

/// Whether a transaction's outcome is known to a node, and which it is.
#[derive(Clone, Copy, Debug, PartialEq, Eq, Hash)]
pub enum Mark {
    Undecided,
    Committed,
    Aborted,
}

/// A row of a log: an entry, and what is known of its transaction's outcome.
#[derive(Debug, Drop)]
pub struct Row {
    pub entry: Entry,
    pub mark: Mark,
}

impl Row {
    /// Another row of the same parts.
    pub fn copy(&self, alloc: Global) -> Result<Row, OutOfMemory>
        ensures { IfOk result (λ c. c ≡ self.now) }
    {
        Ok(Row {
            entry: self.entry.copy(alloc)?,
            mark: self.mark,
        })
    }
}

impl Copied for Row {
    fn copied(&self, alloc: Global) -> Result<Row, OutOfMemory> {
        self.copy(alloc)
    }
}

/// Rows of a log as they are sent: slots ascend within 1 to 4,096 and transactions are distinct.
/// Seen as their list.
#[derive(Debug, Drop)]
pub struct Rows {
    list: Vec<Row>,
}

impl Model for Rows {
    ghost use Rattle.std.specs.Prelude.{List};
    ghost use Rattle.tcs_terms.specs.declared.logs.Row.{Row};
    ghost use Rattle.tcs_terms.specs.Logs.{AreRows};

    ghost Value = { List Row };

    ghost view = { λ r. r.list.items };

    ghost invariant = { λ r. AreRows r.list.items };
}

impl Rows {
    ghost use Rattle.std.specs.Prelude.{OnOk, IfErr};
    ghost use Rattle.tcs_terms.specs.Logs.{AreRows};
    ghost use Rattle.tcs_terms.specs.RowFaults.{RowsRefused};

    /// The rows of this list.
    ///
    /// # Errors
    /// `Bad` with the place, from 0, of the first row whose slot is not above the one before or is out of range, or
    /// whose transaction stood before.
    #[tactic(auto, using(crate::proofs::RowLaws::are_rows_without_fault))]
    pub fn build(list: Vec<Row>) -> Result<Rows, RowsFault>
        ensures ok { OnOk result (AreRows list.items) }
        ensures value { IfOk result (λ r. r ≡ list.items) }
        ensures refusal { IfErr result (RowsRefused list.items) }
    {
        match rows_fault(*list.allocator(), &list) {
            Err(OutOfMemory) => Err(RowsFault::OutOfMemory),
            Ok(Some(place)) => Err(RowsFault::Bad(place)),
            Ok(None) => Ok(Rows { list }),
        }
    }

    /// The rows of a list that may stand in a log.
    pub fn of(list: Vec<Row>) -> Rows
        requires { AreRows list.items }
        ensures { result ≡ list.items }
    {
        Rows { list }
    }

    /// The list of the rows, slots ascending.
    pub fn into_list(self) -> Vec<Row>
        ensures list { result.items ≡ self }
        ensures rows { AreRows self }
    {
        self.list
    }

    /// The same rows again.
    pub fn copy(&self, alloc: Global) -> Result<Rows, OutOfMemory>
        ensures { IfOk result (λ c. c ≡ self.now) }
    {
        Ok(Rows {
            list: copy_all(alloc, &self.list)?,
        })
    }

    /// The rows, slots ascending.
    pub fn list(&self) -> &[Row]
        ensures list { result.now ≡ self.now }
        ensures rows { AreRows self.now }
    {
        self.list.as_slice()
    }
}
