//! The log, and how it changes.
ghost use Rattle.std.specs.Prelude.{◌≡◌, ◌↔◌, [], true, false, not, is_some, IsTrue, IfOk, OnOk, OnErr, IsErrOf};
ghost use Rattle.std.specs.Option.{option_copied};
ghost use Rattle.tcs_terms.specs.Logs.{AreRows};
ghost use Rattle.tcs_terms.specs.Messages.{is_slot};
ghost use Rattle.protocol.specs.Log.{row_of, row_at, has_at, is_full, is_taken, vote_on_part, new_entry, put_entry, accepted, marked, mark_of};
ghost use Rattle.cert_log.specs.Preparing.{prepared_entry, prepared_rows, finds_no_room};
ghost use Rattle.cert_log.specs.Standing.{StandsWhere};

use crate::faults::PrepareFault;
use crate::marks::{mark_of, mark_row};
use crate::row_search::{free_place, last_slot, place_of, row_at};
use crate::standing::index_of;
use crate::votes::Votes;
use std::alloc::Global;
use std::collections::HashMap;
use std::marker::Model;
use tcs_laws::VoteGuard;
use tcs_terms::limits::MAX_SLOT;
use tcs_terms::{Entry, Mark, OutOfMemory, Payload, Row, ShardSet, Slot, TxId, Vote};

/// A log whose votes are given by a guard `G`: rows in ascending slots from 1 to 4,096, each of another transaction.
/// Seen as the list of its rows.
#[derive(Debug, Drop)]
pub struct CertLog<G: VoteGuard> {
    rows: Vec<Row>,
    /// The slot of each transaction's row.
    index: HashMap<TxId, Slot>,
    votes: Votes<G>,
}

impl<G: VoteGuard> Model for CertLog<G> {
    ghost use Rattle.std.specs.Prelude.{List};
    ghost use Rattle.tcs_terms.specs.declared.logs.Row.{Row};
    ghost use Rattle.cert_log.specs.Standing.{IsLog, StandsWhere};

    ghost Value = { List Row };

    ghost view = { λ l. l.rows.items };

    ghost invariant = { λ l. IsLog (StandsWhere G.StandsFor l.votes.guard) l.index.entries l.rows.items };
}

impl<G: VoteGuard> CertLog<G> {
    /// The log without rows.
    pub fn new(alloc: Global) -> CertLog<G>
        ensures { result ≡ [] }
    {
        CertLog {
            rows: Vec::new(alloc),
            index: HashMap::new(alloc),
            votes: Votes::none(),
        }
    }

    /// The log of rows that were handed over. They may have marks.
    pub fn from_rows(alloc: Global, rows: Vec<Row>) -> Result<CertLog<G>, OutOfMemory>
        requires { AreRows rows.items }
        ensures { IfOk result (λ log. log ≡ rows.items) }
    {
        let index = index_of(alloc, &rows)?;
        Ok(CertLog {
            rows,
            index,
            votes: Votes::none(),
        })
    }

    /// The rows, slots ascending.
    pub fn rows(&self) -> &[Row]
        ensures rows { result.now ≡ self.now }
        ensures are_rows { AreRows self.now }
    {
        self.rows.as_slice()
    }

    /// The row of a transaction.
    pub fn row_of(&self, txn: TxId) -> Option<&Row>
        ensures { option_copied result ≡ row_of self.now txn }
    {
        match self.index.get(&txn) {
            None => None,
            Some(slot) => row_at(&self.rows, *slot),
        }
    }

    /// The row of a slot.
    pub fn at(&self, slot: Slot) -> Option<&Row>
        ensures { option_copied result ≡ row_at self.now slot }
    {
        row_at(&self.rows, slot)
    }

    /// Whether the row of this slot is of this transaction.
    pub fn has_at(&self, slot: Slot, txn: TxId) -> bool
        ensures { result ≡ has_at self.now slot txn }
    {
        match self.at(slot) {
            None => false,
            Some(row) => row.entry.txn == txn,
        }
    }

    /// Whether the last slot is taken, so that no new transaction can be prepared.
    pub fn is_full(&self) -> bool
        ensures { result ≡ is_full self.now }
    {
        last_slot(&self.rows) >= MAX_SLOT
    }

    /// Whether an entry can't be accepted: another transaction has its slot, or its slot is free while its transaction
    /// has another one.
    pub fn is_taken(&self, entry: &Entry) -> bool
        ensures { result ≡ is_taken self.now entry.now }
    {
        let (slot, txn) = (entry.slot, entry.txn);
        !self.has_at(slot, txn) && (self.at(slot).is_some() || self.row_of(txn).is_some())
    }

    /// Prepares a transaction: the entry that the log keeps of it, else one in the next slot, with the vote over the
    /// rows before it, which is appended. A transaction without payload is lost. After an `Err` the log is as before.
    ///
    /// # Errors
    /// `Full` where the transaction is new and the last slot is taken.
    pub fn prepare(
        &mut self,
        alloc: Global,
        txn: TxId,
        shards: ShardSet,
        part: Option<Payload>,
    ) -> Result<Entry, PrepareFault>
        ensures entry { IfOk result (λ entry. entry ≡ prepared_entry G.Rule.tests self.old txn shards part) }
        ensures rows { OnOk result (self.new ≡ prepared_rows G.Rule.tests self.old txn shards part) }
        ensures full { IsErrOf result PrepareFault.Full ↔ IsTrue (finds_no_room self.old txn) }
        ensures err { OnErr result (self.new ≡ self.old) }
    {
        if let Some(kept) = self.row_of(txn) {
            return Ok(kept.entry.copy(alloc)?);
        }
        if self.is_full() {
            return Err(PrepareFault::Full);
        }
        let entry = self.new_entry(alloc, txn, shards, part)?;
        let answer = entry.copy(alloc)?;
        self.put(entry)?;
        Ok(answer)
    }

    /// Accepts an entry: it is put in its place, undecided, unless its slot has its transaction already. After an
    /// `Err` the log is as before.
    pub fn accept(&mut self, entry: Entry) -> Result<(), OutOfMemory>
        requires slot { IsTrue (is_slot entry.slot) }
        requires free { is_taken self.old entry ≡ false }
        ensures rows { OnOk result (self.new ≡ accepted self.old entry) }
        ensures err { OnErr result (self.new ≡ self.old) }
    {
        if self.has_at(entry.slot, entry.txn) {
            return Ok(());
        }
        self.votes = Votes::none();
        self.put(entry)
    }

    /// Marks the row of a slot, if there is one and it has no mark yet. Takes no memory.
    pub fn mark(&mut self, slot: Slot, commit: bool)
        ensures { self.new ≡ marked self.old slot (mark_of commit) }
    {
        if let Ok(at) = place_of(&self.rows, slot) {
            mark_row(&mut self.rows, &mut self.votes, at, mark_of(commit));
        }
    }

    /// The entry of a new transaction.
    fn new_entry(
        &mut self,
        alloc: Global,
        txn: TxId,
        shards: ShardSet,
        part: Option<Payload>,
    ) -> Result<Entry, OutOfMemory>
        requires { is_full self.old ≡ false }
        ensures entry { IfOk result (λ entry. entry ≡ new_entry G.Rule.tests self.old txn shards part) }
        ensures are_rows { AreRows self.old }
        ensures same { self.new ≡ self.old }
    {
        let vote = vote_on_part(alloc, &mut self.votes, &self.rows, &part)?;
        Ok(Entry {
            slot: last_slot(&self.rows) + 1,
            txn,
            shards,
            payload: part,
            vote,
        })
    }

    /// Puts an entry in its place. What may fail comes first, so that after an `Err` the log is as before.
    fn put(&mut self, entry: Entry) -> Result<(), OutOfMemory>
        requires slot { IsTrue (is_slot entry.slot) }
        requires free { is_some (row_at self.old entry.slot) ≡ false }
        requires new { is_some (row_of self.old entry.txn) ≡ false }
        ensures rows { OnOk result (self.new ≡ put_entry self.old entry) }
        ensures err { OnErr result (self.new ≡ self.old) }
    {
        let (slot, txn) = (entry.slot, entry.txn);
        let at = free_place(&self.rows, slot);
        self.rows.reserve(1)?;
        self.index.reserve(1)?;
        let row = Row {
            entry,
            mark: Mark::Undecided,
        };
        self.votes.prepared(&row)?;
        self.index.insert(txn, slot)?;
        self.rows.insert(at, row)?;
        Ok(())
    }
}

/// The vote on the part of a payload over the rows: without one the preparation is lost.
fn vote_on_part<G: VoteGuard>(
    alloc: Global,
    votes: &mut Votes<G>,
    rows: &[Row],
    part: &Option<Payload>,
) -> Result<Vote, OutOfMemory>
    requires are_rows { AreRows rows.now }
    requires stands { StandsWhere G.StandsFor votes.old.guard rows.now }
    ensures vote { IfOk result (λ vote. vote ≡ vote_on_part G.Rule.tests rows.now part.now) }
    ensures stands { StandsWhere G.StandsFor votes.new.guard rows.now }
{
    match part {
        None => Ok(Vote::Lost),
        Some(part) => votes.vote(alloc, rows, part),
    }
}
