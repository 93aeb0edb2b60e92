//! What the counters of a history are worth, told note by note.
ghost use Rattle.std.specs.Prelude.{◌≡◌, ◌<◌, ◌++◌, ◌∷◌, [], not, true, List, Some, length, IfOk, OnOk};
ghost use Rattle.std.specs.List.{list_any};
ghost use Rattle.tcs_terms.specs.declared.inputs.Note.{Note};
ghost use Rattle.tcs_terms.specs.declared.inputs.Note.TheVariants as notes;
ghost use Rattle.tcs_terms.specs.declared.votes.Decision.TheVariants.{Commit};
ghost use Rattle.tcs_terms.specs.Logs.{same_txn};
ghost use Rattle.protocol.specs.History.{has_begun, order_of, payloads_of};
ghost use Rattle.protocol_laws.specs.Growth.{with_commit};
ghost use Rattle.counters.specs.declared.limits.TheConstants.{MAX_PAYLOADS};
ghost use Rattle.counters.specs.Sums.{AreSums};
ghost use Rattle.counters.specs.Histories.{KeepsFirst, AreTotals, decided_after, may_follow, total};

use crate::sums::{Sums, add, sum_at};
use indexmap::{IndexMap, IndexSet};
use std::alloc::Global;
use std::collections::BTreeMap;
use tcs_terms::{Decision, Name, Note, OutOfMemory, Payload, TxId};

/// Keeps the payload with which a transaction begins, unless it began before.
fn keep_begun(
    begun: &mut IndexMap<TxId, Payload>,
    txn: TxId,
    payload: Payload,
) -> Result<(), OutOfMemory>
    ensures { OnOk result (KeepsFirst begun.old.entries begun.new.entries txn payload) }
{
    if !begun.contains_key(&txn) {
        begun.insert(txn, payload)?;
    }
    Ok(())
}

/// Puts a transaction behind those that committed before, unless it is among them, and says whether it was new.
fn keep_commit(committed: &mut IndexSet<TxId>, txn: TxId) -> Result<bool, OutOfMemory>
    ensures new { IfOk result (λ new. new ≡ not (list_any (same_txn txn) committed.old.keys)) }
    ensures keys { OnOk result (committed.new.keys ≡ with_commit committed.old.keys (Some txn)) }
{
    Ok(committed.insert(txn)?)
}

/// The sums of the amounts by which the committed transactions of a history add to counters. After want of memory they
/// are to be dropped.
#[derive(Debug, Drop)]
pub struct Totals {
    begun: IndexMap<TxId, Payload>,
    committed: IndexSet<TxId>,
    sums: Sums,
}

impl Totals {
    /// The totals of no notes.
    pub fn new(alloc: Global) -> Totals
        ensures { AreTotals result [] }
    {
        Totals {
            begun: IndexMap::new(alloc),
            committed: IndexSet::new(alloc),
            sums: BTreeMap::new(alloc),
        }
    }

    /// Goes on by a note of the history. A decision to commit stands behind the beginning of its transaction, and there
    /// are fewer notes than `MAX_PAYLOADS`.
    pub fn saw(&mut self, alloc: Global, note: &Note) -> Result<(), OutOfMemory>
        ensures { OnOk result ((past : List Note) → length past < MAX_PAYLOADS → may_follow past note.now ≡ true
            → AreTotals self.old past → AreTotals self.new (past ++ note.now ∷ [])) }
    {
        match note {
            Note::Begin { txn, payload } => {
                let payload = payload.copy(alloc)?;
                keep_begun(&mut self.begun, *txn, payload)?;
            }
            Note::Decide { txn, decision } => self.saw_decision(*txn, *decision)?,
            Note::Take { txn: _ } => {}
            Note::ReadValue {
                name: _,
                version: _,
                value: _,
            } => {}
        }
        Ok(())
    }

    /// Goes on by a decision.
    fn saw_decision(&mut self, txn: TxId, decision: Decision) -> Result<(), OutOfMemory>
        ensures { OnOk result ((past : List Note) → length past < MAX_PAYLOADS → decided_after past txn decision ≡ true
            → AreTotals self.old past → AreTotals self.new (past ++ notes.Decide txn decision ∷ [])) }
    {
        match decision {
            Decision::Commit => self.saw_commit(txn)?,
            Decision::Abort { shard: _, cause: _ } => {}
        }
        Ok(())
    }

    /// Goes on by a decision to commit: the first one of a transaction adds what its payload adds.
    fn saw_commit(&mut self, txn: TxId) -> Result<(), OutOfMemory>
        ensures { OnOk result ((past : List Note) → length past < MAX_PAYLOADS → has_begun past txn ≡ true
            → AreTotals self.old past → AreTotals self.new (past ++ notes.Decide txn Commit ∷ [])) }
    {
        if keep_commit(&mut self.committed, txn)? {
            match self.begun.get(&txn) {
                Some(payload) => add(&mut self.sums, payload)?,
                None => {}
            }
        }
        Ok(())
    }

    /// The sum of each counter to which a committed transaction adds, in the order of names.
    pub fn sums(&self) -> &Sums
        ensures { (past : List Note) → AreTotals self.now past → AreSums result.now (payloads_of past (order_of past)) }
    {
        &self.sums
    }

    /// The sum of the amounts by which committed transactions add to an object.
    pub fn of(&self, name: &Name) -> u64
        ensures { (past : List Note) → AreTotals self.now past → result ≡ total past name.now }
    {
        sum_at(&self.sums, name)
    }
}
