//! Agreement: each decision stands after the transaction's beginning, and all decisions of one transaction are equal.
ghost use Rattle.std.specs.Prelude.{◌≡◌, ◌&&◌, IfOk, OnOk};
ghost use Rattle.std.specs.List.{list_any};
ghost use Rattle.std.specs.Map.{lookup};
ghost use Rattle.tcs_terms.specs.Logs.{same_txn};
ghost use Rattle.protocol.specs.CorrectHistory.{agrees_after, same_cause, same_decision};
ghost use Rattle.judge.specs.Watching.{AreDecisions, agrees_now, begun_with, decided_so, decisions_with};

use crate::payloads::{keep_first, keep_txn};
use crate::watch::Watch;
use indexmap::{IndexMap, IndexSet};
use std::alloc::Global;
use tcs_terms::{Cause, Decision, Note, OutOfMemory, TxId};

fn same_cause(a: Cause, b: Cause) -> bool
    ensures { result ≡ same_cause a b }
{
    match (a, b) {
        (Cause::Clash(t), Cause::Clash(u)) => t == u,
        (Cause::Lost, Cause::Lost) => true,
        (Cause::Clash(_), Cause::Lost) | (Cause::Lost, Cause::Clash(_)) => false,
    }
}

fn same_decision(a: Decision, b: Decision) -> bool
    ensures { result ≡ same_decision a b }
{
    match (a, b) {
        (Decision::Commit, Decision::Commit) => true,
        (Decision::Abort { shard, cause }, Decision::Abort { shard: s, cause: c }) => {
            shard == s && same_cause(cause, c)
        }
        (Decision::Commit, Decision::Abort { .. }) | (Decision::Abort { .. }, Decision::Commit) =>
            false,
    }
}

/// Which transactions have begun, and how they were first decided.
#[derive(Debug, Drop)]
pub struct Decisions {
    begun: IndexSet<TxId>,
    decisions: IndexMap<TxId, Decision>,
}

impl Decisions {
    /// Whether a decision is the one that is kept of the transaction, if one is.
    fn is_so(&self, txn: TxId, decision: Decision) -> bool
        ensures { result ≡ decided_so decision (lookup (same_txn txn) self.now.decisions.entries) }
    {
        match self.decisions.get(&txn) {
            None => true,
            Some(kept) => same_decision(*kept, decision),
        }
    }

    /// Whether a decision agrees with those before it, and stands after the beginning.
    fn allows(&self, txn: TxId, decision: Decision) -> bool
        ensures { result ≡ (list_any (same_txn txn) self.now.begun.keys && decided_so decision (lookup (same_txn txn) self.now.decisions.entries)) }
    {
        self.begun.contains(&txn) && self.is_so(txn, decision)
    }

    /// Whether a note agrees with those before it. It is kept.
    fn hear(&mut self, note: &Note) -> Result<bool, OutOfMemory>
        ensures agrees { IfOk result (λ b. b ≡ agrees_now self.old.begun.keys self.old.decisions.entries note.now) }
        ensures begun { OnOk result (self.new.begun.keys ≡ begun_with self.old.begun.keys note.now) }
        ensures decisions { OnOk result (self.new.decisions.entries ≡ decisions_with self.old.decisions.entries note.now) }
    {
        match note {
            Note::Begin { txn, .. } => {
                keep_txn(&mut self.begun, *txn)?;
                Ok(true)
            }
            Note::Take { .. } | Note::ReadValue { .. } => Ok(true),
            Note::Decide { txn, decision } => {
                let agrees = self.allows(*txn, *decision);
                keep_first(&mut self.decisions, *txn, *decision)?;
                Ok(agrees)
            }
        }
    }
}

impl Watch for Decisions {
    ghost test = { λ n past note. agrees_after past note };

    ghost StandsFor = { λ d past. AreDecisions d.begun.keys d.decisions.entries past };

    fn fresh(alloc: Global) -> Self {
        Decisions {
            begun: IndexSet::new(alloc),
            decisions: IndexMap::new(alloc),
        }
    }

    fn take(&mut self, _alloc: Global, _shards: u8, note: &Note) -> Result<bool, OutOfMemory> {
        let agrees = self.hear(note)?;
        Ok(agrees)
    }
}
