//! Lost causes: an abort of a lost transaction stands after a take-over of it.
ghost use Rattle.std.specs.Prelude.{◌≡◌, IfOk, OnOk};
ghost use Rattle.protocol.specs.CorrectHistory.{lost_after};
ghost use Rattle.judge.specs.Watching.{AreTaken, loss_decided, lost_now, taken_with};

use crate::payloads::keep_txn;
use crate::watch::Watch;
use indexmap::IndexSet;
use std::alloc::Global;
use tcs_terms::{Cause, Decision, Note, OutOfMemory, TxId};

/// Which transactions were taken over.
#[derive(Debug, Drop)]
pub struct TakeOvers {
    taken: IndexSet<TxId>,
}

impl TakeOvers {
    /// Whether a transaction that is decided so was taken over, where it is lost.
    fn allows(&self, txn: TxId, decision: Decision) -> bool
        ensures { result ≡ loss_decided self.now.taken.keys txn decision }
    {
        match decision {
            Decision::Commit => true,
            Decision::Abort { cause, .. } => match cause {
                Cause::Clash(_) => true,
                Cause::Lost => self.taken.contains(&txn),
            },
        }
    }

    /// Whether a note stands after a take-over, where it has to. It is kept.
    fn hear(&mut self, note: &Note) -> Result<bool, OutOfMemory>
        ensures passes { IfOk result (λ b. b ≡ lost_now self.old.taken.keys note.now) }
        ensures taken { OnOk result (self.new.taken.keys ≡ taken_with self.old.taken.keys note.now) }
    {
        match note {
            Note::Begin { .. } | Note::ReadValue { .. } => Ok(true),
            Note::Take { txn } => {
                keep_txn(&mut self.taken, *txn)?;
                Ok(true)
            }
            Note::Decide { txn, decision } => Ok(self.allows(*txn, *decision)),
        }
    }
}

impl Watch for TakeOvers {
    ghost test = { λ n past note. lost_after past note };

    ghost StandsFor = { λ t past. AreTaken t.taken.keys past };

    fn fresh(alloc: Global) -> Self {
        TakeOvers {
            taken: IndexSet::new(alloc),
        }
    }

    fn take(&mut self, _alloc: Global, _shards: u8, note: &Note) -> Result<bool, OutOfMemory> {
        let passes = self.hear(note)?;
        Ok(passes)
    }
}
