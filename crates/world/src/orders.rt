//! The order of commits, kept as decisions come.
ghost use Rattle.std.specs.Prelude.{◌≡◌, OnOk};
ghost use Rattle.protocol.specs.History.{commit_in};
ghost use Rattle.protocol_laws.specs.Growth.{with_commit};
ghost use Rattle.world.specs.Orders.{with_commits};

use indexmap::IndexSet;
use tcs_terms::{Decision, Note, OutOfMemory, TxId};

/// The transaction that a note decides to commit.
fn commit_in(note: &Note) -> Option<TxId>
    ensures { result ≡ commit_in note.now }
{
    match note {
        Note::Decide {
            txn,
            decision: Decision::Commit,
        } => Some(*txn),
        Note::Decide {
            txn: _,
            decision: Decision::Abort { .. },
        } => None,
        Note::Begin { .. } => None,
        Note::Take { .. } => None,
        Note::ReadValue { .. } => None,
    }
}

/// Puts the transaction that a note decides to commit behind those that committed before, if there is one and it is new.
fn keep_commit(order: &mut IndexSet<TxId>, note: &Note) -> Result<(), OutOfMemory>
    ensures { OnOk result (order.new.keys ≡ with_commit order.old.keys (commit_in note.now)) }
{
    match commit_in(note) {
        None => Ok(()),
        Some(txn) => {
            order.insert(txn)?;
            Ok(())
        }
    }
}

/// The same of notes, one after the other.
pub(crate) fn keep_commits(order: &mut IndexSet<TxId>, notes: &[Note]) -> Result<(), OutOfMemory>
    ensures { OnOk result (order.new.keys ≡ with_commits order.old.keys notes.now) }
{
    for note in notes {
        keep_commit(order, note)?;
    }
    Ok(())
}
