//! How many transactions notes begin and abort.
ghost use Rattle.std.specs.Prelude.{◌≡◌, length, IfOk, OnOk};
ghost use Rattle.judge.specs.Verdicts.{abort_in};
ghost use Rattle.judge.specs.Watching.{put_next};
ghost use Rattle.workload.specs.Counts.{begun_in, begun_of, aborted_of};

use indexmap::IndexSet;
use std::alloc::Global;
use tcs_terms::{Decision, Note, OutOfMemory, TxId};

/// The transaction that a note begins.
fn begun_in(note: &Note) -> Option<TxId>
    ensures { result ≡ begun_in note.now }
{
    match note {
        Note::Begin { txn, .. } => Some(*txn),
        Note::Take { .. } | Note::ReadValue { .. } | Note::Decide { .. } => None,
    }
}

/// The transaction that a note decides to abort.
fn abort_in(note: &Note) -> Option<TxId>
    ensures { result ≡ abort_in note.now }
{
    match note {
        Note::Begin { .. } | Note::Take { .. } | Note::ReadValue { .. } => None,
        Note::Decide { txn, decision } => match decision {
            Decision::Commit => None,
            Decision::Abort { .. } => Some(*txn),
        },
    }
}

/// Puts a transaction last, if there is one, unless it is there.
fn put_next(txns: &mut IndexSet<TxId>, txn: Option<TxId>) -> Result<(), OutOfMemory>
    ensures { OnOk result (txns.new.keys ≡ put_next txns.old.keys txn) }
{
    match txn {
        None => Ok(()),
        Some(txn) => {
            txns.insert(txn)?;
            Ok(())
        }
    }
}

/// How many transactions were begun.
pub(crate) fn begun_of(alloc: Global, history: &[Note]) -> Result<usize, OutOfMemory>
    ensures { IfOk result (λ count. count ≡ length (begun_of history.now)) }
{
    let mut txns = IndexSet::new(alloc);
    for note in history {
        put_next(&mut txns, begun_in(note))?;
    }
    Ok(txns.len())
}

/// How many transactions were decided to abort.
pub(crate) fn aborted_of(alloc: Global, history: &[Note]) -> Result<usize, OutOfMemory>
    ensures { IfOk result (λ count. count ≡ length (aborted_of history.now)) }
{
    let mut txns = IndexSet::new(alloc);
    for note in history {
        put_next(&mut txns, abort_in(note))?;
    }
    Ok(txns.len())
}
