//! Transactions in the order of their first decisions.
ghost use Rattle.std.specs.Prelude.{◌≡◌, ◌<◌, ◌≤◌, ◌^◌, length, filter_map, IfOk, OnOk};
ghost use Rattle.protocol.specs.History.{commit_in, first_of_each, order_of};
ghost use Rattle.judge.specs.Verdicts.{abort_in, decided_in, counted};
ghost use Rattle.judge.specs.Watching.{put_next};

use crate::payloads::keep_txn;
use crate::verdicts::Verdict;
use crate::watch::decided_in;
use indexmap::IndexSet;
use std::alloc::Global;
use tcs_terms::{Decision, Note, OutOfMemory, TxId};

/// The transaction that a note decides to commit, if it is such a note.
fn commit_in(note: &Note) -> Option<TxId>
    ensures { result ≡ commit_in note.now }
{
    match note {
        Note::Begin { .. } | Note::Take { .. } | Note::ReadValue { .. } => None,
        Note::Decide { txn, decision } => match decision {
            Decision::Commit => Some(*txn),
            Decision::Abort { .. } => None,
        },
    }
}

/// The transaction that a note decides to abort, if it is such a note.
fn abort_in(note: &Note) -> Option<TxId>
    ensures { result ≡ abort_in note.now }
{
    match note {
        Note::Begin { .. } | Note::Take { .. } | Note::ReadValue { .. } => None,
        Note::Decide { txn, decision } => match decision {
            Decision::Commit => None,
            Decision::Abort { .. } => Some(*txn),
        },
    }
}

/// Puts a transaction last, if there is one, unless it is there.
fn put_next(txns: &mut IndexSet<TxId>, txn: Option<TxId>) -> Result<(), OutOfMemory>
    ensures { OnOk result (txns.new.keys ≡ put_next txns.old.keys txn) }
{
    match txn {
        None => Ok(()),
        Some(txn) => keep_txn(txns, txn),
    }
}

/// The committed transactions, in the order of their first decisions.
pub fn order_of(alloc: Global, history: &[Note]) -> Result<IndexSet<TxId>, OutOfMemory>
    ensures order { IfOk result (λ order. order.keys ≡ order_of history.now) }
    ensures few { IfOk result (λ order. length order.keys ≤ length history.now) }
{
    let mut txns = IndexSet::new(alloc);
    for note in history {
        put_next(&mut txns, commit_in(note))?;
    }
    Ok(txns)
}

/// The transactions that were decided, each once.
fn decided_of(alloc: Global, history: &[Note]) -> Result<IndexSet<TxId>, OutOfMemory>
    ensures txns { IfOk result (λ txns. txns.keys ≡ first_of_each (filter_map decided_in history.now)) }
    ensures few { IfOk result (λ txns. length txns.keys ≤ length history.now) }
{
    let mut txns = IndexSet::new(alloc);
    for note in history {
        put_next(&mut txns, decided_in(note))?;
    }
    Ok(txns)
}

/// The transactions that were aborted, each once.
fn aborted_of(alloc: Global, history: &[Note]) -> Result<IndexSet<TxId>, OutOfMemory>
    ensures txns { IfOk result (λ txns. txns.keys ≡ first_of_each (filter_map abort_in history.now)) }
    ensures few { IfOk result (λ txns. length txns.keys ≤ length history.now) }
{
    let mut txns = IndexSet::new(alloc);
    for note in history {
        put_next(&mut txns, abort_in(note))?;
    }
    Ok(txns)
}

/// The verdict that all is right, with the numbers of transactions. `order` has those that were committed.
pub fn counted(
    alloc: Global,
    history: &[Note],
    order: &IndexSet<TxId>,
) -> Result<Verdict, OutOfMemory>
    requires short { length history.now < 2 ^ 32 }
    requires order { order.now.keys ≡ order_of history.now }
    requires few { length order.now.keys ≤ length history.now }
    ensures { IfOk result (λ verdict. verdict ≡ counted history.now) }
{
    let decided = decided_of(alloc, history)?;
    let aborted = aborted_of(alloc, history)?;
    Ok(Verdict::Correct {
        decided: decided.len() as u32,
        committed: order.len() as u32,
        aborted: aborted.len() as u32,
    })
}
