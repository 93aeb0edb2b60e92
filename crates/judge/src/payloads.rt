//! The payloads with which transactions began.
ghost use Rattle.std.specs.Prelude.{◌≡◌, IfOk, OnOk};
ghost use Rattle.judge.specs.Watching.{ArePayloads, payloads_with, with_first, with_txn};

use indexmap::{IndexMap, IndexSet};
use std::alloc::Global;
use tcs_terms::{Note, OutOfMemory, Payload, TxId};

/// The payload of each transaction that has begun.
pub type Payloads = IndexMap<TxId, Payload>;

/// Keeps a value of a transaction, unless one is kept.
pub fn keep_first<V: Drop>(
    kept: &mut IndexMap<TxId, V>,
    txn: TxId,
    value: V,
) -> Result<(), OutOfMemory>
    ensures { OnOk result (kept.new.entries ≡ with_first kept.old.entries txn value) }
{
    if !kept.contains_key(&txn) {
        kept.insert(txn, value)?;
    }
    Ok(())
}

/// Keeps a transaction, unless it is kept.
pub fn keep_txn(kept: &mut IndexSet<TxId>, txn: TxId) -> Result<(), OutOfMemory>
    ensures { OnOk result (kept.new.keys ≡ with_txn kept.old.keys txn) }
{
    kept.insert(txn)?;
    Ok(())
}

/// Keeps the payload with which a note begins a transaction, unless it began before.
pub fn keep_begun(alloc: Global, payloads: &mut Payloads, note: &Note) -> Result<(), OutOfMemory>
    ensures { OnOk result (payloads.new.entries ≡ payloads_with payloads.old.entries note.now) }
{
    match note {
        Note::Begin { txn, payload } => {
            let payload = payload.copy(alloc)?;
            keep_first(payloads, *txn, payload)?;
            Ok(())
        }
        Note::Take { .. } | Note::ReadValue { .. } | Note::Decide { .. } => Ok(()),
    }
}

/// The payload of each transaction of a history.
pub fn payloads_of(alloc: Global, history: &[Note]) -> Result<Payloads, OutOfMemory>
    ensures { IfOk result (λ payloads. ArePayloads payloads.entries history.now) }
{
    let mut payloads = IndexMap::new(alloc);
    for note in history {
        keep_begun(alloc, &mut payloads, note)?;
    }
    Ok(payloads)
}
