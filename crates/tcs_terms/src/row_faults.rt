//! Where rows are not those of a log.
ghost use Rattle.std.specs.Prelude.{◌≡◌, ◌∷◌, [], not, IfOk, OnOk};
ghost use Rattle.std.specs.List.{list_any};
ghost use Rattle.tcs_terms.specs.Logs.{same_txn, SameTxns};
ghost use Rattle.tcs_terms.specs.RowFaults.{rows_fault};

use crate::ids::{Slot, TxId};
use crate::limits::MAX_SLOT;
use crate::logs::Row;
use crate::memory::OutOfMemory;
use std::alloc::Global;
use std::collections::HashSet;

/// Remembers a transaction, and says whether it is new.
fn is_new(seen: &mut HashSet<TxId>, txn: TxId) -> Result<bool, OutOfMemory>
    ensures new { IfOk result (λ new. new ≡ not (list_any (same_txn txn) seen.old.keys)) }
    ensures kept { OnOk result (SameTxns seen.new.keys (txn ∷ seen.old.keys)) }
{
    Ok(seen.insert(txn)?)
}

fn slot_of(row: &Row) -> Slot
    ensures { result ≡ row.now.entry.slot }
{
    row.entry.slot
}

fn txn_of(row: &Row) -> TxId
    ensures { result ≡ row.now.entry.txn }
{
    row.entry.txn
}

/// The place of the first row whose slot is not above the one before or is out of range, or whose transaction
/// stood before. In the time of the list's length.
pub fn rows_fault(alloc: Global, list: &[Row]) -> Result<Option<usize>, OutOfMemory>
    ensures { IfOk result (λ place. place ≡ rows_fault 0 0 [] list.now) }
{
    let mut seen = HashSet::new(alloc);
    let mut last = 0;
    for (i, row) in list.iter().enumerate() {
        let slot = slot_of(row);
        if last >= slot || slot > MAX_SLOT {
            return Ok(Some(i));
        }
        if !is_new(&mut seen, txn_of(row))? {
            return Ok(Some(i));
        }
        last = slot;
    }
    Ok(None)
}
