//! What a log keeps beside its rows, made of rows.
ghost use Rattle.std.specs.Prelude.{IfOk};
ghost use Rattle.tcs_terms.specs.Logs.{AreRows};
ghost use Rattle.cert_log.specs.Standing.{IsIndexOf};

use std::alloc::Global;
use std::collections::HashMap;
use tcs_laws::VoteGuard;
use tcs_terms::{OutOfMemory, Row, Slot, TxId};

/// The index from transactions to slots.
pub fn index_of(alloc: Global, rows: &[Row]) -> Result<HashMap<TxId, Slot>, OutOfMemory>
    requires { AreRows rows.now }
    ensures { IfOk result (λ index. IsIndexOf index.entries rows.now) }
{
    let mut index = HashMap::new(alloc);
    for row in rows {
        index.insert(row.entry.txn, row.entry.slot)?;
    }
    Ok(index)
}

/// The guard that stands for the rows.
pub fn guard_of<G: VoteGuard>(alloc: Global, rows: &[Row]) -> Result<G, OutOfMemory>
    requires { AreRows rows.now }
    ensures { IfOk result (λ guard. G.StandsFor guard rows.now) }
{
    let mut guard = G::fresh(alloc);
    for row in rows {
        guard.prepared(row)?;
    }
    Ok(guard)
}
