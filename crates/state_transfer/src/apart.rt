//! Whether rows stand apart from those of other pieces, by their ends and their transactions alone.
ghost use Rattle.std.specs.Prelude.{◌≡◌};
ghost use Rattle.state_transfer.specs.Apart.{ends_below, are_new};

use std::collections::HashSet;
use tcs_terms::{Row, TxId};

/// Whether rows end below where others begin.
pub fn ends_below(lower: &[Row], upper: &[Row]) -> bool
    ensures { result ≡ ends_below lower.now upper.now }
{
    match (lower.last(), upper.first()) {
        (Some(last), Some(first)) => last.entry.slot < first.entry.slot,
        _ => true,
    }
}

/// Whether no row has one of these transactions.
pub fn are_new(txns: &HashSet<TxId>, rows: &[Row]) -> bool
    ensures { result ≡ are_new txns.now.keys rows.now }
{
    rows.iter().all(|row| !txns.contains(&row.entry.txn))
}
