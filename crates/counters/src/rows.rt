//! What a node has of a counter, by its committed rows.
ghost use Rattle.std.specs.Prelude.{◌≡◌, ◌≤◌, ◌<◌, ◌++◌, [], List, length, IfOk, OnOk};
ghost use Rattle.std.specs.List.{cons_option};
ghost use Rattle.std.specs.Option.{option_copied, option_map, unwrap_or};
ghost use Rattle.tcs_terms.specs.Payloads.{Accesses};
ghost use Rattle.counters.specs.declared.limits.TheConstants.{MAX_PAYLOADS};
ghost use Rattle.counters.specs.Amounts.{amount, committed_in, node_total, payload_marked};
ghost use Rattle.counters.specs.Sums.{AreSums};

use crate::amounts::amount;
use crate::sums::{Sums, add};
use std::alloc::Global;
use std::collections::BTreeMap;
use tcs_terms::{Mark, Name, OutOfMemory, Payload, Row};

/// The payload of a row, where it is marked committed and has one.
fn committed(row: &Row) -> Option<&Payload>
    ensures { option_copied result ≡ payload_marked row.now.mark row.now.entry.payload }
{
    match row.mark {
        Mark::Committed => row.entry.payload.as_ref(),
        Mark::Undecided | Mark::Aborted => None,
    }
}

/// The amount that a row adds to an object, 0 where it is not committed.
fn row_amount(row: &Row, name: &Name) -> u64
    ensures { result ≡ unwrap_or (option_map (λ p. amount p name.now) (payload_marked row.now.mark row.now.entry.payload)) 0 }
{
    match committed(row) {
        Some(payload) => amount(payload, name),
        None => 0,
    }
}

/// What a node of at most 4,096 rows has of an object: the sum of the amounts of its committed rows.
pub fn node_total(rows: &[Row], name: &Name) -> u64
    requires { length rows.now ≤ 4096 }
    ensures { result ≡ node_total rows.now name.now }
{
    let mut total = 0;
    for row in rows {
        total += row_amount(row, name);
    }
    total
}

/// Adds what a row adds to counters, where it is committed.
fn add_row(sums: &mut Sums, row: &Row) -> Result<(), OutOfMemory>
    ensures { OnOk result ((before : List Accesses) → length before < MAX_PAYLOADS → AreSums sums.old before
        → AreSums sums.new (before ++ cons_option (payload_marked row.now.mark row.now.entry.payload) [])) }
{
    match committed(row) {
        Some(payload) => add(sums, payload)?,
        None => {}
    }
    Ok(())
}

/// The sums of the committed rows of a node of at most 4,096 rows.
pub fn sums_of_rows(alloc: Global, rows: &[Row]) -> Result<Sums, OutOfMemory>
    requires { length rows.now ≤ 4096 }
    ensures { IfOk result (λ sums. AreSums sums (committed_in rows.now)) }
{
    let mut sums = BTreeMap::new(alloc);
    for row in rows {
        add_row(&mut sums, row)?;
    }
    Ok(sums)
}
