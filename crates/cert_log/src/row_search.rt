//! Rows by their slots, found by halving.
ghost use Rattle.std.specs.Prelude.{◌≡◌, false, is_some, IsTrue, MatchResult};
ghost use Rattle.std.specs.Option.{option_copied};
ghost use Rattle.tcs_terms.specs.Order.{ascends};
ghost use Rattle.protocol.specs.Log.{row_at, last_slot};
ghost use Rattle.cert_log.specs.Places.{slots_of, StandsAt, SplitsAt};

use tcs_terms::{Row, Slot};

/// Where the row of a slot stands, among rows whose slots ascend, or where it would stand.
pub fn place_of(rows: &[Row], slot: Slot) -> Result<usize, usize>
    requires { IsTrue (ascends (slots_of rows.now)) }
    ensures { MatchResult result (StandsAt rows.now slot) (SplitsAt rows.now slot) }
{
    rows.binary_search_by_key(&slot, slot_of)
}

fn slot_of(row: &Row) -> Slot
    ensures { result ≡ row.now.entry.slot }
{
    row.entry.slot
}

/// Where the row of a slot would stand that no row has, among rows whose slots ascend.
pub fn free_place(rows: &[Row], slot: Slot) -> usize
    requires ascend { IsTrue (ascends (slots_of rows.now)) }
    requires free { is_some (row_at rows.now slot) ≡ false }
    ensures { SplitsAt rows.now slot result }
{
    match place_of(rows, slot) {
        Ok(at) | Err(at) => at,
    }
}

/// The row of a slot, among rows whose slots ascend.
pub fn row_at(rows: &[Row], slot: Slot) -> Option<&Row>
    requires { IsTrue (ascends (slots_of rows.now)) }
    ensures { option_copied result ≡ row_at rows.now slot }
{
    match place_of(rows, slot) {
        Ok(at) => Some(&rows[at]),
        Err(_) => None,
    }
}

/// The greatest slot, among rows whose slots ascend; 0 where there is none.
pub fn last_slot(rows: &[Row]) -> Slot
    ensures { result ≡ last_slot rows.now }
{
    match rows.last() {
        None => 0,
        Some(row) => row.entry.slot,
    }
}
