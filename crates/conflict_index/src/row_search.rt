//! The row of a slot, found by halving.
ghost use Rattle.std.specs.Prelude.{◌≡◌, ◌==◌, find, IsTrue};
ghost use Rattle.std.specs.Option.{option_copied};
ghost use Rattle.conflict_index.specs.Keeping.{slots_rise};
ghost use Rattle.conflict_index.specs.Slots.{SplitsAt};

use tcs_terms::{Row, Slot};

/// The row of a slot, if there is one, among rows whose slots ascend.
pub fn row_at(rows: &[Row], slot: Slot) -> Option<&Row>
    requires { IsTrue (slots_rise rows.now) }
    ensures { option_copied result ≡ find (λ r. r.entry.slot == slot) rows.now }
{
    let at = split_at(rows, slot);
    if at == rows.len() {
        return None;
    }
    let row = &rows[at];
    if slot_of(row) == slot {
        Some(row)
    } else {
        None
    }
}

/// The index before which the rows have lower slots, and from which on none has.
fn split_at(rows: &[Row], slot: Slot) -> usize
    requires { IsTrue (slots_rise rows.now) }
    ensures { SplitsAt rows.now slot result }
{
    let mut low = 0;
    let mut high = rows.len();
    while low < high {
        let middle = low + (high - low) / 2;
        if slot_of(&rows[middle]) < slot {
            low = middle + 1;
        } else {
            high = middle;
        }
    }
    low
}

fn slot_of(row: &Row) -> Slot
    ensures { result ≡ row.now.entry.slot }
{
    row.entry.slot
}
