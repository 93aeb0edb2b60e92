//! Copies of rows.
ghost use Rattle.std.specs.Prelude.{◌≡◌, ◌++◌, IfOk, OnOk};
ghost use Rattle.tcs_terms.specs.Logs.{AreRows};

use std::alloc::Global;
use tcs_terms::{OutOfMemory, Row, Rows};

/// Appends copies of rows.
pub fn push_copies(alloc: Global, rows: &[Row], copies: &mut Vec<Row>) -> Result<(), OutOfMemory>
    ensures { OnOk result (copies.new.items ≡ copies.old.items ++ rows.now) }
{
    for row in rows {
        copies.push(row.copy(alloc)?)?;
    }
    Ok(())
}

/// A log's rows as a message holds them.
pub fn copied(alloc: Global, rows: &[Row]) -> Result<Rows, OutOfMemory>
    requires { AreRows rows.now }
    ensures { IfOk result (λ copy. copy ≡ rows.now) }
{
    let mut copies = Vec::new(alloc);
    push_copies(alloc, rows, &mut copies)?;
    Ok(Rows::of(copies))
}
