//! The committed writes of rows are taken in, one by one.
ghost use Rattle.std.specs.Prelude.{◌≡◌, ℕ, List, find, Option, Some, IfOk, OnOk};
ghost use Rattle.tcs_terms.specs.Payloads.{same_name};
ghost use Rattle.version_store.specs.Keeping.{kept_at, goes_before, better, found_write, after_write, part_write, write_of};

use crate::kept::{Kept, Writes};
use std::alloc::Global;
use tcs_terms::{Mark, OutOfMemory, Row, Slot, WritePart};

/// Takes in the writes of a row if it is committed. After an error some of them may have been taken in.
pub fn take_marked(alloc: Global, writes: &mut Writes, row: &Row) -> Result<(), OutOfMemory>
    ensures { OnOk result ((name : List ℕ) → kept_at writes.new name ≡ better (kept_at writes.old name) (write_of row.now name)) }
{
    match row.mark {
        Mark::Committed => take_row(alloc, writes, row),
        Mark::Undecided | Mark::Aborted => Ok(()),
    }
}

/// Takes in the writes of a row, whatever its mark. After an error some of them may have been taken in.
pub fn take_row(alloc: Global, writes: &mut Writes, row: &Row) -> Result<(), OutOfMemory>
    ensures { OnOk result ((name : List ℕ) → kept_at writes.new name
        ≡ better (kept_at writes.old name) (part_write name row.now.entry.slot row.now.entry.payload)) }
{
    let entry = &row.entry;
    match &entry.payload {
        None => Ok(()),
        Some(part) => take_writes(alloc, writes, entry.slot, part.version(), part.writes()),
    }
}

fn take_writes(
    alloc: Global,
    writes: &mut Writes,
    slot: Slot,
    version: u64,
    parts: &[WritePart],
) -> Result<(), OutOfMemory>
    ensures { OnOk result ((name : List ℕ) → kept_at writes.new name
        ≡ better (kept_at writes.old name) (found_write slot version (find (λ w. same_name w.name name) parts.now))) }
{
    for part in parts {
        take_write(alloc, writes, slot, version, part)?;
    }
    Ok(())
}

/// Takes in one write, if it goes before what is kept of its object. Version 0 is that of no write.
fn take_write(
    alloc: Global,
    writes: &mut Writes,
    slot: Slot,
    version: u64,
    part: &WritePart,
) -> Result<(), OutOfMemory>
    ensures { OnOk result ((name : List ℕ) → kept_at writes.new name
        ≡ after_write name slot version (kept_at writes.old name) part.now) }
{
    match writes.get_mut(&part.name) {
        Some(kept) => improve(alloc, kept, slot, version, part)?,
        None => {
            if version > 0 {
                let kept = kept_of(alloc, slot, version, part)?;
                writes.insert(part.name.again(), kept)?;
            }
        }
    }
    Ok(())
}

/// Replaces what is kept of an object by a write that goes before it.
fn improve(
    alloc: Global,
    kept: &mut Kept,
    slot: Slot,
    version: u64,
    part: &WritePart,
) -> Result<(), OutOfMemory>
    ensures { OnOk result (Some kept.new ≡ better (Some kept.old) (found_write slot version (Some part.now))) }
{
    if goes_before(version, slot, kept) {
        *kept = kept_of(alloc, slot, version, part)?;
    }
    Ok(())
}

/// Whether a write goes before the one that is kept of its object.
fn goes_before(version: u64, slot: Slot, kept: &Kept) -> bool
    ensures { result ≡ goes_before version slot (Some kept.now) }
{
    version > kept.version || (version == kept.version && slot < kept.slot)
}

/// A write, as it is kept.
fn kept_of(alloc: Global, slot: Slot, version: u64, part: &WritePart) -> Result<Kept, OutOfMemory>
    ensures { IfOk result (λ kept. Some kept ≡ found_write slot version (Some part.now)) }
{
    let value = part.value.copy(alloc)?;
    Ok(Kept {
        version,
        slot,
        value,
    })
}
