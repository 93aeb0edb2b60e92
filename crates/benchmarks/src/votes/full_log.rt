//! A log of committed transactions, and a guard that stands for it.
ghost use Rattle.std.specs.Prelude.{◌≡◌, ◌<◌, ℕ, [], IfOk, OnOk, IsTrue};
ghost use Rattle.conflict_index.specs.Slots.{slots_below};

use crate::votes::transactions::payload;
use anyhow::Error;
use std::alloc::Global;
use tcs_laws::VoteGuard;
use tcs_terms::{Entry, Mark, Row, ShardSet, Slot, TxId, Vote};

/// Fills a log with so many committed transactions on so many objects.
pub fn fill<G: VoteGuard>(
    alloc: Global,
    rows: &mut Vec<Row>,
    guard: &mut G,
    length: Slot,
    objects: u32,
) -> Result<(), Error>
    requires empty { rows.old.items ≡ [] }
    requires stands { G.StandsFor guard.old rows.old.items }
    ensures { OnOk result (G.StandsFor guard.new rows.new.items) }
{
    for before in 0..length {
        let row = row(alloc, before + 1, objects)?;
        put(rows, guard, row)?;
    }
    Ok(())
}

/// Puts a row above all others last.
fn put<G: VoteGuard>(rows: &mut Vec<Row>, guard: &mut G, row: Row) -> Result<(), Error>
    requires stands { G.StandsFor guard.old rows.old.items }
    requires above { IsTrue (slots_below row.entry.slot rows.old.items) }
    ensures stands { OnOk result (G.StandsFor guard.new rows.new.items) }
    ensures below { OnOk result ((next : ℕ) → row.entry.slot < next → IsTrue (slots_below next rows.new.items)) }
{
    guard.prepared(&row)?;
    rows.push(row)?;
    Ok(())
}

/// The row of a committed transaction: its version is its slot, and it saw what was committed before.
fn row(alloc: Global, slot: Slot, objects: u32) -> Result<Row, Error>
    ensures { IfOk result (λ r. r.entry.slot ≡ slot) }
{
    let seq = u32::from(slot);
    let entry = Entry {
        slot,
        txn: TxId { home: 1, seq },
        shards: ShardSet::build([1u8].to_vec(alloc)?)?,
        payload: Some(payload(alloc, seq, objects, seq.saturating_sub(1))?),
        vote: Vote::Commit,
    };
    Ok(Row {
        entry,
        mark: Mark::Committed,
    })
}
