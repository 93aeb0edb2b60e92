//! Reads rows: each slot above the last one, and no transaction twice.
ghost use Rattle.std.specs.Prelude.{◌≡◌, not, nat_le, nat_lt, [], ◌∷◌, IfOk, OnOk};
ghost use Rattle.std.specs.List.{list_any};
ghost use Rattle.tcs_terms.specs.Logs.{same_txn, SameTxns};
ghost use Rattle.std.specs.Int.{w16};
ghost use Rattle.wire_frame.specs.declared.faults.FrameReason.TheVariants.{Range, Order};
ghost use Rattle.wire_frame.specs.Reading.{Gives, number_at, tested, each_at};
ghost use Rattle.wire_frame.specs.Parts.{slot_at, txn_at, row_at, with_row, rows_at};

use crate::configurations::shards_of;
use crate::entries::{mark_of, vote_of};
use crate::faults::{FrameReason, ReadError};
use crate::numbers::{bad_at, slot_of, txn_of, u16_of};
use std::alloc::Global;
use std::collections::HashSet;
use tcs_terms::{Entry, OutOfMemory, Row, Rows, Slot, TxId};

/// A row has at least 2 bytes of slot, 5 of transaction, 2 of shards, 1 of vote and 1 of mark.
const LEAST_ROW: usize = 11;

/// Remembers a transaction, and says whether it is new.
fn is_new(seen: &mut HashSet<TxId>, txn: TxId) -> Result<bool, OutOfMemory>
    ensures new { IfOk result (λ new. new ≡ not (list_any (same_txn txn) seen.old.keys)) }
    ensures kept { OnOk result (SameTxns seen.new.keys (txn ∷ seen.old.keys)) }
{
    Ok(seen.insert(txn)?)
}

fn slot_above(last: Slot, bytes: &[u8]) -> Result<(Slot, &[u8]), ReadError>
    ensures { Gives (λ x. (x.0, x.1.now)) result (tested Order (nat_lt last) slot_at bytes.now) }
{
    let (slot, rest) = slot_of(bytes)?;
    if last >= slot {
        return Err(bad_at(FrameReason::Order, bytes));
    }
    Ok((slot, rest))
}

fn new_txn<'a>(seen: &mut HashSet<TxId>, bytes: &'a [u8]) -> Result<(TxId, &'a [u8]), ReadError>
    ensures read { Gives (λ x. (x.0, x.1.now)) result (tested Order (λ t. not (list_any (same_txn t) seen.old.keys)) txn_at bytes.now) }
    ensures kept { IfOk result (λ x. SameTxns seen.new.keys (x.0 ∷ seen.old.keys)) }
{
    let (txn, rest) = txn_of(bytes)?;
    if !is_new(seen, txn)? {
        return Err(bad_at(FrameReason::Order, bytes));
    }
    Ok((txn, rest))
}

#[tactic(auto, unfolding(crate::specs::Parts::row_at))]
fn row_of<'a>(
    alloc: Global,
    last: Slot,
    seen: &mut HashSet<TxId>,
    bytes: &'a [u8],
) -> Result<(Row, &'a [u8]), ReadError>
    ensures read { Gives (λ x. (x.0, x.1.now)) result (row_at (last, seen.old.keys) bytes.now) }
    ensures kept { IfOk result (λ x. SameTxns seen.new.keys (x.0.entry.txn ∷ seen.old.keys)) }
{
    let (slot, rest) = slot_above(last, bytes)?;
    let (txn, rest) = new_txn(seen, rest)?;
    let (shards, rest) = shards_of(rest)?;
    let ((payload, vote), rest) = vote_of(alloc, rest)?;
    let (mark, rest) = mark_of(rest)?;
    let entry = Entry {
        slot,
        txn,
        shards,
        payload,
        vote,
    };
    Ok((Row { entry, mark }, rest))
}

fn each_row(alloc: Global, count: u16, bytes: &[u8]) -> Result<(Vec<Row>, &[u8]), ReadError>
    ensures { Gives (λ x. (x.0.items, x.1.now)) result (each_at row_at with_row count (0, []) bytes.now) }
{
    let room = bytes.len() / LEAST_ROW;
    let mut rows = Vec::with_capacity(alloc, room.min(count as usize))?;
    let mut seen = HashSet::new(alloc);
    let mut last = 0;
    let mut rest = bytes;
    for _ in 0..count {
        let (row, after) = row_of(alloc, last, &mut seen, rest)?;
        last = row.entry.slot;
        rows.push(row)?;
        rest = after;
    }
    Ok((rows, rest))
}

/// How many rows there are, at most this many.
fn count_of(most: u16, bytes: &[u8]) -> Result<(u16, &[u8]), ReadError>
    ensures { Gives (λ x. (x.0, x.1.now)) result (tested Range (λ n. nat_le n most) (number_at w16) bytes.now) }
{
    let (count, rest) = u16_of(bytes)?;
    if count > most {
        return Err(bad_at(FrameReason::Range, bytes));
    }
    Ok((count, rest))
}

#[tactic(auto, unfolding(crate::specs::Parts::rows_at))]
fn row_list(alloc: Global, most: u16, bytes: &[u8]) -> Result<(Vec<Row>, &[u8]), ReadError>
    ensures { Gives (λ x. (x.0.items, x.1.now)) result (rows_at most bytes.now) }
{
    let (count, rest) = count_of(most, bytes)?;
    each_row(alloc, count, rest)
}

pub fn rows_of(alloc: Global, most: u16, bytes: &[u8]) -> Result<(Rows, &[u8]), ReadError>
    ensures { Gives (λ x. (x.0, x.1.now)) result (rows_at most bytes.now) }
{
    let (list, rest) = row_list(alloc, most, bytes)?;
    Ok((Rows::of(list), rest))
}
