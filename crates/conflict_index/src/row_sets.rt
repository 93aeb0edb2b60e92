//! What is kept of a row, and forgotten once it is decided.
ghost use Rattle.std.specs.Prelude.{◌≡◌, ◌<◌, ◌^◌, ◌==◌, ◌||◌, not, length, false, IsTrue, IfSome, OnOk};
ghost use Rattle.std.specs.List.{list_all};
ghost use Rattle.std.specs.BTreeSet.{contains};
ghost use Rattle.std.specs.Ordering.{nat_cmp};
ghost use Rattle.conflict_index.specs.Change.{Grows, KeepsMore, ChangesSlot, ChangesOnly, Forgets, IsGone};
ghost use Rattle.conflict_index.specs.Keeping.{Keeps, KeepsRow, place, place_cmp, all_kept, writes_count, is_live};

use crate::kept::Kept;
use crate::place_sets::{forget_reads, forget_writes, keep_reads, keep_writes, keep_written};
use crate::places::Place;
use std::collections::BTreeSet;
use tcs_laws::BySight;
use tcs_terms::{Mark, OutOfMemory, Payload, RangePart, Row, Slot, Vote, WritePart};

/// Keeps what counts of a row. After an error more may be kept than before.
pub fn keep_row<C: BySight>(kept: &mut Kept, row: &Row) -> Result<(), OutOfMemory>
    ensures more { KeepsMore kept.old kept.new }
    ensures fits { row.now.entry.slot < 2 ^ 16 }
    ensures of_row { OnOk result (KeepsRow C.counts C.COUNTS_UNWRITTEN kept.new row.now) }
{
    let entry = &row.entry;
    let slot = entry.slot;
    match &entry.payload {
        None => Ok(()),
        Some(payload) => keep_payload::<C>(kept, payload, slot, row.mark, entry.vote),
    }
}

/// Forgets what no longer counts of a row that was undecided and gets this mark.
pub fn forget_row(kept: &mut Kept, row: &Row, mark: Mark)
    ensures others { Forgets row.now.entry.slot mark kept.old kept.new }
    ensures gone { IfSome row.now.entry.payload (IsGone row.now.entry.slot mark kept.new) }
{
    let entry = &row.entry;
    match &entry.payload {
        None => {}
        Some(payload) => forget_payload(kept, payload, entry.slot, mark),
    }
}

#[tactic(auto, using(crate::proofs::RowChanges::keeps_now, crate::proofs::Growing::more_then))]
fn keep_payload<C: BySight>(
    kept: &mut Kept,
    payload: &Payload,
    slot: Slot,
    mark: Mark,
    vote: Vote,
) -> Result<(), OutOfMemory>
    ensures more { KeepsMore kept.old kept.new }
    ensures of_row { OnOk result (Keeps C.counts C.COUNTS_UNWRITTEN kept.new mark vote slot payload.now) }
{
    let version = payload.version();
    keep_counted_writes(kept, payload.writes(), version, slot, writes_count(mark))?;
    keep_live::<C>(kept, payload, slot, is_live(mark, vote))?;
    Ok(())
}

fn keep_counted_writes(
    kept: &mut Kept,
    parts: &[WritePart],
    version: u64,
    slot: Slot,
    counts: bool,
) -> Result<(), OutOfMemory>
    ensures more { KeepsMore kept.old kept.new }
    ensures writes { OnOk result (IsTrue counts
        → IsTrue (all_kept kept.new.writes (λ w. place w.name version slot) parts.now)) }
{
    if counts {
        keep_written(&mut kept.objects, &mut kept.writes, parts, version, slot)?;
    }
    Ok(())
}

fn keep_live<C: BySight>(
    kept: &mut Kept,
    payload: &Payload,
    slot: Slot,
    live: bool,
) -> Result<(), OutOfMemory>
    ensures more { KeepsMore kept.old kept.new }
    ensures writers { OnOk result (IsTrue live
        → IsTrue (all_kept kept.new.writers (λ w. place w.name payload.now.version slot) payload.now.writes)) }
    ensures readers { OnOk result (IsTrue live → IsTrue (list_all (λ r. not (C.counts payload.now r.name)
        || contains place_cmp kept.new.readers (place r.name payload.now.version slot)) payload.now.reads)) }
    ensures ranged { OnOk result (IsTrue live → IsTrue (not C.COUNTS_UNWRITTEN
        || ((length payload.now.ranges == 0) || contains nat_cmp kept.new.ranged slot))) }
{
    if live {
        let version = payload.version();
        keep_writes(&mut kept.writers, payload.writes(), version, slot)?;
        keep_reads::<C>(&mut kept.readers, payload, payload.reads(), version, slot)?;
        keep_counted_ranged::<C>(&mut kept.ranged, payload.ranges(), slot)?;
    }
    Ok(())
}

/// Keeps the slot of a row that read a range, where ranges count.
fn keep_counted_ranged<C: BySight>(
    ranged: &mut BTreeSet<Slot>,
    ranges: &[RangePart],
    slot: Slot,
) -> Result<(), OutOfMemory>
    ensures grows { Grows nat_cmp ranged.old ranged.new }
    ensures kept { OnOk result (IsTrue (not C.COUNTS_UNWRITTEN
        || ((length ranges.now == 0) || contains nat_cmp ranged.new slot))) }
{
    if C::COUNTS_UNWRITTEN && !ranges.is_empty() {
        ranged.insert(slot)?;
    }
    Ok(())
}

#[tactic(auto, using(crate::proofs::Growing::objects_fewer))]
fn forget_payload(kept: &mut Kept, payload: &Payload, slot: Slot, mark: Mark)
    ensures others { Forgets slot mark kept.old kept.new }
    ensures gone { IsGone slot mark kept.new payload.now }
{
    match mark {
        Mark::Undecided => {}
        Mark::Committed => {
            forget_live(&mut kept.writers, &mut kept.readers, payload, slot);
            forget_slot(&mut kept.ranged, slot);
        }
        Mark::Aborted => {
            forget_live(&mut kept.writers, &mut kept.readers, payload, slot);
            forget_slot(&mut kept.ranged, slot);
            forget_writes(&mut kept.writes, payload.writes(), payload.version(), slot);
        }
    }
}

/// Forgets which objects a row wrote and read while it was live.
fn forget_live(
    writers: &mut BTreeSet<Place>,
    readers: &mut BTreeSet<Place>,
    payload: &Payload,
    slot: Slot,
)
    ensures writers { ChangesSlot slot writers.old writers.new }
    ensures readers { ChangesSlot slot readers.old readers.new }
    ensures no_writers { IsTrue (list_all (λ w. not (contains place_cmp writers.new (place w.name payload.now.version slot))) payload.now.writes) }
    ensures no_readers { IsTrue (list_all (λ r. not (contains place_cmp readers.new (place r.name payload.now.version slot))) payload.now.reads) }
{
    let version = payload.version();
    forget_writes(writers, payload.writes(), version, slot);
    forget_reads(readers, payload.reads(), version, slot);
}

fn forget_slot(ranged: &mut BTreeSet<Slot>, slot: Slot)
    ensures changes { ChangesOnly slot ranged.old ranged.new }
    ensures gone { contains nat_cmp ranged.new slot ≡ false }
{
    ranged.remove(&slot);
}

/// Whether the writes of a row count: unless it is aborted.
fn writes_count(mark: Mark) -> bool
    ensures { result ≡ writes_count mark }
{
    match mark {
        Mark::Undecided | Mark::Committed => true,
        Mark::Aborted => false,
    }
}

/// Whether a row is live: while it is undecided and may still commit.
fn is_live(mark: Mark, vote: Vote) -> bool
    ensures { result ≡ is_live mark vote }
{
    match mark {
        Mark::Undecided => match vote {
            Vote::Commit => true,
            Vote::Clash(_) | Vote::Lost => false,
        },
        Mark::Committed | Mark::Aborted => false,
    }
}
