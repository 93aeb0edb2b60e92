//! Scan and index side by side over generated rows whose marks change.
ghost use Rattle.std.specs.Prelude.{◌≡◌, ◌<◌, ◌==◌, ℕ, if◌then◌else◌, OnOk, IsTrue};
ghost use Rattle.tcs_laws.specs.Rows.{marked, set_mark};
ghost use Rattle.conflict_index.specs.Slots.{slots_of, slots_below};

use crate::generated::{self, Draws};
use crate::{CommuteIndex, SerialIndex, SnapshotIndex};
use std::alloc::Global;
use std::test::Fail;
use tcs_laws::{ScanGuard, VoteGuard};
use tcs_terms::{Mark, OutOfMemory, Row, Slot, Vote};

const ROWS: Slot = 300;

/// How many of the votes were of each kind, and how many times scan and index differed.
#[derive(Clone, Copy)]
struct Tally {
    commits: u32,
    clashes: u32,
    differences: u32,
}

#[test]
fn scan_and_index_vote_alike(rt: HostRuntime) -> Result<(), Fail> {
    let serial = votes_of::<SerialIndex>(rt.alloc())?;
    let snapshot = votes_of::<SnapshotIndex>(rt.alloc())?;
    let commute = votes_of::<CommuteIndex>(rt.alloc())?;
    for tally in [serial, snapshot, commute] {
        assert_eq!(rt; tally.differences, 0);
        assert!(rt; tally.commits >= 50 && tally.clashes >= 50);
    }
    Ok(())
}

/// Puts rows one after the other, decides some row after each, and votes on a payload by both guards.
fn votes_of<G: VoteGuard>(alloc: Global) -> Result<Tally, Fail> {
    let mut draws = Draws::new(1);
    let mut scan = ScanGuard::<G::Rule>::fresh(alloc);
    let mut index = G::fresh(alloc);
    let mut rows = Vec::new(alloc);
    let mut tally = Tally {
        commits: 0,
        clashes: 0,
        differences: 0,
    };
    for before in 0..ROWS {
        let slot = before + 1;
        let row = generated::row(alloc, &mut draws, slot)?;
        scan.prepared(&row)?;
        put(&mut rows, &mut index, row)?;
        let at = usize::from(before.saturating_sub(4));
        let mark = if draws.below(2) == 0 {
            Mark::Committed
        } else {
            Mark::Aborted
        };
        decide(&mut rows, &mut index, at, mark);
        let new = generated::payload(alloc, &mut draws, slot)?;
        count(&mut tally, scan.vote(&rows, &new), index.vote(&rows, &new));
    }
    Ok(tally)
}

fn count(tally: &mut Tally, by_scan: Vote, by_index: Vote) {
    match by_scan {
        Vote::Commit => tally.commits = tally.commits.saturating_add(1),
        Vote::Clash(_) | Vote::Lost => tally.clashes = tally.clashes.saturating_add(1),
    }
    if by_scan != by_index {
        tally.differences = tally.differences.saturating_add(1);
    }
}

/// Puts a row above all others last.
fn put<G: VoteGuard>(rows: &mut Vec<Row>, guard: &mut G, row: Row) -> Result<(), OutOfMemory>
    requires stands { G.StandsFor guard.old rows.old.items }
    requires above { IsTrue (slots_below row.entry.slot rows.old.items) }
    ensures stands { OnOk result (G.StandsFor guard.new rows.new.items) }
    ensures below { OnOk result ((next : ℕ) → row.entry.slot < next → IsTrue (slots_below next rows.new.items)) }
{
    guard.prepared(&row)?;
    rows.push(row)?;
    Ok(())
}

/// Marks a row, if it is undecided.
fn decide<G: VoteGuard>(rows: &mut [Row], guard: &mut G, at: usize, mark: Mark)
    requires { G.StandsFor guard.old rows.old }
    ensures stands { G.StandsFor guard.new rows.new }
    ensures slots { slots_of rows.new ≡ slots_of rows.old }
{
    if at < rows.len() {
        let row = &rows[at];
        let slot = row.entry.slot;
        match row.mark {
            Mark::Undecided => {
                guard.decided(row, mark);
                mark_slot(rows, slot, mark);
            }
            Mark::Committed => {}
            Mark::Aborted => {}
        }
    }
}

fn mark_slot(rows: &mut [Row], slot: Slot, mark: Mark)
    ensures { rows.new ≡ marked rows.old slot mark }
{
    for row in rows.iter_mut() {
        mark_at(row, slot, mark);
    }
}

/// Sets the mark of a row, if it has the slot and is undecided.
fn mark_at(row: &mut Row, slot: Slot, mark: Mark)
    ensures { row.new ≡ if row.old.entry.slot == slot then set_mark mark row.old else row.old }
{
    if row.entry.slot == slot {
        match row.mark {
            Mark::Undecided => row.mark = mark,
            Mark::Committed => {}
            Mark::Aborted => {}
        }
    }
}
