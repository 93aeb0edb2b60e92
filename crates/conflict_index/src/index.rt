//! The guard that looks up which rows stand in a payload's way.
ghost use Rattle.std.specs.Prelude.{◌≡◌, IsTrue};
ghost use Rattle.conflict_index.specs.Candidates.{vote_at};
ghost use Rattle.conflict_index.specs.Keeping.{IsIndexOf, slots_rise};

use crate::kept::Kept;
use crate::lookups::lowest_in_way;
use crate::row_search::row_at;
use crate::row_sets::{forget_row, keep_row};
use std::alloc::Global;
use std::marker::PhantomData;
use tcs_laws::{BySight, VoteGuard};
use tcs_terms::{Mark, OutOfMemory, Payload, Row, Slot, Vote};

/// A guard that keeps, in the order of names, which live rows write and read each object, and by version which rows
/// wrote it. A vote looks at the live rows that touch the payload, and at those that wrote an object above the version
/// that the payload saw: where it is to commit there are none of these, however many rows wrote the object.
#[derive(Debug, Drop)]
pub struct ConflictIndex<C> {
    kept: Kept,
    rule: PhantomData<C>,
}

impl<C: BySight> VoteGuard for ConflictIndex<C> {
    type Rule = C;

    ghost StandsFor = { λ index rows. IsIndexOf C.counts C.COUNTS_UNWRITTEN index.kept rows };

    fn fresh(alloc: Global) -> Self {
        ConflictIndex {
            kept: Kept::new(alloc),
            rule: PhantomData,
        }
    }

    fn prepared(&mut self, row: &Row) -> Result<(), OutOfMemory> {
        keep_row::<C>(&mut self.kept, row)
    }

    fn decided(&mut self, row: &Row, mark: Mark) {
        forget_row(&mut self.kept, row, mark);
    }

    fn vote(&self, rows: &[Row], new: &Payload) -> Vote {
        let lowest = lowest_in_way::<C>(&self.kept, rows, new);
        vote_at(rows, lowest)
    }
}

/// The vote, given the lowest slot that clashes.
fn vote_at(rows: &[Row], lowest: Option<Slot>) -> Vote
    requires { IsTrue (slots_rise rows.now) }
    ensures { result ≡ vote_at rows.now lowest }
{
    match lowest {
        None => Vote::Commit,
        Some(slot) => match row_at(rows, slot) {
            Some(row) => Vote::Clash(row.entry.txn),
            None => Vote::Commit,
        },
    }
}
