//! The guard that goes through the rows.
ghost use Rattle.std.specs.Prelude.{◌≡◌, find};
ghost use Rattle.std.specs.Option.{option_copied};
ghost use Rattle.tcs_laws.specs.Votes.{vote_on, clashes};

use crate::certifiers::Certifier;
use crate::guards::VoteGuard;
use std::alloc::Global;
use std::marker::PhantomData;
use tcs_terms::{Mark, OutOfMemory, Payload, Row, Vote};

/// A guard that keeps nothing, and goes through the rows at each vote. So it stands for any list.
#[derive(Clone, Copy, Debug)]
pub struct ScanGuard<C> {
    rule: PhantomData<C>,
}

impl<C: Certifier> VoteGuard for ScanGuard<C> {
    type Rule = C;

    ghost StandsFor = { λ _ _. Unit {0} };

    fn fresh(_alloc: Global) -> Self {
        ScanGuard { rule: PhantomData }
    }

    fn prepared(&mut self, _row: &Row) -> Result<(), OutOfMemory> {
        Ok(())
    }

    fn decided(&mut self, _row: &Row, _mark: Mark) {}

    #[tactic(auto, unfolding(crate::specs::Votes::vote_on))]
    fn vote(&self, rows: &[Row], new: &Payload) -> Vote {
        match first_clash::<C>(rows, new) {
            Some(row) => Vote::Clash(row.entry.txn),
            None => Vote::Commit,
        }
    }
}

fn first_clash<'a, C: Certifier>(rows: &'a [Row], new: &Payload) -> Option<&'a Row>
    ensures { option_copied result ≡ find (λ row. clashes C.tests row new.now) rows.now }
{
    rows.iter().find(|row| clashes::<C>(row, new))
}

/// Whether a row of a log clashes with a payload, by the rule `C`.
pub fn clashes<C: Certifier>(row: &Row, new: &Payload) -> bool
    ensures { result ≡ clashes C.tests row.now new.now }
{
    let entry = &row.entry;
    match &entry.payload {
        None => false,
        Some(old) => match row.mark {
            Mark::Committed => !C::committed_ok(old, new),
            Mark::Undecided => match entry.vote {
                Vote::Commit => !C::prepared_ok(old, new),
                Vote::Clash(_) => false,
                Vote::Lost => false,
            },
            Mark::Aborted => false,
        },
    }
}
