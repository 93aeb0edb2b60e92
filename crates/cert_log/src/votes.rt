//! The votes over a log.
ghost use Rattle.std.specs.Prelude.{◌≡◌, List, IsTrue, Contains, IfOk, OnOk, OnErr};
ghost use Rattle.tcs_terms.specs.declared.logs.Row.{Row};
ghost use Rattle.tcs_terms.specs.declared.logs.Mark.TheVariants.{Undecided};
ghost use Rattle.tcs_terms.specs.Logs.{AreRows};
ghost use Rattle.tcs_laws.specs.Rows.{is_free, put_row, marked};
ghost use Rattle.tcs_laws.specs.Votes.{vote_on};
ghost use Rattle.cert_log.specs.Standing.{StandsWhere};

use crate::standing::guard_of;
use std::alloc::Global;
use tcs_laws::VoteGuard;
use tcs_terms::{Mark, OutOfMemory, Payload, Row, Vote};

/// Gives the votes over a log by a guard, which is kept from the first vote on. A follower's log gives no vote, so what a
/// guard costs a row is spared there; a log that begins to vote makes its guard of all its rows, once.
#[derive(Debug, Drop)]
pub(crate) struct Votes<G: VoteGuard> {
    guard: Option<G>,
}

impl<G: VoteGuard> Votes<G> {
    /// No guard is kept.
    pub(crate) fn none() -> Votes<G>
        ensures { (rows : List Row) → StandsWhere G.StandsFor result.guard rows }
    {
        Votes { guard: None }
    }

    /// Puts a row in its place, whatever its mark: no row has its slot yet. After an error the guard stands for what it
    /// stood for.
    pub(crate) fn prepared(&mut self, row: &Row) -> Result<(), OutOfMemory>
        ensures put { OnOk result ((rows : List Row) → StandsWhere G.StandsFor self.old.guard rows → IsTrue (is_free rows row.now.entry.slot)
            → StandsWhere G.StandsFor self.new.guard (put_row rows row.now)) }
        ensures kept { OnErr result ((rows : List Row) → StandsWhere G.StandsFor self.old.guard rows → StandsWhere G.StandsFor self.new.guard rows) }
    {
        match &mut self.guard {
            None => Ok(()),
            Some(guard) => guard.prepared(row),
        }
    }

    /// Marks a row that is undecided. Takes no memory.
    pub(crate) fn decided(&mut self, row: &Row, mark: Mark)
        ensures { (rows : List Row) → StandsWhere G.StandsFor self.old.guard rows → Contains rows row.now → row.now.mark ≡ Undecided
            → StandsWhere G.StandsFor self.new.guard (marked rows row.now.entry.slot mark) }
    {
        match &mut self.guard {
            None => {}
            Some(guard) => guard.decided(row, mark),
        }
    }

    /// The vote on a payload over the rows: it names the transaction of the first row that clashes.
    pub(crate) fn vote(
        &mut self,
        alloc: Global,
        rows: &[Row],
        new: &Payload,
    ) -> Result<Vote, OutOfMemory>
        requires are_rows { AreRows rows.now }
        requires stands { StandsWhere G.StandsFor self.old.guard rows.now }
        ensures vote { IfOk result (λ vote. vote ≡ vote_on G.Rule.tests rows.now new.now) }
        ensures stands { StandsWhere G.StandsFor self.new.guard rows.now }
    {
        match &self.guard {
            Some(guard) => Ok(guard.vote(rows, new)),
            None => {
                let guard = guard_of::<G>(alloc, rows)?;
                let vote = guard.vote(rows, new);
                self.guard = Some(guard);
                Ok(vote)
            }
        }
    }
}
