//! Guards: what a log asks for its votes.
ghost use Rattle.std.specs.Prelude.{◌≡◌, List, [], IsTrue, Contains, OnOk, OnErr};
ghost use Rattle.tcs_terms.specs.declared.logs.Row.{Row};
ghost use Rattle.tcs_terms.specs.declared.logs.Mark.TheVariants.{Undecided};
ghost use Rattle.tcs_laws.specs.Rows.{is_free, put_row, marked};
ghost use Rattle.tcs_laws.specs.Votes.{vote_on};

use crate::certifiers::Certifier;
use std::alloc::Global;
use tcs_terms::{Mark, OutOfMemory, Payload, Row, Vote};

/// Gives a log's votes by a rule. A guard stands for a list of rows whose slots ascend, which is told to it row by row
/// and mark by mark; it need not keep the rows.
pub trait VoteGuard: Drop {
    type Rule: Certifier;

    ghost StandsFor: { Self → List Row → Type 0 };

    /// A guard that stands for no rows, and takes its memory from `alloc`.
    fn fresh(alloc: Global) -> Self
        ensures { StandsFor result [] };

    /// Puts a row in its place, whatever its mark: no row of the list has its slot yet. After an error the guard
    /// stands for what it stood for.
    fn prepared(&mut self, row: &Row) -> Result<(), OutOfMemory>
        ensures put { OnOk result ((rows : List Row) → StandsFor self.old rows → IsTrue (is_free rows row.now.entry.slot)
            → StandsFor self.new (put_row rows row.now)) }
        ensures kept { OnErr result ((rows : List Row) → StandsFor self.old rows → StandsFor self.new rows) };

    /// Marks a row of the list that is undecided. Takes no memory.
    fn decided(&mut self, row: &Row, mark: Mark)
        ensures { (rows : List Row) → StandsFor self.old rows → Contains rows row.now → row.now.mark ≡ Undecided
            → StandsFor self.new (marked rows row.now.entry.slot mark) };

    /// The vote on a payload over the rows that the guard stands for: it names the transaction of the first row that
    /// clashes. Takes no memory.
    fn vote(&self, rows: &[Row], new: &Payload) -> Vote
        requires { StandsFor self.now rows.now }
        ensures { result ≡ vote_on Self.Rule.tests rows.now new.now };
}
