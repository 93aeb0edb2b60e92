//! Marks of rows, each set once.
ghost use Rattle.std.specs.Prelude.{◌≡◌, ◌<◌, length, slice_index, IsTrue};
ghost use Rattle.tcs_terms.specs.Order.{ascends};
ghost use Rattle.protocol.specs.Log.{mark_of, marked};
ghost use Rattle.cert_log.specs.Places.{slots_of};
ghost use Rattle.cert_log.specs.Standing.{StandsWhere};

use crate::votes::Votes;
use tcs_laws::VoteGuard;
use tcs_terms::{Mark, Row};

/// The mark of a decision to commit, or to abort.
pub fn mark_of(commit: bool) -> Mark
    ensures { result ≡ mark_of commit }
{
    if commit {
        Mark::Committed
    } else {
        Mark::Aborted
    }
}

/// Gives a row its mark, unless it has one, and tells what gives the votes.
pub(crate) fn mark_row<G: VoteGuard>(
    rows: &mut Vec<Row>,
    votes: &mut Votes<G>,
    at: usize,
    mark: Mark,
)
    requires within { at < length rows.old.items }
    requires stands { StandsWhere G.StandsFor votes.old.guard rows.old.items }
    requires ascend { IsTrue (ascends (slots_of rows.old.items)) }
    ensures rows { rows.new.items ≡ marked rows.old.items (slice_index (slots_of rows.old.items) at) mark }
    ensures stands { StandsWhere G.StandsFor votes.new.guard rows.new.items }
{
    let row = &rows[at];
    match row.mark {
        Mark::Undecided => {
            votes.decided(row, mark);
            rows[at].mark = mark;
        }
        Mark::Committed | Mark::Aborted => {}
    }
}
