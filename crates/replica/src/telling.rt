//! What the store that reads are taken from is told of decisions.
ghost use Rattle.std.specs.Prelude.{◌≡◌, List, Contains, OnOk};
ghost use Rattle.tcs_terms.specs.declared.logs.Row.{Row as LogRow};
ghost use Rattle.protocol.specs.Log.{marked, mark_of};
ghost use Rattle.version_store.specs.Keeping.{StandsFor, SlotsAscend};

use cert_log::CertLog;
use std::alloc::Global;
use tcs_laws::VoteGuard;
use tcs_terms::{Mark, OutOfMemory, Row, Slot};
use version_store::VersionStore;

/// Tells a store of a decision on a row. Only an undecided row that is committed changes what is read.
fn tell(
    alloc: Global,
    versions: &mut VersionStore,
    row: &Row,
    commit: bool,
) -> Result<(), OutOfMemory>
    ensures { OnOk result ((rows : List LogRow) → StandsFor versions.old rows → SlotsAscend rows → Contains rows row.now
        → StandsFor versions.new (marked rows row.now.entry.slot (mark_of commit))) }
{
    if !commit {
        return Ok(());
    }
    match row.mark {
        Mark::Undecided => versions.committed(alloc, row),
        Mark::Committed | Mark::Aborted => Ok(()),
    }
}

/// Tells the store of a log of a decision on the row of a slot, before that is marked.
pub(crate) fn tell_at<G: VoteGuard>(
    alloc: Global,
    versions: &mut VersionStore,
    log: &CertLog<G>,
    slot: Slot,
    commit: bool,
) -> Result<(), OutOfMemory>
    requires { StandsFor versions.old log.now }
    ensures { OnOk result (StandsFor versions.new (marked log.now slot (mark_of commit))) }
{
    let _rows = log.rows();
    match log.at(slot) {
        None => Ok(()),
        Some(row) => tell(alloc, versions, row, commit),
    }
}
