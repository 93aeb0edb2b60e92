//! The outcomes of the slices.
ghost use Rattle.std.specs.Prelude.{◌≡◌, map, IfOk};
ghost use Rattle.std.specs.List.{list_all};
ghost use Rattle.backup_machine.specs.Backups.{no_outcome, is_commit, lacks_outcome};

use std::alloc::Global;
use tcs_terms::{Decision, OutOfMemory, Payload};

/// No outcome yet for each of the payloads.
pub(crate) fn none_yet(
    alloc: Global,
    payloads: &[Payload],
) -> Result<Vec<Option<Decision>>, OutOfMemory>
    ensures { IfOk result (λ list. list.items ≡ map no_outcome payloads.now) }
{
    let mut list = Vec::new(alloc);
    for _payload in payloads {
        list.push(None)?;
    }
    Ok(list)
}

fn is_commit(outcome: &Option<Decision>) -> bool
    ensures { result ≡ is_commit outcome.now }
{
    matches!(outcome, Some(Decision::Commit))
}

/// Whether each slice has the outcome to commit.
pub(crate) fn all_commit(outcomes: &[Option<Decision>]) -> bool
    ensures { result ≡ list_all is_commit outcomes.now }
{
    outcomes.iter().all(is_commit)
}

/// Whether a slice, numbered from 1, has no outcome yet.
pub(crate) fn lacks_outcome(outcomes: &[Option<Decision>], slice: u16) -> bool
    ensures { result ≡ lacks_outcome outcomes.now slice }
{
    if slice == 0 {
        return false;
    }
    match outcomes.get(usize::from(slice) - 1) {
        Some(None) => true,
        Some(Some(_)) | None => false,
    }
}
