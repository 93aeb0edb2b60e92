//! `restore`, and the status with which it ends.
ghost use Rattle.std.specs.Prelude.{◌≡◌, ◌≤◌, ℕ, List, Some};
ghost use Rattle.tcs_io.specs.Faults.{Rose};
ghost use Rattle.tcs_run.specs.Faults.{Quiet};
ghost use Rattle.tcs_run.specs.Restored.{Restored};

use crate::status::Status;
use restore_core::restore;
use std::alloc::Global;
use tcs_io::{Sink, Source};

/// Reads a backup file, and writes the schedule that puts its objects back.
pub(crate) fn restored<S: Source, K: Sink>(alloc: Global, input: &mut S, output: &mut K) -> Status
    ensures does { (bytes before : List ℕ) → S.left input.old ≡ Some bytes → K.held output.old ≡ Some before
        → Restored bytes before (S.left input.new) (K.held output.new)
        (Quiet (S.faults input.old) (S.faults input.new) (K.faults output.old) (K.faults output.new)) result }
    ensures known { result ≡ Status.BadWords → ⊥ }
    ensures read { S.faults input.old ≤ S.faults input.new }
    ensures wrote { K.faults output.old ≤ K.faults output.new }
    ensures read_fault { result ≡ Status.ReadFault → Rose (S.faults input.old) (S.faults input.new) }
    ensures write_fault { result ≡ Status.WriteFault → Rose (K.faults output.old) (K.faults output.new) }
{
    match restore(alloc, input, output) {
        Ok(()) => Status::Ok,
        Err(stop) => Status::from(stop),
    }
}
