//! `quorum`, and the status with which it ends.
ghost use Rattle.std.specs.Prelude.{◌≡◌, ◌≤◌, ℕ, List, Some};
ghost use Rattle.tcs_io.specs.Faults.{Rose};
ghost use Rattle.tcs_run.specs.Faults.{Quiet};
ghost use Rattle.tcs_run.specs.Stored.{Stored};

use crate::status::Status;
use quorum_config::quorum;
use std::alloc::Global;
use tcs_io::{Sink, Source};

/// Reads the events of a quorum store, and writes the text of their run.
pub(crate) fn stored<S: Source, K: Sink>(alloc: Global, input: &mut S, output: &mut K) -> Status
    ensures does { (bytes before : List ℕ) → S.left input.old ≡ Some bytes → K.held output.old ≡ Some before
        → Stored bytes before (S.left input.new) (K.held output.new)
        (Quiet (S.faults input.old) (S.faults input.new) (K.faults output.old) (K.faults output.new)) result }
    ensures known { result ≡ Status.BadWords → ⊥ }
    ensures read { S.faults input.old ≤ S.faults input.new }
    ensures wrote { K.faults output.old ≤ K.faults output.new }
    ensures read_fault { result ≡ Status.ReadFault → Rose (S.faults input.old) (S.faults input.new) }
    ensures write_fault { result ≡ Status.WriteFault → Rose (K.faults output.old) (K.faults output.new) }
{
    match quorum(alloc, input, output) {
        Ok(()) => Status::Ok,
        Err(stop) => Status::from(stop),
    }
}
