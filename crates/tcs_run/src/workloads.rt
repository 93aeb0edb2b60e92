//! `gen` and `soak`, and the statuses with which they end.
ghost use Rattle.std.specs.Prelude.{◌≡◌, ◌≤◌, ℕ, List, Some};
ghost use Rattle.tcs_io.specs.Faults.{Rose};
ghost use Rattle.tcs_run.specs.Generated.{Answers, Generated, Soaked};

use crate::generations::Generation;
use crate::status::Status;
use std::alloc::Global;
use tcs_io::Sink;
use workload::{generate, soak};

/// Writes a generated schedule.
pub(crate) fn generated<K: Sink>(alloc: Global, numbers: Generation, output: &mut K) -> Status
    ensures does { (before : List ℕ) → K.held output.old ≡ Some before → Generated numbers before (K.held output.new) result }
    ensures answers { Answers numbers (Rose (K.faults output.old) (K.faults output.new) → ⊥) result }
    ensures wrote { K.faults output.old ≤ K.faults output.new }
    ensures write_fault { result ≡ Status.WriteFault → Rose (K.faults output.old) (K.faults output.new) }
{
    match generate(alloc, numbers.seed, numbers.count, output) {
        Ok(()) => Status::Ok,
        Err(stop) => Status::from(stop),
    }
}

/// Writes what the run of a generated schedule comes to.
pub(crate) fn soaked<K: Sink>(alloc: Global, numbers: Generation, output: &mut K) -> Status
    ensures does { (before : List ℕ) → K.held output.old ≡ Some before → Soaked numbers before (K.held output.new) result }
    ensures answers { Answers numbers (Rose (K.faults output.old) (K.faults output.new) → ⊥) result }
    ensures wrote { K.faults output.old ≤ K.faults output.new }
    ensures write_fault { result ≡ Status.WriteFault → Rose (K.faults output.old) (K.faults output.new) }
{
    match soak(alloc, numbers.seed, numbers.count, output) {
        Ok(()) => Status::Ok,
        Err(stop) => Status::from(stop),
    }
}
