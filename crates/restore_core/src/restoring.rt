//! `restore`: a backup file in, the schedule that puts its objects back out.
ghost use Rattle.std.specs.Prelude.{◌≡◌, ◌≤◌, ℕ, List, Some, OnOk, IfErr, IsErrOf};
ghost use Rattle.tcs_io.specs.Faults.{Rose};
ghost use Rattle.restore_core.specs.Files.{answer_of};
ghost use Rattle.restore_core.specs.Restores.{Finishes, Stopped, Stayed, Tells};

use crate::printing::print_schedule;
use crate::reading::read_file;
use crate::stops::RestoreStop;
use std::alloc::Global;
use tcs_io::{Sink, Source, write_all};

/// Reads a backup file from `input` to its end, and writes the schedule that puts its objects back to `output`.
///
/// # Errors
/// `BadBackup` exactly where the bytes are no file, with the number of the first line that may not stand there, or that is
/// missing. `ReadFault` and `WriteFault` come only where the source or the sink counted a fault. Nothing is written before
/// the input's end.
pub fn restore<S: Source, K: Sink>(
    alloc: Global,
    input: &mut S,
    output: &mut K,
) -> Result<(), RestoreStop>
    // What was read and written by then.
    ensures whole { (bytes before : List ℕ) → S.left input.old ≡ Some bytes → K.held output.old ≡ Some before
        → OnOk result (Finishes bytes before (S.left input.new) (K.held output.new)) }
    ensures stopped { (bytes before : List ℕ) → S.left input.old ≡ Some bytes → K.held output.old ≡ Some before
        → IfErr result (Stopped bytes before (S.left input.new) (K.held output.new)) }

    // Which answer comes, where no fault was counted: that to the bytes, unless memory runs out.
    ensures complete { (bytes : List ℕ) → S.left input.old ≡ Some bytes
        → Stayed (S.faults input.old) (S.faults input.new) → Stayed (K.faults output.old) (K.faults output.new)
        → Tells (answer_of bytes) result }

    // A fault is told only where it was counted.
    ensures read { S.faults input.old ≤ S.faults input.new }
    ensures wrote { K.faults output.old ≤ K.faults output.new }
    ensures read_fault { IsErrOf result RestoreStop.ReadFault → Rose (S.faults input.old) (S.faults input.new) }
    ensures write_fault { IsErrOf result RestoreStop.WriteFault → Rose (K.faults output.old) (K.faults output.new) }
{
    let kept = read_file(alloc, input)?;
    let mut text = Vec::new(alloc);
    print_schedule(alloc, &kept, &mut text)?;
    write_all(output, &text)?;
    Ok(())
}
