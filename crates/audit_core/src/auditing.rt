//! `audit`: a trace in, the verdict on it out.
ghost use Rattle.std.specs.Prelude.{◌≡◌, ◌≤◌, ℕ, List, Some, IfOk, IfErr, IsErrOf};
ghost use Rattle.tcs_io.specs.Faults.{Rose};
ghost use Rattle.audit_core.specs.Audits.{Finishes, Stopped, Stayed, Tells, answer_of};

use crate::printing::put_verdict;
use crate::reading::verdict_on;
use crate::stops::AuditStop;
use judge::Verdict;
use std::alloc::Global;
use tcs_io::{Sink, Source, write_all};

/// Reads a trace from `input` to its end, judges it, and writes the one line of the verdict to `output`.
///
/// Line by line: what is kept is the history that it tells, the order, and one line.
///
/// # Errors
/// `BadTrace` exactly where the bytes are no trace, with the number of the first line that may not stand there, or that is
/// missing. `ReadFault` and `WriteFault` come only where the source or the sink counted a fault. Nothing is written unless
/// the bytes are a trace.
pub fn audit<S: Source, K: Sink>(
    alloc: Global,
    input: &mut S,
    output: &mut K,
) -> Result<Verdict, AuditStop>
    // What was read and written by then.
    ensures whole { (bytes before : List ℕ) → S.left input.old ≡ Some bytes → K.held output.old ≡ Some before
        → IfOk result (Finishes bytes before (S.left input.new) (K.held output.new)) }
    ensures stopped { (bytes before : List ℕ) → S.left input.old ≡ Some bytes → K.held output.old ≡ Some before
        → IfErr result (Stopped bytes before (S.left input.new) (K.held output.new)) }

    // Which answer comes, where no fault was counted: that to the bytes, unless memory runs out.
    ensures complete { (bytes : List ℕ) → S.left input.old ≡ Some bytes
        → Stayed (S.faults input.old) (S.faults input.new) → Stayed (K.faults output.old) (K.faults output.new)
        → Tells (answer_of bytes) result }

    // A fault is told only where it was counted.
    ensures read { S.faults input.old ≤ S.faults input.new }
    ensures wrote { K.faults output.old ≤ K.faults output.new }
    ensures read_fault { IsErrOf result AuditStop.ReadFault → Rose (S.faults input.old) (S.faults input.new) }
    ensures write_fault { IsErrOf result AuditStop.WriteFault → Rose (K.faults output.old) (K.faults output.new) }
{
    let verdict = verdict_on(alloc, input)?;
    let mut line = Vec::new(alloc);
    put_verdict(&mut line, verdict)?;
    write_all(output, &line)?;
    Ok(verdict)
}
