//! `replay`: a schedule in, the trace of its run out.
ghost use Rattle.std.specs.Prelude.{◌≡◌, ◌≤◌, ℕ, List, Some, OnOk, IfErr, IsErrOf, IsTrue};
ghost use Rattle.tcs_io.specs.Faults.{Rose};
ghost use Rattle.tcs_terms.specs.declared.inputs.Event.{Event};
ghost use Rattle.text_words.specs.declared.words.Reason.{Reason};
ghost use Rattle.tcs_terms.specs.Setups.{Deployment};
ghost use Rattle.schedule_text.specs.declared.reader.LineItem.{LineItem as Item};
ghost use Rattle.schedule_text.specs.Bytes.{IsText, FirstBad};
ghost use Rattle.replay_core.specs.Trace.{run_of, is_live};
ghost use Rattle.replay_core.specs.Replays.{Finishes, Ends, FirstFull, WithinOn, Stayed, ReplaysFully, StopsBy};

use crate::by_rule::replay_by_rule;
use crate::stops::ReplayStop;
use conflict_index::{CommuteIndex, SerialIndex, SnapshotIndex};
use std::alloc::Global;
use tcs_io::{Sink, Source};
use world::World;

/// Reads a schedule from `input`, and writes the trace of its run to `output`.
///
/// Line by line: a line is read, checked, stepped and written before the next one is read, and of what follows it no
/// more is read than a line may have. The last two lines of the trace are written once the input has ended.
///
/// # Errors
/// `Bad` names the first line that may not stand where it stands, from 1, and its reason; `Full` tells how many bytes
/// the frames of the run would have with the next event, where that is above the limit. `ReadFault` and `WriteFault`
/// come only where the source or the sink counted a fault. Each stop tells what was read and written by then, and the
/// run up to it keeps its promises.
pub fn replay<S: Source, K: Sink>(
    alloc: Global,
    input: &mut S,
    output: &mut K,
) -> Result<(), ReplayStop>
    // What was read and written by then.
    ensures whole { (bytes before : List ℕ) → S.left input.old ≡ Some bytes → K.held output.old ≡ Some before
        → OnOk result (Finishes bytes before (S.left input.new) (K.held output.new)) }
    ensures stopped { (bytes before : List ℕ) → S.left input.old ≡ Some bytes → K.held output.old ≡ Some before
        → IfErr result (Ends bytes before (S.left input.new) (K.held output.new)) }

    // Which answer comes, where no fault was counted.
    ensures complete { (bytes before : List ℕ) → S.left input.old ≡ Some bytes → K.held output.old ≡ Some before
        → Stayed (S.faults input.old) (S.faults input.new) → Stayed (K.faults output.old) (K.faults output.new)
        → (d : Deployment) (es : List Event) → IsText bytes d es → IsTrue (is_live (run_of d es)) → ReplaysFully result }
    ensures bad { (bytes before : List ℕ) → S.left input.old ≡ Some bytes → K.held output.old ≡ Some before
        → Stayed (S.faults input.old) (S.faults input.new) → Stayed (K.faults output.old) (K.faults output.new)
        → (number : ℕ) (reason : Reason) (is : List Item) → FirstBad bytes number reason is → WithinOn is
        → StopsBy (ReplayStop.Bad number reason) result }
    ensures full { (bytes before : List ℕ) → S.left input.old ≡ Some bytes → K.held output.old ≡ Some before
        → Stayed (S.faults input.old) (S.faults input.new) → Stayed (K.faults output.old) (K.faults output.new)
        → (sum : ℕ) (is : List Item) → FirstFull bytes sum is → StopsBy (ReplayStop.Full sum) result }

    // A fault is told only where it was counted.
    ensures read { S.faults input.old ≤ S.faults input.new }
    ensures wrote { K.faults output.old ≤ K.faults output.new }
    ensures read_fault { IsErrOf result ReplayStop.ReadFault → Rose (S.faults input.old) (S.faults input.new) }
    ensures write_fault { IsErrOf result ReplayStop.WriteFault → Rose (K.faults output.old) (K.faults output.new) }
{
    replay_by_rule::<World<SerialIndex>, World<SnapshotIndex>, World<CommuteIndex>, S, K>(
        alloc, input, output,
    )
}
