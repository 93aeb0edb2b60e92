//! `totals`: a schedule in, what the counters of its run are worth out.
ghost use Rattle.std.specs.Prelude.{◌≡◌, ◌≤◌, ℕ, List, Some, OnOk, IfErr, IsErrOf, IsTrue};
ghost use Rattle.tcs_io.specs.Faults.{Rose};
ghost use Rattle.tcs_terms.specs.declared.inputs.Event.{Event};
ghost use Rattle.tcs_terms.specs.declared.setups.Rule.TheVariants as rules;
ghost use Rattle.text_words.specs.declared.words.Reason.{Reason};
ghost use Rattle.text_words.specs.declared.words.Reason.TheVariants as reasons;
ghost use Rattle.tcs_terms.specs.Setups.{Deployment};
ghost use Rattle.schedule_text.specs.declared.reader.LineItem.{LineItem as Item};
ghost use Rattle.schedule_text.specs.Bytes.{IsText, FirstBad};
ghost use Rattle.replay_core.specs.Trace.{run_of, is_live};
ghost use Rattle.replay_core.specs.Replays.{FirstFull, WithinOn, Stayed, ReplaysFully, StopsBy};
ghost use Rattle.totals_core.specs.Totalling.{Ends, Finishes, NamesOther};

use crate::events::run_events;
use crate::header::commuting_header;
use crate::telling::tell;
use conflict_index::CommuteIndex;
use replay_core::{Reading, ReplayStop};
use std::alloc::Global;
use tcs_io::{Sink, Source};
use world::World;

/// Reads a schedule whose rule is that additions commute, runs it, and writes for each counter to which a committed
/// transaction adds, names ascending, the sum over the order of commits and the greatest sum that a node of its shard
/// holds; then the number of these lines. Nothing is written before the input has ended.
///
/// # Errors
/// Those of a replay; and where line 2 names another rule, `Bad` with that line and `Word`.
pub fn totals<S: Source, K: Sink>(
    alloc: Global,
    input: &mut S,
    output: &mut K,
) -> Result<(), ReplayStop>
    // What was read and written by then.
    ensures whole { (bytes before : List ℕ) → S.left input.old ≡ Some bytes → K.held output.old ≡ Some before
        → OnOk result (Finishes bytes before (S.left input.new) (K.held output.new)) }
    ensures stopped { (bytes before : List ℕ) → S.left input.old ≡ Some bytes → K.held output.old ≡ Some before
        → IfErr result (Ends bytes before (S.left input.new) (K.held output.new)) }

    // Which answer comes, where no fault was counted.
    ensures complete { (bytes before : List ℕ) → S.left input.old ≡ Some bytes → K.held output.old ≡ Some before
        → Stayed (S.faults input.old) (S.faults input.new) → Stayed (K.faults output.old) (K.faults output.new)
        → (d : Deployment) (es : List Event) → IsText bytes d es → d.rule ≡ rules.Commute
        → IsTrue (is_live (run_of d es)) → ReplaysFully result }
    ensures other { (bytes before : List ℕ) → S.left input.old ≡ Some bytes → K.held output.old ≡ Some before
        → Stayed (S.faults input.old) (S.faults input.new) → Stayed (K.faults output.old) (K.faults output.new)
        → NamesOther bytes → StopsBy (ReplayStop.Bad 2 reasons.Word) result }
    ensures bad { (bytes before : List ℕ) → S.left input.old ≡ Some bytes → K.held output.old ≡ Some before
        → Stayed (S.faults input.old) (S.faults input.new) → Stayed (K.faults output.old) (K.faults output.new)
        → (number : ℕ) (reason : Reason) (is : List Item) → FirstBad bytes number reason is → WithinOn is
        → (NamesOther bytes → ⊥) → StopsBy (ReplayStop.Bad number reason) result }
    ensures full { (bytes before : List ℕ) → S.left input.old ≡ Some bytes → K.held output.old ≡ Some before
        → Stayed (S.faults input.old) (S.faults input.new) → Stayed (K.faults output.old) (K.faults output.new)
        → (sum : ℕ) (is : List Item) → FirstFull bytes sum is
        → (NamesOther bytes → ⊥) → StopsBy (ReplayStop.Full sum) result }

    // A fault is told only where it was counted.
    ensures read { S.faults input.old ≤ S.faults input.new }
    ensures wrote { K.faults output.old ≤ K.faults output.new }
    ensures read_fault { IsErrOf result ReplayStop.ReadFault → Rose (S.faults input.old) (S.faults input.new) }
    ensures write_fault { IsErrOf result ReplayStop.WriteFault → Rose (K.faults output.old) (K.faults output.new) }
{
    run_and_tell(alloc, input, output)
}

/// Reads the schedule, runs it, and tells what its counters are worth.
fn run_and_tell<S: Source, K: Sink>(
    alloc: Global,
    input: &mut S,
    output: &mut K,
) -> Result<(), ReplayStop>
    ensures whole { (bytes before : List ℕ) → S.left input.old ≡ Some bytes → K.held output.old ≡ Some before
        → OnOk result (Finishes bytes before (S.left input.new) (K.held output.new)) }
    ensures stopped { (bytes before : List ℕ) → S.left input.old ≡ Some bytes → K.held output.old ≡ Some before
        → IfErr result (Ends bytes before (S.left input.new) (K.held output.new)) }
    ensures read { S.faults input.old ≤ S.faults input.new }
    ensures wrote { K.faults output.old ≤ K.faults output.new }
    ensures read_fault { IsErrOf result ReplayStop.ReadFault → Rose (S.faults input.old) (S.faults input.new) }
    ensures write_fault { IsErrOf result ReplayStop.WriteFault → Rose (K.faults output.old) (K.faults output.new) }
{
    let mut reading = Reading::begin(alloc)?;
    let setup = commuting_header(&mut reading, input)?;
    let mut world = World::<CommuteIndex>::new(alloc, setup)?;
    run_events(&mut reading, &mut world, input)?;
    tell(alloc, &world, output)
}
