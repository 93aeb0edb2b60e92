//! Which run a schedule is replayed by: that of the rule which its header names.
ghost use Rattle.std.specs.Prelude.{◌≡◌, ◌≤◌, ℕ, List, Option, Some, OnOk, IfErr, IsErrOf};
ghost use Rattle.tcs_io.specs.Faults.{Rose};
ghost use Rattle.tcs_terms.specs.declared.setups.Rule.TheVariants as rules;
ghost use Rattle.replay_core.specs.Trace.{tests_of};
ghost use Rattle.replay_core.specs.Replays.{Ends, Finishes};
ghost use Rattle.replay_core.specs.Standing.{Begun};

use crate::events::replay_events;
use crate::header::header;
use crate::reading::Reading;
use crate::runs::Run;
use crate::stops::ReplayStop;
use std::alloc::Global;
use tcs_io::{Sink, Source, write_all};
use tcs_terms::{Rule, Setup};
use trace_text::print_head;

/// Reads a schedule, and writes the trace of its run, which is kept by a run of the rule that the schedule names.
pub(crate) fn replay_by_rule<Serial: Run, Snapshot: Run, Commute: Run, S: Source, K: Sink>(
    alloc: Global,
    input: &mut S,
    output: &mut K,
) -> Result<(), ReplayStop>
    requires serial { Serial.tests ≡ tests_of rules.Serial }
    requires snapshot { Snapshot.tests ≡ tests_of rules.Snapshot }
    requires commute { Commute.tests ≡ tests_of rules.Commute }
    ensures whole { (bytes before : List ℕ) → S.left input.old ≡ Some bytes → K.held output.old ≡ Some before
        → OnOk result (Finishes bytes before (S.left input.new) (K.held output.new)) }
    ensures stopped { (bytes before : List ℕ) → S.left input.old ≡ Some bytes → K.held output.old ≡ Some before
        → IfErr result (Ends bytes before (S.left input.new) (K.held output.new)) }
    ensures read { S.faults input.old ≤ S.faults input.new }
    ensures wrote { K.faults output.old ≤ K.faults output.new }
    ensures read_fault { IsErrOf result ReplayStop.ReadFault → Rose (S.faults input.old) (S.faults input.new) }
    ensures write_fault { IsErrOf result ReplayStop.WriteFault → Rose (K.faults output.old) (K.faults output.new) }
{
    let mut reading = Reading::begin(alloc)?;
    let setup = header(&mut reading, input)?;
    match setup.rule() {
        Rule::Serial => replay_run::<Serial, S, K>(alloc, &mut reading, setup, input, output),
        Rule::Snapshot => replay_run::<Snapshot, S, K>(alloc, &mut reading, setup, input, output),
        Rule::Commute => replay_run::<Commute, S, K>(alloc, &mut reading, setup, input, output),
    }
}

/// Replays what follows the header, by a run of its setup.
fn replay_run<R: Run, S: Source, K: Sink>(
    alloc: Global,
    reading: &mut Reading,
    setup: Setup,
    input: &mut S,
    output: &mut K,
) -> Result<(), ReplayStop>
    requires certifier { R.tests ≡ tests_of setup.rule }
    requires begun { (first : Option (List ℕ)) × Begun reading.old first (S.left input.old) setup }
    ensures whole { (first : Option (List ℕ)) → Begun reading.old first (S.left input.old) setup
        → (bytes before : List ℕ) → first ≡ Some bytes → K.held output.old ≡ Some before
        → OnOk result (Finishes bytes before (S.left input.new) (K.held output.new)) }
    ensures stopped { (first : Option (List ℕ)) → Begun reading.old first (S.left input.old) setup
        → (bytes before : List ℕ) → first ≡ Some bytes → K.held output.old ≡ Some before
        → IfErr result (Ends bytes before (S.left input.new) (K.held output.new)) }
    ensures read { S.faults input.old ≤ S.faults input.new }
    ensures wrote { K.faults output.old ≤ K.faults output.new }
    ensures read_fault { IsErrOf result ReplayStop.ReadFault → Rose (S.faults input.old) (S.faults input.new) }
    ensures write_fault { IsErrOf result ReplayStop.WriteFault → Rose (K.faults output.old) (K.faults output.new) }
{
    let mut text = Vec::new(alloc);
    print_head(&setup, &mut text)?;
    let mut run = R::first(alloc, setup)?;
    write_all(output, &text)?;
    replay_events(reading, &mut run, &mut text, input, output)
}
