//! `soak`: what a generated run comes to.
ghost use Rattle.std.specs.Prelude.{◌≡◌, ◌≤◌, ◌++◌, false, codes, decimal, zero, ℕ, List, Some, IfOk, OnOk, IfErr, IsErrOf};
ghost use Rattle.tcs_io.specs.Faults.{Rose};
ghost use Rattle.cert_serial.specs.Serial.{serial};
ghost use Rattle.protocol_laws.specs.Promises.{world_of};
ghost use Rattle.world.specs.WorldState.{events_of};
ghost use Rattle.generated_runs.specs.Runs.{KeepsWithin, IsFullAt};
ghost use Rattle.workload.specs.Counts.{soak_text};
ghost use Rattle.workload.specs.Outcomes.{Tells, SoakStopped, Stayed, WritesFully, StopsBy};
ghost use Rattle.workload.specs.Standing.{StandsAt, StopsFrom, RunStops};

use crate::counts::{aborted_of, begun_of};
use crate::generations::{choose_next, happen_next};
use crate::plans::Plan;
use crate::setups::generated_world;
use crate::stops::GenStop;
use generator::Course;
use std::alloc::Global;
use tcs_io::{Sink, write_all};
use tcs_laws::VoteGuard;
use tcs_terms::OutOfMemory;
use text_words::{put, put_byte, put_number};
use world::World;

/// Steps the run of the schedule of a seed with so many events, 30 to 50,000, and writes its five counts: events,
/// messages, and the transactions that were begun, committed and aborted.
///
/// # Errors
/// `Full` where the frames of the run would pass the limit with an event, with the sum of their bytes; `WriteFault` only
/// where the sink counted a fault.
pub fn soak<K: Sink>(alloc: Global, seed: u64, count: u32, output: &mut K) -> Result<(), GenStop>
    requires least { 30 ≤ count }
    requires most { count ≤ 50000 }
    // What was written by then.
    ensures whole { (before : List ℕ) → K.held output.old ≡ Some before → OnOk result (Tells seed count before (K.held output.new)) }
    ensures stopped { (before : List ℕ) → K.held output.old ≡ Some before → IfErr result (SoakStopped seed count before (K.held output.new)) }

    // Which answer comes, where no fault was counted.
    ensures complete { Stayed (K.faults output.old) (K.faults output.new) → KeepsWithin seed count count → WritesFully result }
    ensures full { Stayed (K.faults output.old) (K.faults output.new)
        → (place sum : ℕ) → IsFullAt seed count place sum → StopsBy (GenStop.Full sum) result }

    // A fault is told only where it was counted.
    ensures wrote { K.faults output.old ≤ K.faults output.new }
    ensures write_fault { IsErrOf result GenStop.WriteFault → Rose (K.faults output.old) (K.faults output.new) }
{
    write_counts(alloc, Plan { seed, count }, output)
}

/// Steps the run, and writes its counts: what `soak` does.
fn write_counts<K: Sink>(alloc: Global, plan: Plan, output: &mut K) -> Result<(), GenStop>
    requires most { plan.count ≤ 50000 }
    ensures whole { (before : List ℕ) → K.held output.old ≡ Some before → OnOk result (Tells plan.seed plan.count before (K.held output.new)) }
    ensures stopped { (before : List ℕ) → K.held output.old ≡ Some before → IfErr result (SoakStopped plan.seed plan.count before (K.held output.new)) }
    ensures within { OnOk result (KeepsWithin plan.seed plan.count plan.count) }
    ensures from { IfErr result (StopsFrom plan.seed plan.count) }
    ensures wrote { K.faults output.old ≤ K.faults output.new }
    ensures write_fault { IsErrOf result GenStop.WriteFault → Rose (K.faults output.old) (K.faults output.new) }
{
    let mut course = Course::first(alloc, plan.seed);
    let mut world = generated_world(alloc)?;
    run_events(alloc, plan, &mut course, &mut world)?;
    let text = soak_text(alloc, &world)?;
    write_all(output, &text)?;
    Ok(())
}

/// Lets all events happen.
fn run_events<G: VoteGuard>(
    alloc: Global,
    plan: Plan,
    course: &mut Course,
    world: &mut World<G>,
) -> Result<(), GenStop>
    requires certifier { G.Rule.tests ≡ serial }
    requires most { plan.count ≤ 50000 }
    requires begins { StandsAt plan.seed plan.count zero course.old world.old }
    ensures stands { OnOk result (StandsAt plan.seed plan.count plan.count course.new world.new) }
    ensures stopped { IfErr result (RunStops plan.seed plan.count) }
{
    for place in 0..plan.count {
        let next = choose_next(alloc, plan, place, course, world)?;
        happen_next(plan, place, course, world, next)?;
    }
    Ok(())
}

/// A space and a number.
fn put_count(text: &mut Vec<u8>, count: u64) -> Result<(), OutOfMemory>
    ensures { OnOk result (text.new.items ≡ text.old.items ++ (codes " " ++ decimal count)) }
{
    put_byte(text, b' ')?;
    put_number(text, count)
}

/// The line of the five counts.
fn soak_text<G: VoteGuard>(alloc: Global, world: &World<G>) -> Result<Vec<u8>, OutOfMemory>
    requires { world.now.spent ≡ false }
    ensures { IfOk result (λ text. text.items ≡ soak_text (events_of world.now.progress) (world_of world.now.progress)) }
{
    let history = world.history();
    let mut text = Vec::new(alloc);
    put(&mut text, b"soak")?;
    put_count(&mut text, u64::from(world.events()))?;
    put_count(&mut text, u64::from(world.messages()))?;
    put_count(&mut text, begun_of(alloc, history)? as u64)?;
    put_count(&mut text, world.order().len() as u64)?;
    put_count(&mut text, aborted_of(alloc, history)? as u64)?;
    put_byte(&mut text, b'\n')?;
    Ok(text)
}
