//! `generate`: the text of a generated schedule.
ghost use Rattle.std.specs.Prelude.{◌≡◌, ◌<◌, ◌≤◌, ◌++◌, ℕ, zero, suc, List, Some, OnOk, IfErr, IsErrOf};
ghost use Rattle.tcs_io.specs.Faults.{Rose};
ghost use Rattle.cert_serial.specs.Serial.{serial};
ghost use Rattle.generated_runs.specs.Runs.{KeepsWithin, IsFullAt};
ghost use Rattle.workload.specs.Outcomes.{Writes, Stopped, Stayed, WritesFully, StopsBy};
ghost use Rattle.workload.specs.Standing.{StandsAt, StopsBehind, StopsFrom};
ghost use Rattle.workload.specs.Texts.{front_until};

use crate::generations::{choose_next, happen_next};
use crate::plans::Plan;
use crate::setups::generated_world;
use crate::stops::GenStop;
use generator::Course;
use schedule_text::{print_event, print_setup};
use std::alloc::Global;
use tcs_io::{Sink, write_all};
use tcs_laws::VoteGuard;
use text_words::put;
use world::World;

/// Writes the schedule of a seed with so many events, 30 to 50,000, and steps its run beside it. The line of an event is
/// written once the event was taken.
///
/// # Errors
/// `Full` where the frames of the run would pass the limit with the next event, whose line is not written, with the sum
/// of their bytes; `WriteFault` only where the sink counted a fault.
pub fn generate<K: Sink>(
    alloc: Global,
    seed: u64,
    count: u32,
    output: &mut K,
) -> Result<(), GenStop>
    requires least { 30 ≤ count }
    requires most { count ≤ 50000 }
    // What was written by then.
    ensures whole { (before : List ℕ) → K.held output.old ≡ Some before → OnOk result (Writes seed count before (K.held output.new)) }
    ensures stopped { (before : List ℕ) → K.held output.old ≡ Some before → IfErr result (Stopped seed count before (K.held output.new)) }

    // Which answer comes, where no fault was counted.
    ensures complete { Stayed (K.faults output.old) (K.faults output.new) → KeepsWithin seed count count → WritesFully result }
    ensures full { Stayed (K.faults output.old) (K.faults output.new)
        → (place sum : ℕ) → IsFullAt seed count place sum → StopsBy (GenStop.Full sum) result }

    // A fault is told only where it was counted.
    ensures wrote { K.faults output.old ≤ K.faults output.new }
    ensures write_fault { IsErrOf result GenStop.WriteFault → Rose (K.faults output.old) (K.faults output.new) }
{
    write_schedule(alloc, Plan { seed, count }, output)
}

/// Writes the header, and steps the run: what `generate` does.
fn write_schedule<K: Sink>(alloc: Global, plan: Plan, output: &mut K) -> Result<(), GenStop>
    requires most { plan.count ≤ 50000 }
    ensures whole { (before : List ℕ) → K.held output.old ≡ Some before → OnOk result (Writes plan.seed plan.count before (K.held output.new)) }
    ensures stopped { (before : List ℕ) → K.held output.old ≡ Some before → IfErr result (Stopped plan.seed plan.count before (K.held output.new)) }
    ensures within { OnOk result (KeepsWithin plan.seed plan.count plan.count) }
    ensures from { IfErr result (StopsFrom plan.seed plan.count) }
    ensures wrote { K.faults output.old ≤ K.faults output.new }
    ensures write_fault { IsErrOf result GenStop.WriteFault → Rose (K.faults output.old) (K.faults output.new) }
{
    let mut course = Course::first(alloc, plan.seed);
    let mut world = generated_world(alloc)?;
    let mut text = Vec::new(alloc);
    print_setup(world.setup(), &mut text)?;
    write_all(output, &text)?;
    write_lines(alloc, plan, &mut course, &mut world, &mut text, output)
}

/// Writes the lines behind the header.
fn write_lines<G: VoteGuard, K: Sink>(
    alloc: Global,
    plan: Plan,
    course: &mut Course,
    world: &mut World<G>,
    text: &mut Vec<u8>,
    output: &mut K,
) -> Result<(), GenStop>
    requires certifier { G.Rule.tests ≡ serial }
    requires most { plan.count ≤ 50000 }
    requires begins { StandsAt plan.seed plan.count zero course.old world.old }
    ensures whole { (before : List ℕ) → K.held output.old ≡ Some (before ++ front_until plan.seed plan.count zero)
        → OnOk result (Writes plan.seed plan.count before (K.held output.new)) }
    ensures stopped { (before : List ℕ) → K.held output.old ≡ Some (before ++ front_until plan.seed plan.count zero)
        → IfErr result (Stopped plan.seed plan.count before (K.held output.new)) }
    ensures within { OnOk result (KeepsWithin plan.seed plan.count plan.count) }
    ensures from { IfErr result (StopsFrom plan.seed plan.count) }
    ensures wrote { K.faults output.old ≤ K.faults output.new }
    ensures write_fault { IsErrOf result GenStop.WriteFault → Rose (K.faults output.old) (K.faults output.new) }
{
    write_events(alloc, plan, course, world, text, output)?;
    text.clear();
    put(text, b"end\n")?;
    write_all(output, text)?;
    Ok(())
}

/// Writes the line of the event that comes behind the first so many, once it was taken.
fn write_event<G: VoteGuard, K: Sink>(
    alloc: Global,
    plan: Plan,
    place: u32,
    course: &mut Course,
    world: &mut World<G>,
    text: &mut Vec<u8>,
    output: &mut K,
) -> Result<(), GenStop>
    requires certifier { G.Rule.tests ≡ serial }
    requires most { plan.count ≤ 50000 }
    requires place { place < plan.count }
    requires stands { StandsAt plan.seed plan.count place course.old world.old }
    ensures stands { OnOk result (StandsAt plan.seed plan.count (suc place) course.new world.new) }
    ensures whole { (before : List ℕ) → K.held output.old ≡ Some (before ++ front_until plan.seed plan.count place)
        → OnOk result (K.held output.new ≡ Some (before ++ front_until plan.seed plan.count (suc place))) }
    ensures stopped { (before : List ℕ) → K.held output.old ≡ Some (before ++ front_until plan.seed plan.count place)
        → IfErr result (Stopped plan.seed plan.count before (K.held output.new)) }
    ensures from { IfErr result (StopsFrom plan.seed plan.count) }
    ensures wrote { K.faults output.old ≤ K.faults output.new }
    ensures write_fault { IsErrOf result GenStop.WriteFault → Rose (K.faults output.old) (K.faults output.new) }
{
    let next = choose_next(alloc, plan, place, course, world)?;
    text.clear();
    print_event(&next.event, text)?;
    happen_next(plan, place, course, world, next)?;
    write_all(output, text)?;
    Ok(())
}

/// Writes the lines of all events.
fn write_events<G: VoteGuard, K: Sink>(
    alloc: Global,
    plan: Plan,
    course: &mut Course,
    world: &mut World<G>,
    text: &mut Vec<u8>,
    output: &mut K,
) -> Result<(), GenStop>
    requires certifier { G.Rule.tests ≡ serial }
    requires most { plan.count ≤ 50000 }
    requires begins { StandsAt plan.seed plan.count zero course.old world.old }
    ensures stands { OnOk result (StandsAt plan.seed plan.count plan.count course.new world.new) }
    ensures whole { (before : List ℕ) → K.held output.old ≡ Some (before ++ front_until plan.seed plan.count zero)
        → OnOk result (K.held output.new ≡ Some (before ++ front_until plan.seed plan.count plan.count)) }
    ensures stopped { (before : List ℕ) → K.held output.old ≡ Some (before ++ front_until plan.seed plan.count zero)
        → IfErr result (Stopped plan.seed plan.count before (K.held output.new)) }
    ensures from { IfErr result (StopsFrom plan.seed plan.count) }
    ensures wrote { K.faults output.old ≤ K.faults output.new }
    ensures write_fault { IsErrOf result GenStop.WriteFault → Rose (K.faults output.old) (K.faults output.new) }
{
    for place in 0..plan.count {
        write_event(alloc, plan, place, course, world, text, output)?;
    }
    Ok(())
}
