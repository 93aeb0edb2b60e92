//! One event of a generated run.
ghost use Rattle.std.specs.Prelude.{◌≡◌, ◌-◌, ◌<◌, ◌≤◌, drop, false, true, suc, length, IfOk, OnOk, IfErr};
ghost use Rattle.cert_serial.specs.Serial.{serial};
ghost use Rattle.protocol_laws.specs.Promises.{world_of};
ghost use Rattle.tcs_terms.specs.Runs.{MayStand};
ghost use Rattle.world.specs.WorldState.{events_of};
ghost use Rattle.world.specs.declared.limits.TheConstants.{MAX_EVENTS};
ghost use Rattle.generator.specs.Courses.{HasRoom};
ghost use Rattle.generated_runs.specs.Setup.{setup};
ghost use Rattle.generated_runs.specs.Sights.{event_of};
ghost use Rattle.generated_runs.specs.Runs.{next_in, next, next_event, generated, is_read, is_live, serial_step, heard, with_answer};
ghost use Rattle.workload.specs.Standing.{Took, StandsAt, WorldStandsAt, IsNext, StopsBehind};
ghost use Rattle.workload.specs.Stops.{StopsAt, stop_of_run};

use crate::events::event_of;
use crate::plans::Plan;
use crate::sights::waits_in;
use crate::stops::GenStop;
use generator::{Course, Doing};
use std::alloc::Global;
use tcs_laws::VoteGuard;
use tcs_terms::{Event, OutOfMemory};
use world::{Happening, Stop, World};

/// An event that is to happen, and whether it reads for the transfer that is being collected.
#[derive(Debug, Drop)]
pub(crate) struct Next {
    pub(crate) event: Event,
    pub(crate) reads: bool,
}

/// Chooses what happens at a place, from 1, of a schedule of so many events.
fn choose<G: VoteGuard>(
    alloc: Global,
    course: &mut Course,
    world: &World<G>,
    count: u32,
    place: u32,
) -> Result<Next, OutOfMemory>
    requires count { count ≤ 50000 }
    requires lives { world.now.spent ≡ false }
    requires sent { 0 < length course.old.queue → 0 < length (world_of world.now.progress).messages }
    requires room { HasRoom course.old.transfer }
    ensures event { IfOk result (λ n. n.event ≡ event_of (world_of world.now.progress) (next_in (world_of world.now.progress) count place course.old).doing) }
    ensures reads { IfOk result (λ n. n.reads ≡ is_read (next_in (world_of world.now.progress) count place course.old).doing) }
    ensures course { OnOk result (course.new ≡ (next_in (world_of world.now.progress) count place course.old).course) }
{
    let doing = course.choose(count, place, waits_in(world), world.messages())?;
    let reads = matches!(doing, Doing::Read(_));
    let event = event_of(alloc, world, doing)?;
    Ok(Next { event, reads })
}

/// Takes an event.
fn take_step<G: VoteGuard>(world: &mut World<G>, event: Event) -> Result<Happening, Stop>
    requires certifier { G.Rule.tests ≡ serial }
    requires setup { world.old.setup ≡ setup }
    requires fits { MayStand setup event }
    requires few { events_of world.old.progress < MAX_EVENTS }
    ensures took { IfOk result (λ told. Took world.old.progress event told world.new.progress) }
    ensures setup { world.new.setup ≡ setup }
    ensures lives { OnOk result (world.new.spent ≡ false) }
    ensures stopped { IfErr result (λ stop. StopsAt (serial_step world.old.progress event).answer (stop_of_run stop)) }
{
    world.step(event)
}

/// A transfer hears what its reading noted, the last notes of the run.
fn hear<G: VoteGuard>(course: &mut Course, world: &World<G>, reads: bool, notes: usize)
    requires { notes ≤ length (world_of world.now.progress).history }
    ensures { course.new ≡ record course.old {
      transfer = heard reads (drop (length (world_of world.now.progress).history - notes) (world_of world.now.progress).history) course.old.transfer;
    } }
{
    if reads {
        course.take_notes(world.last_notes(notes));
    }
}

/// Lets an event happen that was chosen.
fn happen<G: VoteGuard>(
    course: &mut Course,
    world: &mut World<G>,
    next: Next,
) -> Result<(), GenStop>
    requires certifier { G.Rule.tests ≡ serial }
    requires setup { world.old.setup ≡ setup }
    requires fits { MayStand setup next.event }
    requires few { events_of world.old.progress < MAX_EVENTS }
    ensures course { OnOk result (course.new ≡ with_answer (length (world_of world.old.progress).messages) next.reads (serial_step world.old.progress next.event).answer course.old) }
    ensures run { OnOk result (world.new.progress ≡ (serial_step world.old.progress next.event).after) }
    ensures setup { OnOk result (world.new.setup ≡ setup) }
    ensures lives { OnOk result (world.new.spent ≡ false) }
    ensures within { OnOk result (is_live world.new.progress ≡ true) }
    ensures stopped { IfErr result (StopsAt (serial_step world.old.progress next.event).answer) }
{
    let before = world.messages();
    let told = take_step(world, next.event)?;
    hear(course, world, next.reads, told.notes);
    let sent = world.messages() - before;
    course.queue_sent(before, sent)?;
    Ok(())
}

/// Chooses what comes behind the first so many events.
pub(crate) fn choose_next<G: VoteGuard>(
    alloc: Global,
    plan: Plan,
    place: u32,
    course: &mut Course,
    world: &World<G>,
) -> Result<Next, OutOfMemory>
    requires most { plan.count ≤ 50000 }
    requires place { place < plan.count }
    requires stands { StandsAt plan.seed plan.count place course.old world.now }
    ensures next { OnOk result (IsNext plan.seed plan.count place course.new) }
    ensures event { IfOk result (λ n. n.event ≡ next_event plan.count (suc place) (generated plan.seed plan.count place)) }
    ensures reads { IfOk result (λ n. n.reads ≡ is_read (next plan.count (suc place) (generated plan.seed plan.count place)).doing) }
{
    choose(alloc, course, world, plan.count, place + 1)
}

/// Lets happen what comes behind the first so many events.
pub(crate) fn happen_next<G: VoteGuard>(
    plan: Plan,
    place: u32,
    course: &mut Course,
    world: &mut World<G>,
    chosen: Next,
) -> Result<(), GenStop>
    requires certifier { G.Rule.tests ≡ serial }
    requires most { plan.count ≤ 50000 }
    requires place { place < plan.count }
    requires world { WorldStandsAt plan.seed plan.count place world.old }
    requires next { IsNext plan.seed plan.count place course.old }
    requires event { chosen.event ≡ next_event plan.count (suc place) (generated plan.seed plan.count place) }
    requires reads { chosen.reads ≡ is_read (next plan.count (suc place) (generated plan.seed plan.count place)).doing }
    ensures stands { OnOk result (StandsAt plan.seed plan.count (suc place) course.new world.new) }
    ensures stopped { IfErr result (StopsBehind plan.seed plan.count place) }
{
    happen(course, world, chosen)
}
