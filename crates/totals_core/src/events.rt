//! The events of a schedule, up to the end of the input: each is stepped, and nothing is written.
ghost use Rattle.std.specs.Prelude.{◌≡◌, ◌<◌, ◌≤◌, ◌++◌, ◌∷◌, [], false, ℕ, List, OnOk, IfErr, IsErrOf};
ghost use Rattle.tcs_io.specs.Faults.{Rose};
ghost use Rattle.tcs_terms.specs.declared.inputs.Event.{Event};
ghost use Rattle.tcs_terms.specs.declared.setups.Rule.TheVariants as rules;
ghost use Rattle.tcs_terms.specs.Runs.{MayStand};
ghost use Rattle.tcs_terms.specs.Setups.{Deployment};
ghost use Rattle.schedule_text.specs.declared.limits.TheConstants.{EVENT_LIMIT};
ghost use Rattle.schedule_text.specs.declared.places.Place.TheVariants as places;
ghost use Rattle.schedule_text.specs.declared.reader.LineItem.{LineItem as Item};
ghost use Rattle.protocol_laws.specs.Promises.{world_of};
ghost use Rattle.world.specs.WorldState.{events_of};
ghost use Rattle.replay_core.specs.Standing.{HasRead, RunsAt, StandsBegun, StopsStepping};
ghost use Rattle.totals_core.specs.Holdings.{IsCountable};
ghost use Rattle.totals_core.specs.Progressing.{HasRun, StopsNow};

use replay_core::{Reading, ReplayStop};
use schedule_text::LineItem;
use tcs_io::Source;
use tcs_laws::VoteGuard;
use tcs_terms::Event;
use world::{Stop, World};

/// Takes the lines of the events, steps each, and then takes the end of the input. The rule is that additions commute.
pub(crate) fn run_events<G: VoteGuard, S: Source>(
    reading: &mut Reading,
    world: &mut World<G>,
    input: &mut S,
) -> Result<(), ReplayStop>
    requires lives { world.old.spent ≡ false }
    requires begun { (is : List Item)
        × StandsBegun G.Rule.tests places.Events reading.old world.old.setup world.old.progress is }
    requires many { 2 ≤ reading.old.number }
    requires commute { reading.old.reader.head.setup.rule ≡ rules.Commute }
    ensures whole { (is : List Item)
        → StandsBegun G.Rule.tests places.Events reading.old world.old.setup world.old.progress is
        → (bytes : List ℕ) → HasRead bytes reading.old (S.left input.old) is
        → OnOk result (HasRun bytes (S.left input.new) world.new.setup world.new.progress) }
    ensures lives { OnOk result (world.new.spent ≡ false) }
    ensures countable { OnOk result (IsCountable (world_of world.new.progress)) }
    ensures some { OnOk result (1 ≤ world.new.setup.shards) }
    ensures stopped { (is : List Item)
        → StandsBegun G.Rule.tests places.Events reading.old world.old.setup world.old.progress is
        → (bytes : List ℕ) → HasRead bytes reading.old (S.left input.old) is
        → IfErr result (StopsNow bytes (S.left input.new)) }
    ensures count { S.faults input.old ≤ S.faults input.new }
    ensures fault { IsErrOf result ReplayStop.ReadFault → Rose (S.faults input.old) (S.faults input.new) }
    ensures unwritten { IsErrOf result ReplayStop.WriteFault → ⊥ }
{
    'lines: loop {
        match reading.take(input)? {
            LineItem::Event(event) => step(world, event)?,
            LineItem::End => {
                reading.take(input)?;
                return Ok(());
            }
            LineItem::Header => unreachable!(),
            LineItem::Begun(_) => unreachable!(),
        }
    }
}

/// Steps an event, of which nothing is shown.
fn step<G: VoteGuard>(world: &mut World<G>, event: Event) -> Result<(), ReplayStop>
    requires may { MayStand world.old.setup event }
    requires few { events_of world.old.progress < EVENT_LIMIT }
    ensures stepped { (d : Deployment) (es : List Event) → RunsAt G.Rule.tests world.old.setup world.old.progress d es
        → OnOk result (RunsAt G.Rule.tests world.new.setup world.new.progress d (es ++ event ∷ [])) }
    ensures lives { OnOk result (world.new.spent ≡ false) }
    ensures stopped { (d : Deployment) (es : List Event) → RunsAt G.Rule.tests world.old.setup world.old.progress d es
        → IfErr result (StopsStepping d es event) }
    ensures no_read { IsErrOf result ReplayStop.ReadFault → ⊥ }
    ensures no_write { IsErrOf result ReplayStop.WriteFault → ⊥ }
{
    match world.step(event) {
        Ok(_) => Ok(()),
        Err(Stop::SoupFull(sum)) => Err(ReplayStop::Full(sum)),
        Err(Stop::OutOfMemory) => Err(ReplayStop::OutOfMemory),
    }
}
