//! One event of a run, and what belongs to it.
ghost use Rattle.std.specs.Prelude.{◌≡◌, ◌<◌, ◌≤◌, ◌-◌, ◌+◌, ◌++◌, ◌∷◌, [], List, map, drop, length, OnOk, IfErr, false};
ghost use Rattle.std.specs.List.{flat_map};
ghost use Rattle.tcs_terms.specs.declared.inputs.Event.{Event};
ghost use Rattle.tcs_terms.specs.Runs.{MayStand};
ghost use Rattle.tcs_terms.specs.Setups.{Deployment};
ghost use Rattle.trace_text.specs.Lines.{OrderLine, EndLine, printed};
ghost use Rattle.trace_text.specs.Traces.{message_lines};
ghost use Rattle.schedule_text.specs.declared.limits.TheConstants.{EVENT_LIMIT};
ghost use Rattle.protocol.specs.History.{order_of};
ghost use Rattle.protocol_laws.specs.Promises.{world_of};
ghost use Rattle.world.specs.WorldState.{events_of};
ghost use Rattle.replay_core.specs.Trace.{sending};
ghost use Rattle.replay_core.specs.Standing.{RunsAt, Stepped, StopsStepping};

use crate::runs::Run;
use crate::stops::ReplayStop;
use tcs_terms::{Event, Note, OutOfMemory};
use trace_text::{print_happening, print_message, print_tail};

/// Appends the lines of the messages from this number on.
fn print_messages<R: Run>(run: &R, first: u32, text: &mut Vec<u8>) -> Result<(), OutOfMemory>
    requires positive { 1 ≤ first }
    requires within { first ≤ length (world_of (R.progress run.now)).messages + 1 }
    ensures { OnOk result (text.new.items ≡ text.old.items
        ++ flat_map printed (message_lines first (map sending (drop (first - 1) (world_of (R.progress run.now)).messages)))) }
{
    for number in first..run.messages() + 1 {
        match run.message(number) {
            Some(posted) => print_message(number, posted.from, posted.to, posted.frame, text)?,
            None => unreachable!(),
        }
    }
    Ok(())
}

/// The notes behind the first so many.
fn notes_from(history: &[Note], noted: usize) -> &[Note]
    requires { noted ≤ length history.now }
    ensures { result.now ≡ drop noted history.now }
{
    &history[noted..]
}

/// Steps an event, and puts its line, its notes and its messages in place of the text.
pub(crate) fn step<R: Run>(run: &mut R, event: Event, text: &mut Vec<u8>) -> Result<(), ReplayStop>
    requires may { MayStand (R.setup run.old) event }
    requires few { events_of (R.progress run.old) < EVENT_LIMIT }
    ensures stepped { (d : Deployment) (es : List Event) → RunsAt R.tests (R.setup run.old) (R.progress run.old) d es
        → OnOk result (Stepped d es event text.new.items × RunsAt R.tests (R.setup run.new) (R.progress run.new) d (es ++ event ∷ [])) }
    ensures lives { OnOk result (R.spent run.new ≡ false) }
    ensures stopped { (d : Deployment) (es : List Event) → RunsAt R.tests (R.setup run.old) (R.progress run.old) d es
        → IfErr result (StopsStepping d es event) }
{
    let noted = run.history().len();
    let sent = run.messages();
    let result = run.step(event)?;
    text.clear();
    print_happening(
        run.events(),
        &result,
        notes_from(run.history(), noted),
        text,
    )?;
    print_messages(run, sent + 1, text)?;
    Ok(())
}

/// Puts the last two lines of the trace in place of the text.
pub(crate) fn put_tail<R: Run>(run: &R, text: &mut Vec<u8>) -> Result<(), OutOfMemory>
    requires { R.spent run.now ≡ false }
    ensures { OnOk result (text.new.items ≡ printed (OrderLine (order_of (world_of (R.progress run.now)).history))
        ++ printed (EndLine (events_of (R.progress run.now)) (length (world_of (R.progress run.now)).messages))) }
{
    text.clear();
    print_tail(run.order(), run.events(), run.messages(), text)
}
