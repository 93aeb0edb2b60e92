//! The events of a schedule, from the line behind `events` to the end of the input.
ghost use Rattle.std.specs.Prelude.{◌≡◌, ◌≤◌, false, ℕ, List, OnOk, IfErr, IsErrOf};
ghost use Rattle.tcs_io.specs.Faults.{Rose};
ghost use Rattle.schedule_text.specs.declared.places.Place.TheVariants as places;
ghost use Rattle.schedule_text.specs.declared.reader.LineItem.{LineItem as Item};
ghost use Rattle.replay_core.specs.Standing.{IsAt, StandsBegun};
ghost use Rattle.replay_core.specs.Replays.{Ends, Finishes};

use crate::reading::Reading;
use crate::runs::Run;
use crate::stepping::{put_tail, step};
use crate::stops::ReplayStop;
use schedule_text::LineItem;
use tcs_io::{Sink, Source, write_all};

/// Takes the lines of the events, and steps each; behind the line `end` it writes the end of the trace, once the input
/// has ended too. What belongs to a line is written before the next one is read.
pub(crate) fn replay_events<R: Run, S: Source, K: Sink>(
    reading: &mut Reading,
    run: &mut R,
    text: &mut Vec<u8>,
    input: &mut S,
    output: &mut K,
) -> Result<(), ReplayStop>
    requires lives { R.spent run.old ≡ false }
    requires begun { (is : List Item) × StandsBegun R.tests places.Events reading.old (R.setup run.old) (R.progress run.old) is }
    ensures whole { (is : List Item) → StandsBegun R.tests places.Events reading.old (R.setup run.old) (R.progress run.old) is
        → (bytes before : List ℕ) → IsAt bytes before reading.old (S.left input.old) (K.held output.old) is
        → OnOk result (Finishes bytes before (S.left input.new) (K.held output.new)) }
    ensures stopped { (is : List Item) → StandsBegun R.tests places.Events reading.old (R.setup run.old) (R.progress run.old) is
        → (bytes before : List ℕ) → IsAt bytes before reading.old (S.left input.old) (K.held output.old) is
        → IfErr result (Ends bytes before (S.left input.new) (K.held output.new)) }
    ensures read { S.faults input.old ≤ S.faults input.new }
    ensures wrote { K.faults output.old ≤ K.faults output.new }
    ensures read_fault { IsErrOf result ReplayStop.ReadFault → Rose (S.faults input.old) (S.faults input.new) }
    ensures write_fault { IsErrOf result ReplayStop.WriteFault → Rose (K.faults output.old) (K.faults output.new) }
{
    'lines: loop {
        match reading.take(input)? {
            LineItem::Event(event) => {
                step(run, event, text)?;
                write_all(output, text)?;
            }
            LineItem::End => return finish(reading, run, text, input, output),
            LineItem::Header => unreachable!(),
            LineItem::Begun(_) => unreachable!(),
        }
    }
}

/// Behind the line `end`: the input ends, and the last two lines of the trace are written.
fn finish<R: Run, S: Source, K: Sink>(
    reading: &mut Reading,
    run: &mut R,
    text: &mut Vec<u8>,
    input: &mut S,
    output: &mut K,
) -> Result<(), ReplayStop>
    requires lives { R.spent run.old ≡ false }
    requires ended { (is : List Item) × StandsBegun R.tests places.Ended reading.old (R.setup run.old) (R.progress run.old) is }
    ensures whole { (is : List Item) → StandsBegun R.tests places.Ended reading.old (R.setup run.old) (R.progress run.old) is
        → (bytes before : List ℕ) → IsAt bytes before reading.old (S.left input.old) (K.held output.old) is
        → OnOk result (Finishes bytes before (S.left input.new) (K.held output.new)) }
    ensures stopped { (is : List Item) → StandsBegun R.tests places.Ended reading.old (R.setup run.old) (R.progress run.old) is
        → (bytes before : List ℕ) → IsAt bytes before reading.old (S.left input.old) (K.held output.old) is
        → IfErr result (Ends bytes before (S.left input.new) (K.held output.new)) }
    ensures read { S.faults input.old ≤ S.faults input.new }
    ensures wrote { K.faults output.old ≤ K.faults output.new }
    ensures read_fault { IsErrOf result ReplayStop.ReadFault → Rose (S.faults input.old) (S.faults input.new) }
    ensures write_fault { IsErrOf result ReplayStop.WriteFault → Rose (K.faults output.old) (K.faults output.new) }
{
    reading.take(input)?;
    put_tail(run, text)?;
    write_all(output, text)?;
    Ok(())
}
