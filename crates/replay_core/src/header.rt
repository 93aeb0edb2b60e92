//! Reads a schedule up to its line `events`.
ghost use Rattle.std.specs.Prelude.{◌≡◌, ◌≤◌, [], IfOk, IfErr, IsErrOf};
ghost use Rattle.tcs_io.specs.Faults.{Rose};
ghost use Rattle.schedule_text.specs.Schedules.{at_start};
ghost use Rattle.replay_core.specs.Standing.{Begun, StopsInHeader};

use crate::reading::Reading;
use crate::stops::ReplayStop;
use schedule_text::LineItem;
use tcs_io::Source;
use tcs_terms::Setup;

/// Takes the lines of the header, the line `events` last, and answers the setup that they make.
pub(crate) fn header<S: Source>(reading: &mut Reading, input: &mut S) -> Result<Setup, ReplayStop>
    requires none { reading.old.lines ≡ [] }
    requires start { reading.old.reader ≡ at_start }
    requires number { reading.old.number ≡ 0 }
    ensures begun { IfOk result (Begun reading.new (S.left input.old) (S.left input.new)) }
    ensures stopped { IfErr result (StopsInHeader (S.left input.old) (S.left input.new)) }
    ensures count { S.faults input.old ≤ S.faults input.new }
    ensures fault { IsErrOf result ReplayStop.ReadFault → Rose (S.faults input.old) (S.faults input.new) }
    ensures unwritten { IsErrOf result ReplayStop.WriteFault → ⊥ }
{
    'lines: loop {
        match reading.take(input)? {
            LineItem::Header => {}
            LineItem::Begun(setup) => return Ok(setup),
            LineItem::Event(_) => unreachable!(),
            LineItem::End => unreachable!(),
        }
    }
}
