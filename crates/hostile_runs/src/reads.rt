//! A source that fails.

use crate::commands::{Outcome, Tally, outcome_of};
use crate::traces::{front, whole_lines};
use std::alloc::{AllocError, Global};
use tcs_run::Status;

/// The header of the schedule has so many lines, `events` included.
const HEADER: usize = 6;

/// What is written where these bytes of the schedule were read: nothing before the line `events`, then what belongs to the
/// whole lines. It has as many events as its trace has parts, and `end` adds nothing.
fn expected<'t>(read: &[u8], trace: &'t [u8]) -> &'t [u8] {
    let lines = whole_lines(read);
    if lines < HEADER {
        return &trace[..0];
    }
    front(trace, (lines - HEADER).min(3))
}

fn is_right(outcome: &Outcome, expected: &[u8]) -> bool {
    outcome.status == Status::ReadFault && outcome.written.as_slice() == expected
}

/// Each read of a schedule fails in turn, the one that would tell its end included.
pub(crate) fn tally(alloc: Global, schedule: &[u8], trace: &[u8]) -> Result<Tally, AllocError> {
    let mut tally = Tally::new();
    for place in 0..schedule.len() + 1 {
        let read = u32::try_from(place).unwrap_or(u32::MAX).saturating_add(1);
        let outcome = outcome_of(alloc, "replay", schedule, read, 0)?;
        tally.case(is_right(&outcome, expected(&schedule[..place], trace)));
    }
    Ok(tally)
}
