//! Nodes that stop.

use crate::commands::{Tally, outcome_of};
use std::alloc::{AllocError, Global};
use tcs_run::Status;

/// The nodes of the schedule.
const NODES: [&str; 3] = ["stop 1\n", "stop 2\n", "stop 3\n"];

/// The schedule with a line more before the line of this number, from 0.
fn with_line(
    alloc: Global,
    schedule: &str,
    number: usize,
    line: &str,
) -> Result<Vec<u8>, AllocError> {
    let mut changed = Vec::new(alloc);
    for (place, old) in schedule.lines().enumerate() {
        if place == number {
            changed.extend_from_slice(line.as_bytes())?;
        }
        changed.extend_from_slice(old.as_bytes())?;
        changed.push(b'\n').map_err(|_| AllocError)?;
    }
    Ok(changed)
}

/// Whether a schedule is replayed, and its trace judged correct.
fn is_right(alloc: Global, schedule: &[u8]) -> Result<bool, AllocError> {
    let replay = outcome_of(alloc, "replay", schedule, 0, 0)?;
    let audit = outcome_of(alloc, "audit", &replay.written, 0, 0)?;
    Ok(replay.status == Status::Ok && audit.status == Status::Ok)
}

/// Before each event of the schedule, each node stops in turn.
pub(crate) fn tally(alloc: Global, schedule: &str) -> Result<Tally, AllocError> {
    let mut tally = Tally::new();
    let mut in_events = false;
    for (place, line) in schedule.lines().enumerate() {
        if in_events && line != "end" {
            for stop in NODES {
                tally.case(is_right(alloc, &with_line(alloc, schedule, place, stop)?)?);
            }
        }
        in_events = in_events || line == "events";
    }
    Ok(tally)
}
