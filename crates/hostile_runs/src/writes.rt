//! A sink that fails.

use crate::commands::{Outcome, Tally, outcome_of};
use std::alloc::{AllocError, Global};
use tcs_run::Status;

/// No replay here has more writes.
const WRITES: u32 = 1_000;

fn is_right(outcome: &Outcome, trace: &[u8]) -> bool {
    outcome.status == Status::WriteFault && trace.starts_with(&outcome.written)
}

/// Each write of a replay fails in turn, up to the number that no write has.
pub(crate) fn tally(alloc: Global, schedule: &[u8], trace: &[u8]) -> Result<Tally, AllocError> {
    let mut tally = Tally::new();
    for write in 1..WRITES {
        let outcome = outcome_of(alloc, "replay", schedule, 0, write)?;
        if outcome.status == Status::Ok {
            break;
        }
        tally.case(is_right(&outcome, trace));
    }
    Ok(tally)
}
