//! Lines of a trace that are changed in one place.

use crate::tests::refused::{NOT_IN_ONE_COMMIT, NOT_IN_STATE_MOVED, ONE_COMMIT, STATE_MOVED};
use std::alloc::Global;
use std::process::Abort;
use std::test::Fail;
use trace_text::{TraceFault, TraceReader};

/// In place of the line of this number, from 1, another one is refused, and then the line itself is taken.
fn refuses(rt: &impl Abort, alloc: Global, text: &str, number: usize, other: &str) {
    let mut reader = TraceReader::new();
    let mut count: usize = 0;
    for line in text.lines() {
        count = count.saturating_add(1);
        if count == number {
            let answer = reader.take(alloc, other.as_bytes());
            assert!(rt; matches!(answer, Err(TraceFault::Bad)), "{other}");
        }
        assert!(rt; reader.take(alloc, line.as_bytes()).is_ok(), "{line}");
    }
    assert!(rt; number <= count, "{other}");
}

#[test]
fn refused_lines(rt: HostRuntime) -> Result<(), Fail> {
    for (number, other) in NOT_IN_ONE_COMMIT {
        refuses(&rt, rt.alloc(), ONE_COMMIT, *number, other);
    }
    for (number, other) in NOT_IN_STATE_MOVED {
        refuses(&rt, rt.alloc(), STATE_MOVED, *number, other);
    }
    Ok(())
}
