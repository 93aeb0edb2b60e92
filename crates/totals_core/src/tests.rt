//! Schedules and what their counters are worth. The first is a worked run of the papers; what the second writes is told
//! by the peer program in plain Rust.

use crate::totals;
use replay_core::ReplayStop;
use std::process::Abort;
use std::test::Fail;
use tcs_io::{MemSink, MemSource};
use text_words::Reason;

/// Two additions commit, of which the node has one marked, and a transaction that reads the counter aborts.
const COMMUTING: &str = concat!(
    "tcs 1\n",
    "certifier commute\n",
    "shards 1\n",
    "node 1 1\n",
    "config 1 1 1\n",
    "events\n",
    "certify 1 v 1 r n_x 0 w n_x 0000000000000005\n",
    "certify 1 v 1 r n_x 0 w n_x 0000000000000007\n",
    "deliver 1\n",
    "deliver 2\n",
    "deliver 3\n",
    "deliver 4\n",
    "deliver 5\n",
    "certify 1 v 1 r n_x 0\n",
    "deliver 9\n",
    "deliver 10\n",
    "end\n",
);

/// Two additions of the greatest amount, one of seven bytes, and one of a transaction that aborts.
const AT_THE_LIMIT: &str = concat!(
    "tcs 1\n",
    "certifier commute\n",
    "shards 1\n",
    "node 1 1\n",
    "config 1 1 1\n",
    "events\n",
    "certify 1 v 1 r a 0 r n_x 0 w n_x 000000ffffffffff\n",
    "certify 1 v 1 r n_x 0 r n_y 0 w n_x 000000ffffffffff w n_y 00000000000007\n",
    "certify 1 v 1 r a 0 w a 05\n",
    "certify 1 v 1 r a 0 r n_z 0 w a 05 w n_z 0000000000000009\n",
    "deliver 1\n",
    "deliver 2\n",
    "deliver 3\n",
    "deliver 4\n",
    "deliver 5\n",
    "deliver 6\n",
    "deliver 7\n",
    "deliver 8\n",
    "deliver 9\n",
    "deliver 11\n",
    "end\n",
);

/// The second line names another rule.
const SERIAL: &str = "tcs 1\ncertifier serial\nshards 1\nnode 1 1\nconfig 1 1 1\nevents\nend\n";

/// No transaction commits.
const NO_EVENTS: &str = "tcs 1\ncertifier commute\nshards 1\nnode 1 1\nconfig 1 1 1\nevents\nend\n";

/// The seventh line is no event.
const BAD_EVENT: &str =
    "tcs 1\ncertifier commute\nshards 1\nnode 1 1\nconfig 1 1 1\nevents\nadd 1\nend\n";

#[test]
fn the_counters_of_a_run_are_told(rt: HostRuntime) -> Result<(), Fail> {
    let table = [
        (COMMUTING, Ok(()), "total n_x 12 5\nend 1\n"),
        (
            AT_THE_LIMIT,
            Ok(()),
            "total n_x 2199023255550 2199023255550\ntotal n_y 0 0\nend 2\n",
        ),
        (NO_EVENTS, Ok(()), "end 0\n"),
        (SERIAL, Err(bad(2)), ""),
        (BAD_EVENT, Err(bad(7)), ""),
    ];
    for (text, answer, written) in table {
        let bytes = text.as_bytes().to_vec(rt.alloc())?;
        let mut input = MemSource::new(bytes, 7, Vec::new(rt.alloc()));
        let mut output = MemSink::new(rt.alloc(), Vec::new(rt.alloc()));
        let told = totals(rt.alloc(), &mut input, &mut output);
        assert!(rt; told == answer);
        assert!(rt; output.bytes() == written.as_bytes());
    }
    Ok(())
}

fn bad(line: u32) -> ReplayStop {
    ReplayStop::Bad {
        line,
        reason: Reason::Word,
    }
}

#[test]
fn a_failed_write_is_told(rt: HostRuntime) -> Result<(), Fail> {
    let bytes = COMMUTING.as_bytes().to_vec(rt.alloc())?;
    let mut input = MemSource::new(bytes, 4096, Vec::new(rt.alloc()));
    let mut output = MemSink::new(rt.alloc(), [1u32].to_vec(rt.alloc())?);
    let told = totals(rt.alloc(), &mut input, &mut output);
    assert!(rt; told == Err(ReplayStop::WriteFault));
    assert!(rt; output.bytes().is_empty());
    Ok(())
}
