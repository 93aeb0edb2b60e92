//! Times votes over a log of committed rows, by scan and by index, for each rule.

mod full_log;
mod transactions;
mod voting;

use crate::votes::voting::{Votes, Workload, timed_votes};
use crate::words::Words;
use anyhow::Error;
use conflict_index::{CommuteIndex, SerialIndex, SnapshotIndex};
use std::alloc::Global;
use std::rt::Clock;
use tcs_laws::{ScanGuard, VoteGuard};

/// What the words say: how many objects there are in all, how many rows, and how many votes.
pub fn workload(words: &Words) -> Result<Workload, Error> {
    Ok(Workload {
        objects: words.number(0, 4),
        rows: u16::try_from(words.number(1, 64))?,
        votes: words.number(2, 1),
    })
}

/// The votes of a workload by scan, and by an index.
fn both<G: VoteGuard>(
    rt: &impl Clock,
    alloc: Global,
    work: Workload,
) -> Result<(Votes, Votes), Error> {
    let scan = timed_votes::<ScanGuard<G::Rule>>(rt, alloc, work)?;
    let index = timed_votes::<G>(rt, alloc, work)?;
    Ok((scan, index))
}

/// Those of each rule.
pub fn run(rt: &HostRuntime, work: Workload) -> Result<(), Error> {
    let alloc = rt.alloc();
    let serial = both::<SerialIndex>(rt, alloc, work)?;
    let snapshot = both::<SnapshotIndex>(rt, alloc, work)?;
    let commute = both::<CommuteIndex>(rt, alloc, work)?;
    for (rule, (scan, index)) in [
        ("serial", serial),
        ("snapshot", snapshot),
        ("commute", commute),
    ] {
        println!(rt;
            "{rule}: {} commit by scan, {} by index; of those that saw too little {} and {}",
            scan.to_commit.commits,
            index.to_commit.commits,
            scan.that_clash.commits,
            index.that_clash.commits
        )?;
        eprintln!(rt;
            "{rule} commit {} {} clash {} {}",
            scan.to_commit.micros,
            index.to_commit.micros,
            scan.that_clash.micros,
            index.that_clash.micros
        )?;
    }
    Ok(())
}
