//! How long votes take.

use crate::votes::full_log::fill;
use crate::votes::transactions::{groups, payload};
use anyhow::Error;
use std::alloc::Global;
use std::rt::Clock;
use std::time::Instant;
use tcs_laws::VoteGuard;
use tcs_terms::{Payload, Row, Slot, Vote};

/// How many different payloads are voted on in turn.
const PAYLOADS: u32 = 64;

/// Votes over a log of so many rows on so many objects.
#[derive(Clone, Copy, Debug)]
pub struct Workload {
    pub objects: u32,
    pub rows: Slot,
    pub votes: u32,
}

/// How many votes were to commit, and the microseconds that all took.
#[derive(Clone, Copy, Debug)]
pub struct Measured {
    pub commits: u32,
    pub micros: u128,
}

/// Votes on transactions that saw all rows, and on such as saw all but the last that wrote their objects.
#[derive(Clone, Copy, Debug)]
pub struct Votes {
    pub to_commit: Measured,
    pub that_clash: Measured,
}

/// The votes of a workload by a guard.
pub fn timed_votes<G: VoteGuard>(
    rt: &impl Clock,
    alloc: Global,
    work: Workload,
) -> Result<Votes, Error> {
    let mut rows = Vec::new(alloc);
    let mut guard = G::fresh(alloc);
    fill(alloc, &mut rows, &mut guard, work.rows, work.objects)?;
    let last = u32::from(work.rows);
    let current = payloads(alloc, work, last)?;
    let start = Instant::now(rt)?;
    let commits_of_current = commits(&guard, &rows, &current, work.votes);
    let to_commit = Measured {
        commits: commits_of_current,
        micros: start.elapsed(rt)?.as_micros(),
    };
    let stale = payloads(alloc, work, last.saturating_sub(groups(work.objects)))?;
    let start = Instant::now(rt)?;
    let commits_of_stale = commits(&guard, &rows, &stale, work.votes);
    let that_clash = Measured {
        commits: commits_of_stale,
        micros: start.elapsed(rt)?.as_micros(),
    };
    Ok(Votes {
        to_commit,
        that_clash,
    })
}

/// Payloads about the objects of the last rows, which saw the version `seen` of each.
fn payloads(alloc: Global, work: Workload, seen: u32) -> Result<Vec<Payload>, Error> {
    let last = u32::from(work.rows);
    let mut payloads = Vec::new(alloc);
    for before in 0..PAYLOADS {
        payloads.push(payload(alloc, last.saturating_sub(before), work.objects, seen)?)?;
    }
    Ok(payloads)
}

/// How many of so many votes are to commit, on each payload in turn.
fn commits<G: VoteGuard>(guard: &G, rows: &[Row], payloads: &[Payload], votes: u32) -> u32
    requires { G.StandsFor guard.now rows.now }
{
    let mut commits = 0u32;
    for new in payloads.iter().cycle().take(votes as usize) {
        if guard.vote(rows, new) == Vote::Commit {
            commits = commits.saturating_add(1);
        }
    }
    commits
}
