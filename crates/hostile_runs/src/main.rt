//! Hostile use, in tables: a source or a sink that fails in each of its calls in turn, a node that stops before each event,
//! and frames that are cut, lengthened or begin with the kind of no message. For each table it tells how many of its cases
//! came out as they should.
#![tactic(auto)]

mod commands;
mod frames;
mod reads;
mod stops;
mod traces;
mod writes;

use anyhow::Error;
use commands::Tally;
use std::fs;
use std::rt::Files;

fn main(rt: HostRuntime) -> Result<(), Error> {
    let reads = failing_reads(&rt)?;
    println!(rt; "each read of one_commit fails: {reads}")?;
    let writes = failing_writes(&rt)?;
    println!(rt; "each write of take_over_after_leader_stops fails: {writes}")?;
    let stops = stopping_nodes(&rt)?;
    println!(rt; "each node stops before each event: {stops}")?;
    let frames = forged_frames(&rt)?;
    println!(rt; "each frame is cut, lengthened, and of no kind: {frames}")?;
    Ok(())
}

fn failing_reads<R: Files + AllocGlobal>(rt: &R) -> Result<Tally, Error> {
    let schedule = fs::read(rt, "one_commit.sched")?;
    let trace = fs::read(rt, "one_commit.trace")?;
    Ok(reads::tally(rt.alloc(), &schedule, &trace)?)
}

fn failing_writes<R: Files + AllocGlobal>(rt: &R) -> Result<Tally, Error> {
    let schedule = fs::read(rt, "take_over_after_leader_stops.sched")?;
    let trace = fs::read(rt, "take_over_after_leader_stops.trace")?;
    Ok(writes::tally(rt.alloc(), &schedule, &trace)?)
}

fn stopping_nodes<R: Files + AllocGlobal>(rt: &R) -> Result<Tally, Error> {
    let schedule = fs::read(rt, "take_over_after_leader_stops.sched")?;
    Ok(stops::tally(rt.alloc(), str::from_utf8(&schedule)?)?)
}

/// The frames of a run of one commit, and that of a state that is handed over.
fn forged_frames<R: Files + AllocGlobal>(rt: &R) -> Result<Tally, Error> {
    let commit = fs::read(rt, "one_commit.trace")?;
    let change = fs::read(rt, "view_changes_during_a_case.trace")?;
    let mut tally = Tally::new();
    frames::count(rt.alloc(), str::from_utf8(&commit)?, "", &mut tally)?;
    frames::count(
        rt.alloc(),
        str::from_utf8(&change)?,
        "NEW_STATE",
        &mut tally,
    )?;
    Ok(tally)
}
