//! Puts the worked runs through the top call: each schedule of the folder that it runs in, by a source that gives at most
//! 4,096 bytes a read, and where a line of it is bad also by sources that give 1 and 7. What is written is compared with the
//! trace beside the schedule, byte for byte, and that is read as a trace, which has an end where the replay was whole. Each
//! run is also stepped twice, with votes by scan and by look-up. Then the other commands do their work, and what they write is
//! compared with the file that says what it has to be.
#![tactic(auto)]

mod commands;
mod guards;
mod names;
mod reading_back;
mod replaying;

use anyhow::Error;
use commands::{COMMANDS, carry_out};
use guards::guards_agree;
use names::WORKED_RUNS;
use reading_back::ends;
use replaying::{Ending, ending_of, replay_of};
use std::fs;
use std::rt::Files;
use tcs_run::Status;

fn main(rt: HostRuntime) -> Result<(), Error> {
    for name in WORKED_RUNS {
        let ending = worked_run(&rt, name)?;
        println!(rt; "{name}: {ending}")?;
    }
    let alike = alike_by_both_guards(&rt)?;
    println!(rt;
        "{alike} of {} runs are the same by scan and by look-up",
        WORKED_RUNS.len()
    )?;
    let left = left_at_the_bad_line(&rt)?;
    println!(rt; "bad_line_order, byte by byte: {left} bytes are not read")?;
    for case in COMMANDS {
        let done = carry_out(&rt, case)?;
        println!(rt; "{done}")?;
    }
    Ok(())
}

/// How the run of this name ends.
fn worked_run<R: Files + AllocGlobal>(rt: &R, name: &str) -> Result<Ending, Error> {
    let schedule = fs::read(rt, format!(in rt.alloc(); "{name}.sched")?)?;
    let trace = fs::read(rt, format!(in rt.alloc(); "{name}.trace")?)?;
    let replay = replay_of(rt.alloc(), &schedule, 4096)?;
    let is_whole = replay.status == Status::Ok;
    let mut replays = vec![in rt.alloc(); replay]?;
    if !is_whole {
        for most in [1, 7] {
            replays.push(replay_of(rt.alloc(), &schedule, most)?)?;
        }
    }
    let read = ends(rt.alloc(), str::from_utf8(&trace)?)? == is_whole;
    Ok(ending_of(&replays, &trace, read))
}

/// How many of the runs are the same whichever way votes are found.
fn alike_by_both_guards<R: Files + AllocGlobal>(rt: &R) -> Result<usize, Error> {
    let mut alike: usize = 0;
    for name in WORKED_RUNS {
        let schedule = fs::read(rt, format!(in rt.alloc(); "{name}.sched")?)?;
        if guards_agree(rt.alloc(), str::from_utf8(&schedule)?)? {
            alike = alike.saturating_add(1);
        }
    }
    Ok(alike)
}

/// How many bytes a source that gives one byte a read has left when the fifth line is refused: all that stand behind it.
fn left_at_the_bad_line<R: Files + AllocGlobal>(rt: &R) -> Result<usize, Error> {
    let schedule = fs::read(rt, "bad_line_order.sched")?;
    let replay = replay_of(rt.alloc(), &schedule, 1)?;
    Ok(replay.left)
}
