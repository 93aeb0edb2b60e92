//! Times the steps of the run of a schedule from standard input, by an index of the serial rule: their time so far, at
//! 100,000 and at 1,000,000 events.

mod misfits;
mod script;
mod stepping;

use crate::steps::script::Script;
use crate::steps::stepping::step_all;
use anyhow::Error;
use conflict_index::SerialIndex;
use std::time::Instant;
use tcs_io::{Source, StdSource};
use world::World;

/// So many events are read, and then stepped, at once.
const BLOCK: usize = 1_000;

/// No schedule has more blocks.
const BLOCKS: u32 = 1_001;

/// Tells the times, and what the run came to.
pub fn run(rt: &HostRuntime) -> Result<(), Error> {
    let mut script = Script::begin(rt.alloc(), StdSource::new(rt.alloc(), rt.reader())?)?;
    let mut world = World::<SerialIndex>::new(rt.alloc(), script.setup()?)?;
    step_blocks(rt, &mut script, &mut world)?;
    tell_run(rt, &world)
}

/// Steps all events, block by block, and tells the time of the steps.
fn step_blocks<S: Source + Drop>(
    rt: &HostRuntime,
    script: &mut Script<S>,
    world: &mut World<SerialIndex>,
) -> Result<(), Error> {
    let mut micros = 0u128;
    for _ in 0..BLOCKS {
        let before = world.events();
        micros = micros.saturating_add(step_block(rt, script, world)?);
        if world.events() > before {
            tell_time(rt, world.events(), micros)?;
        }
    }
    Ok(())
}

/// Reads a block of events and steps it, and gives the microseconds of the steps.
fn step_block<S: Source + Drop>(
    rt: &HostRuntime,
    script: &mut Script<S>,
    world: &mut World<SerialIndex>,
) -> Result<u128, Error> {
    let events = script.events(rt.alloc(), BLOCK)?;
    let start = Instant::now(rt)?;
    step_all(world, events)?;
    Ok(start.elapsed(rt)?.as_micros())
}

fn tell_time(rt: &HostRuntime, events: u32, micros: u128) -> Result<(), Error> {
    if events == 100_000 || events == 1_000_000 {
        eprintln!(rt; "{events} events {micros} us")?;
    }
    Ok(())
}

fn tell_run(rt: &HostRuntime, world: &World<SerialIndex>) -> Result<(), Error> {
    let commits = world.order().len();
    println!(rt;
        "{} events, {} messages, {commits} commits",
        world.events(),
        world.messages()
    )?;
    Ok(())
}
