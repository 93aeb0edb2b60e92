//! A worked run by two guards of votes: one that goes through the rows, and one that looks objects up.

use anyhow::Error;
use cert_commute::Commute;
use cert_serial::Serial;
use cert_snapshot::Snapshot;
use conflict_index::{CommuteIndex, SerialIndex, SnapshotIndex};
use schedule_text::{Got, LineItem, LineReader};
use std::alloc::Global;
use tcs_laws::{ScanGuard, VoteGuard};
use tcs_terms::{Event, OutOfMemory, Rule, Setup};
use thiserror::Error;
use world::{Happening, World};

#[derive(Clone, Copy, Debug, Error)]
#[error("an event that does not fit")]
struct Misfit;

/// A schedule, as far as its lines are in the grammar.
#[derive(Drop)]
struct Schedule {
    setup: Option<Setup>,
    events: Vec<Event>,
}

fn read(alloc: Global, text: &str) -> Schedule {
    let mut schedule = Schedule {
        setup: None,
        events: Vec::new(alloc),
    };
    let mut reader = LineReader::new(alloc);
    for line in text.lines() {
        match reader.take(Got::Whole, line.as_bytes()) {
            Ok(LineItem::Begun(setup)) => schedule.setup = Some(setup),
            Ok(LineItem::Event(event)) => {
                if schedule.events.push(event).is_err() {
                    break;
                }
            }
            Ok(_) => {}
            Err(_) => break,
        }
    }
    schedule
}

/// The same run, kept by two guards.
#[derive(Drop)]
struct Pair<A: VoteGuard, B: VoteGuard> {
    first: World<A>,
    second: World<B>,
}

fn begin<A: VoteGuard, B: VoteGuard>(
    alloc: Global,
    setup: &Setup,
) -> Result<Pair<A, B>, OutOfMemory> {
    Ok(Pair {
        first: World::new(alloc, setup.copy(alloc)?)?,
        second: World::new(alloc, setup.copy(alloc)?)?,
    })
}

fn step<G: VoteGuard>(world: &mut World<G>, event: Event) -> Result<Happening, Error> {
    if !world.takes(&event) {
        return Err(Error::from(Misfit));
    }
    Ok(world.step(event)?)
}

/// Whether both answer the event alike.
fn step_both<A: VoteGuard, B: VoteGuard>(
    alloc: Global,
    pair: &mut Pair<A, B>,
    event: Event,
) -> Result<bool, Error> {
    let again = event.copy(alloc)?;
    let one = step(&mut pair.first, event)?;
    let other = step(&mut pair.second, again)?;
    Ok(one == other)
}

fn step_all<A: VoteGuard, B: VoteGuard>(
    alloc: Global,
    pair: &mut Pair<A, B>,
    events: Vec<Event>,
) -> Result<bool, Error> {
    for event in events {
        if !step_both(alloc, pair, event)? {
            return Ok(false);
        }
    }
    Ok(true)
}

/// Whether both sent the same frames.
fn send_alike<A: VoteGuard, B: VoteGuard>(pair: &Pair<A, B>) -> bool {
    for number in 0..pair.first.messages() {
        if pair.first.frame(number + 1) != pair.second.frame(number + 1) {
            return false;
        }
    }
    pair.first.messages() == pair.second.messages()
}

/// Whether the runs by these two guards answer each event alike, and send the same frames.
fn are_alike<A: VoteGuard, B: VoteGuard>(
    alloc: Global,
    setup: &Setup,
    events: Vec<Event>,
) -> Result<bool, Error> {
    let mut pair = begin::<A, B>(alloc, setup)?;
    Ok(step_all(alloc, &mut pair, events)? && send_alike(&pair))
}

/// Whether a setup has the same run over these events by scan and by look-up.
fn agree_on(alloc: Global, setup: &Setup, events: Vec<Event>) -> Result<bool, Error> {
    match setup.rule() {
        Rule::Serial => are_alike::<ScanGuard<Serial>, SerialIndex>(alloc, setup, events),
        Rule::Snapshot => are_alike::<ScanGuard<Snapshot>, SnapshotIndex>(alloc, setup, events),
        Rule::Commute => are_alike::<ScanGuard<Commute>, CommuteIndex>(alloc, setup, events),
    }
}

/// Whether a schedule has the same run by scan and by look-up; what stands before its header's end has none.
pub(crate) fn guards_agree(alloc: Global, text: &str) -> Result<bool, Error> {
    let Schedule { setup, events } = read(alloc, text);
    match setup {
        Some(setup) => agree_on(alloc, &setup, events),
        None => Ok(true),
    }
}
