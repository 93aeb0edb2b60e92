//! How long copies and parts of payloads take.
ghost use Rattle.std.specs.Prelude.{◌≤◌};

use crate::terms::counted::Counted;
use crate::terms::scattered::Scattered;
use anyhow::Error;
use std::alloc::Global;
use std::rt::Clock;
use std::time::Instant;
use tcs_terms::Payload;

/// How many reads copies had in all, copies of scattered parts, parts of one shard, and parts in the first of two; and the
/// microseconds of each.
#[derive(Clone, Copy, Debug)]
pub struct Measured {
    pub copied: u64,
    pub scattered: u64,
    pub whole: u64,
    pub halves: u64,
    pub copying: u128,
    pub scattering: u128,
    pub sharing: u128,
    pub splitting: u128,
}

/// How many reads so many copies have in all.
fn copied(alloc: Global, payload: &Payload, rounds: u32) -> Result<u64, Error> {
    let mut copies = Counted::new(alloc);
    for _ in 0..rounds {
        copies.keep(payload.copy(alloc)?)?;
    }
    Ok(copies.reads_in_all())
}

/// How many reads so many copies of its scattered parts have in all.
fn scattered(alloc: Global, payload: &Scattered, rounds: u32) -> Result<u64, Error> {
    let mut copies = Counted::new(alloc);
    for _ in 0..rounds {
        copies.keep(payload.copy(alloc)?)?;
    }
    Ok(copies.reads_in_all())
}

/// How many reads so many parts in shard 1, of `n` shards, have in all.
fn restricted(alloc: Global, payload: &Payload, n: u8, rounds: u32) -> Result<u64, Error>
    requires some { 1 ≤ n }
    requires few { n ≤ 16 }
{
    let mut parts = Counted::new(alloc);
    for _ in 0..rounds {
        if let Some(part) = payload.restrict(alloc, 1, n)? {
            parts.keep(part)?;
        }
    }
    Ok(parts.reads_in_all())
}

/// So many copies and parts of a payload.
pub fn measure(
    rt: &impl Clock,
    alloc: Global,
    payload: &Payload,
    rounds: u32,
) -> Result<Measured, Error> {
    let start = Instant::now(rt)?;
    let copied = copied(alloc, payload, rounds)?;
    let copying = start.elapsed(rt)?.as_micros();
    let apart = Scattered::of(alloc, payload)?;
    let start = Instant::now(rt)?;
    let scattered = scattered(alloc, &apart, rounds)?;
    let scattering = start.elapsed(rt)?.as_micros();
    let start = Instant::now(rt)?;
    let whole = restricted(alloc, payload, 1, rounds)?;
    let sharing = start.elapsed(rt)?.as_micros();
    let start = Instant::now(rt)?;
    let halves = restricted(alloc, payload, 2, rounds)?;
    let splitting = start.elapsed(rt)?.as_micros();
    Ok(Measured {
        copied,
        scattered,
        whole,
        halves,
        copying,
        scattering,
        sharing,
        splitting,
    })
}
