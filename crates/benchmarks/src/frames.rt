//! Times `decode` and `encode` on the frames that standard input has, one in hex on each line.

use anyhow::Error;
use std::alloc::Global;
use std::rt::Clock;
use std::time::Instant;
use tcs_terms::Message;
use wire_frame::{decode, encode};

/// Microseconds for this many times of decoding.
fn decoding(rt: &impl Clock, alloc: Global, frame: &[u8], rounds: u32) -> Result<u128, Error> {
    let start = Instant::now(rt)?;
    for _ in 0..rounds {
        let _message = decode(alloc, frame)?;
    }
    Ok(start.elapsed(rt)?.as_micros())
}

/// Microseconds for this many times of encoding.
fn encoding(rt: &impl Clock, alloc: Global, message: &Message, rounds: u32) -> Result<u128, Error> {
    let start = Instant::now(rt)?;
    for _ in 0..rounds {
        let _frame = encode(alloc, message)?;
    }
    Ok(start.elapsed(rt)?.as_micros())
}

fn report(
    rt: &(impl Print + Eprint + Clock),
    alloc: Global,
    text: &str,
    rounds: u32,
) -> Result<(), Error> {
    let frame = hex::decode(alloc, text)?;
    let message = decode(alloc, &frame)?;
    let decoded = decoding(rt, alloc, &frame, rounds)?;
    let encoded = encoding(rt, alloc, &message, rounds)?;
    println!(rt; "{} bytes, {rounds} rounds", frame.len())?;
    eprintln!(rt; "decode {decoded} us, encode {encoded} us")?;
    Ok(())
}

/// Does each so many times, on each frame.
pub fn run(rt: &HostRuntime, rounds: u32) -> Result<(), Error> {
    for line in rt.lines(rt.alloc()) {
        report(rt, rt.alloc(), line?.as_str(), rounds)?;
    }
    Ok(())
}
