//! Times copies of payloads and their parts in a shard, of the smallest payload with a write and of the largest.

mod counted;
mod measuring;
mod payloads;
mod scattered;

use crate::terms::measuring::measure;
use anyhow::Error;

/// Does each so many times.
pub fn run(rt: &HostRuntime, rounds: u32) -> Result<(), Error> {
    let alloc = rt.alloc();
    for (name, payload) in [
        ("smallest", payloads::smallest(alloc)?),
        ("largest", payloads::largest(alloc)?),
    ] {
        let found = measure(rt, alloc, &payload, rounds)?;
        println!(rt;
            "{name}: {} reads copied, {} scattered, {} in one shard, {} in the first of two",
            found.copied, found.scattered, found.whole, found.halves
        )?;
        eprintln!(rt;
            "{name}: copies {} us, scattered {} us, in one shard {} us, in the first of two {} us",
            found.copying, found.scattering, found.sharing, found.splitting
        )?;
    }
    Ok(())
}
