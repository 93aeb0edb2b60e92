//! What the transactions of the log read and write, and those that are voted on.
ghost use Rattle.std.specs.Prelude.{◌<◌};

use anyhow::Error;
use std::alloc::Global;
use tcs_terms::{Name, Payload, ReadPart, Value, WritePart};

/// The objects that each transaction reads and writes.
const OBJECTS_EACH: u32 = 4;

/// The groups of objects: each transaction is about one of them.
pub fn groups(objects: u32) -> u32
    ensures { 0 < result }
{
    (objects / OBJECTS_EACH).max(1)
}

/// The payload of a transaction that reads and writes four objects of so many, which it saw at the version `seen`. Its
/// own version is the next. Those of successive numbers go through all objects in turn.
pub fn payload(alloc: Global, number: u32, objects: u32, seen: u32) -> Result<Payload, Error> {
    let group = number % groups(objects);
    let mut reads = Vec::new(alloc);
    let mut writes = Vec::new(alloc);
    for i in 0..OBJECTS_EACH {
        let version = u64::from(seen);
        reads.push(ReadPart {
            name: name(alloc, group, i)?,
            version,
        })?;
        let value = Value::build(alloc, b"")?;
        writes.push(WritePart {
            name: name(alloc, group, i)?,
            value,
        })?;
    }
    Ok(Payload::build(reads, writes, u64::from(seen) + 1)?)
}

fn name(alloc: Global, group: u32, i: u32) -> Result<Name, Error> {
    let text = format!(in alloc; "object_{group}_{i}")?;
    Ok(Name::build(alloc, text.as_bytes())?)
}
