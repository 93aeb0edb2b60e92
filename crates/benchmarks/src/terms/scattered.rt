//! A payload as it was kept before its copies shared its parts: each name and each value lies in a place of its own. The
//! time of its copies beside those of `Payload` is what sharing gains.

use crate::terms::counted::Reads;
use anyhow::Error;
use std::alloc::Global;
use tcs_terms::Payload;

/// What was read, what is written, and the values.
#[derive(Drop)]
pub struct Scattered {
    read: Vec<Vec<u8>>,
    written: Vec<Vec<u8>>,
    values: Vec<Vec<u8>>,
}

/// A copy of each.
fn each(alloc: Global, items: &[Vec<u8>]) -> Result<Vec<Vec<u8>>, Error> {
    let mut copies = Vec::new(alloc);
    for item in items {
        copies.push(item.to_vec(alloc)?)?;
    }
    Ok(copies)
}

impl Scattered {
    /// The parts of a payload, each in a place of its own.
    pub fn of(alloc: Global, payload: &Payload) -> Result<Scattered, Error> {
        let mut scattered = Scattered {
            read: Vec::new(alloc),
            written: Vec::new(alloc),
            values: Vec::new(alloc),
        };
        for read in payload.reads() {
            scattered.read.push(read.name.bytes().to_vec(alloc)?)?;
        }
        for write in payload.writes() {
            scattered.written.push(write.name.bytes().to_vec(alloc)?)?;
            scattered.values.push(write.value.bytes().to_vec(alloc)?)?;
        }
        Ok(scattered)
    }

    pub fn copy(&self, alloc: Global) -> Result<Scattered, Error> {
        Ok(Scattered {
            read: each(alloc, &self.read)?,
            written: each(alloc, &self.written)?,
            values: each(alloc, &self.values)?,
        })
    }
}

impl Reads for Scattered {
    fn reads(&self) -> usize {
        self.read.len()
    }
}
