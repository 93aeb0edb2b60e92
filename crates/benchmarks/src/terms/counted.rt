//! Payloads whose reads are counted. A compiler leaves out what is made and let go at once; so they are kept for a while.

use anyhow::Error;
use std::alloc::Global;
use tcs_terms::Payload;

/// What has reads that can be counted.
pub trait Reads: Drop {
    fn reads(&self) -> usize;
}

impl Reads for Payload {
    fn reads(&self) -> usize {
        Payload::reads(self).len()
    }
}

/// So many payloads are kept before their reads are counted and they are let go.
const KEPT: usize = 256;

/// Payloads, and how many reads those had that were let go.
#[derive(Drop)]
pub struct Counted<T: Reads> {
    kept: Vec<T>,
    reads: u64,
}

impl<T: Reads> Counted<T> {
    pub fn new(alloc: Global) -> Counted<T> {
        Counted {
            kept: Vec::new(alloc),
            reads: 0,
        }
    }

    /// Takes one more.
    pub fn keep(&mut self, payload: T) -> Result<(), Error> {
        if self.kept.len() >= KEPT {
            self.reads = self.reads_in_all();
            self.kept.clear();
        }
        self.kept.push(payload)?;
        Ok(())
    }

    /// How many reads all of them have.
    pub fn reads_in_all(&self) -> u64 {
        let mut reads = self.reads;
        for payload in &self.kept {
            reads = reads.wrapping_add(payload.reads() as u64);
        }
        reads
    }
}
