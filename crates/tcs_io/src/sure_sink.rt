//! A sink in memory that never fails.
ghost use Rattle.std.specs.Prelude.{◌≡◌, ℕ, ◌≤◌, List, [], ◌++◌, Some, length, IfOk, OnOk, OnErr, IfErr};
ghost use Rattle.tcs_io.specs.declared.writing.SinkStop.TheVariants.{OutOfMemory};

use crate::{Sink, SinkStop};
use std::alloc::Global;
use std::marker::Model;

/// Keeps the bytes that are written, and fails only for want of memory. Contracts see it as those bytes.
#[derive(Debug, Drop)]
pub struct SureSink {
    bytes: Vec<u8>,
}

impl Model for SureSink {
    ghost Value = { List ℕ };

    ghost view = { λ sink. sink.bytes.items };
}

impl SureSink {
    /// An empty sink.
    pub fn new(alloc: Global) -> Self
        ensures { result ≡ [] }
    {
        SureSink {
            bytes: Vec::new(alloc),
        }
    }

    /// The bytes that were taken.
    pub fn bytes(&self) -> &[u8]
        ensures { result.now ≡ self.now }
    {
        &self.bytes
    }
}

impl Sink for SureSink {
    ghost faults = { λ _. 0 };

    ghost held = { λ sink. Some sink };

    fn write(&mut self, piece: &[u8]) -> Result<usize, SinkStop>
        // It takes the whole piece, or there was no memory for it.
        ensures whole { IfOk result (λ n. n ≡ length piece.now) }
        ensures taken { OnOk result (self.new ≡ self.old ++ piece.now) }
        ensures memory { IfErr result (λ stop. stop ≡ SinkStop.OutOfMemory) }
        ensures kept { OnErr result (self.new ≡ self.old) }
    {
        self.bytes.extend_from_slice(piece)?;
        Ok(piece.len())
    }
}
