//! A sink in memory that fails where it is told to.
ghost use Rattle.std.specs.Prelude.{◌≡◌, ◌≤◌, ◌++◌, [], Some, length, IsErrOf, IfOk, OnOk, OnErr, IsTrue, ◌↔◌};
ghost use Rattle.tcs_io.specs.Faults.{last_u64};
ghost use Rattle.tcs_io.specs.Memory.{Store};
ghost use Rattle.tcs_io.specs.Plan.{called, fails_next};

use crate::fault_plan::FaultPlan;
use crate::sure_sink::SureSink;
use crate::{Failed, Sink, SinkStop};
use std::alloc::Global;
use std::marker::Model;

/// Keeps the bytes that are written, and fails the writes that it is told to.
#[derive(Debug, Drop)]
pub struct MemSink {
    kept: SureSink,
    plan: FaultPlan,
}

impl Model for MemSink {
    ghost Value = { Store };

    ghost view = { λ sink. record { bytes = sink.kept; plan = sink.plan } };
}

impl MemSink {
    /// An empty sink. The writes whose numbers, from 1, are in `fails` fail: such a write takes no byte, and raises
    /// the count of faults.
    pub fn new(alloc: Global, fails: Vec<u32>) -> Self
        ensures { result ≡ record {
          bytes = [];
          plan = record { fails = fails.items; calls = 0; faults = 0 };
        } }
    {
        MemSink {
            kept: SureSink::new(alloc),
            plan: FaultPlan::new(fails),
        }
    }

    /// The bytes that were taken.
    pub fn bytes(&self) -> &[u8]
        ensures { result.now ≡ self.now.bytes }
    {
        self.kept.bytes()
    }
}

impl Sink for MemSink {
    ghost faults = { λ sink. sink.plan.faults };

    ghost held = { λ sink. Some sink.bytes };

    fn write(&mut self, piece: &[u8]) -> Result<usize, SinkStop>
        // It fails exactly where it is told to, and else takes the whole piece, unless there is no memory for it.
        ensures fails { IsErrOf result SinkStop.Failed ↔ IsTrue (fails_next self.old.plan) }
        ensures whole { IfOk result (λ n. n ≡ length piece.now) }
        ensures taken { OnOk result (self.new.bytes ≡ self.old.bytes ++ piece.now) }
        ensures kept { OnErr result (self.new.bytes ≡ self.old.bytes) }
        ensures plan { self.new.plan ≡ called self.old.plan }

        ensures count { self.old.plan.faults ≤ self.new.plan.faults }
        ensures limit { self.new.plan.faults ≤ last_u64 }
    {
        match self.plan.call() {
            Ok(()) => self.kept.write(piece),
            Err(Failed) => Err(SinkStop::Failed),
        }
    }
}
