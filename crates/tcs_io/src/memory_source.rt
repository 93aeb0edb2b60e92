//! A source in memory that fails where it is told to.
ghost use Rattle.std.specs.Prelude.{◌≡◌, ◌<◌, ◌≤◌, [], Some, length, take, drop, min, is_err, IfOk, OnErr};
ghost use Rattle.tcs_io.specs.Faults.{last_u64};
ghost use Rattle.tcs_io.specs.Memory.{Supply};
ghost use Rattle.tcs_io.specs.Plan.{called, fails_next};

use crate::fault_plan::FaultPlan;
use crate::sure_source::SureSource;
use crate::{Failed, Source};
use std::marker::Model;

/// Gives these bytes, at most so many in each read, and fails the reads that it is told to.
#[derive(Debug, Drop)]
pub struct MemSource {
    rest: SureSource,
    most: usize,
    plan: FaultPlan,
}

impl Model for MemSource {
    ghost Value = { Supply };

    ghost view = { λ source. record { left = source.rest; most = source.most; plan = source.plan } };

    ghost invariant = { λ source. 1 ≤ source.most };
}

impl MemSource {
    /// A source of these bytes. A read gives at most `most` of them, which is at least 1. The reads whose numbers,
    /// from 1, are in `fails` fail: such a read takes no byte, and raises the count of faults.
    pub fn new(bytes: Vec<u8>, most: usize, fails: Vec<u32>) -> Self
        requires { 1 ≤ most }
        ensures { result ≡ record {
          left = bytes.items;
          most = most;
          plan = record { fails = fails.items; calls = 0; faults = 0 };
        } }
    {
        MemSource {
            rest: SureSource::new(bytes),
            most,
            plan: FaultPlan::new(fails),
        }
    }

    /// The bytes that are left.
    pub fn left(&self) -> &[u8]
        ensures { result.now ≡ self.now.left }
    {
        self.rest.left()
    }
}

impl Source for MemSource {
    ghost faults = { λ source. source.plan.faults };

    ghost left = { λ source. Some source.left };

    fn read(&mut self, buf: &mut [u8]) -> Result<usize, Failed>
        requires { 0 < length buf.old }

        // It fails exactly where it is told to.
        ensures fails { is_err result ≡ fails_next self.old.plan }
        ensures number { IfOk result (λ n. n ≡ min self.old.most (min (length self.old.left) (length buf.old))) }
        ensures given { IfOk result (λ n. take n buf.new ≡ take n self.old.left) }
        ensures after { IfOk result (λ n. self.new.left ≡ drop n self.old.left) }
        ensures kept { OnErr result (self.new.left ≡ self.old.left) }
        ensures plan { self.new.plan ≡ called self.old.plan }
        ensures most { self.new.most ≡ self.old.most }

        ensures end { IfOk result (λ n. n ≡ 0 → self.old.left ≡ []) }
        ensures count { self.old.plan.faults ≤ self.new.plan.faults }
        ensures limit { self.new.plan.faults ≤ last_u64 }
    {
        self.plan.call()?;
        let most = buf.len().min(self.most);
        self.rest.read(&mut buf[..most])
    }
}
