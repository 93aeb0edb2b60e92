//! Which calls of a source or a sink in memory fail.
ghost use Rattle.std.specs.Prelude.{◌≡◌, ◌≤◌, ◌==◌, is_err};
ghost use Rattle.std.specs.List.{list_any};
ghost use Rattle.tcs_io.specs.Faults.{last_u64};
ghost use Rattle.tcs_io.specs.Plan.{Plan, called, fails_next};

use crate::Failed;
use std::marker::Model;

/// Fails exactly the calls whose numbers, from 1, are listed. Counts the calls and the failures, each in 64 bits
/// and up to the last value.
#[derive(Debug, Drop)]
pub(crate) struct FaultPlan {
    fails: Vec<u32>,
    calls: u64,
    faults: u64,
}

impl Model for FaultPlan {
    ghost Value = { Plan };

    ghost view = { λ plan. record { fails = plan.fails.items; calls = plan.calls; faults = plan.faults } };
}

impl FaultPlan {
    pub(crate) fn new(fails: Vec<u32>) -> Self
        ensures { result ≡ record { fails = fails.items; calls = 0; faults = 0 } }
    {
        FaultPlan {
            fails,
            calls: 0,
            faults: 0,
        }
    }

    /// The next call.
    pub(crate) fn call(&mut self) -> Result<(), Failed>
        ensures fails { is_err result ≡ fails_next self.old }
        ensures after { self.new ≡ called self.old }
        ensures count { self.old.faults ≤ self.new.faults }
        ensures limit { self.new.faults ≤ last_u64 }
    {
        let faults = self.faults;
        self.calls = self.calls.saturating_add(1);
        if is_listed(&self.fails, self.calls) {
            self.faults = faults.saturating_add(1);
            return Err(Failed);
        }
        Ok(())
    }
}

fn is_listed(fails: &[u32], call: u64) -> bool
    ensures { result ≡ list_any (λ number. number == call) fails.now }
{
    fails.iter().any(|number| u64::from(*number) == call)
}
