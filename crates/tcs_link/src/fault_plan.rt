//! Which calls of `attach` and `poll` fail.
ghost use Rattle.std.specs.Prelude.{◌≡◌, ◌≤◌, ◌==◌};
ghost use Rattle.std.specs.List.{list_any};
ghost use Rattle.tcs_io.specs.Faults.{last_u64, one_more};
ghost use Rattle.tcs_io.specs.Plan.{Plan, called, fails_next};
ghost use Rattle.tcs_link.specs.Network.{fails_attach};

use std::marker::Model;

/// Lists the polls that fail by their numbers, from 1; the number 0 stands for `attach`. Counts the polls and the faults,
/// each in 64 bits and up to the last value.
#[derive(Debug, Drop)]
pub(crate) struct FaultPlan {
    fails: Vec<u32>,
    calls: u64,
    faults: u64,
}

impl Model for FaultPlan {
    ghost Value = { Plan };

    ghost view = { λ plan. record { fails = plan.fails.items; calls = plan.calls; faults = plan.faults } };
}

impl FaultPlan {
    pub(crate) fn new(fails: Vec<u32>) -> Self
        ensures { result ≡ record { fails = fails.items; calls = 0; faults = 0 } }
    {
        FaultPlan {
            fails,
            calls: 0,
            faults: 0,
        }
    }

    /// Whether `attach` fails.
    pub(crate) fn fails_attach(&self) -> bool
        ensures fails { result ≡ fails_attach self.now }
        ensures limit { self.now.faults ≤ last_u64 }
    {
        let _faults = self.faults;
        is_listed(&self.fails, 0)
    }

    /// Whether the next poll fails.
    pub(crate) fn fails_next(&self) -> bool
        ensures fails { result ≡ fails_next self.now }
        ensures limit { self.now.faults ≤ last_u64 }
    {
        let _faults = self.faults;
        is_listed(&self.fails, self.calls.saturating_add(1))
    }

    /// The next poll, which may fail.
    pub(crate) fn call(&mut self)
        ensures after { self.new ≡ called self.old }
        ensures count { self.old.faults ≤ self.new.faults }
        ensures limit { self.new.faults ≤ last_u64 }
    {
        let faults = self.faults;
        let fails = self.fails_next();
        self.calls = self.calls.saturating_add(1);
        if fails {
            self.faults = faults.saturating_add(1);
        }
    }

    /// A fault of `attach`.
    pub(crate) fn fault(&mut self)
        ensures after { self.new ≡ record self.old { faults = one_more self.old.faults } }
        ensures count { self.old.faults ≤ self.new.faults }
        ensures limit { self.new.faults ≤ last_u64 }
    {
        self.faults = self.faults.saturating_add(1);
    }

    /// How often `attach` and `poll` have failed.
    pub(crate) fn faults(&self) -> u64
        ensures faults { result ≡ self.now.faults }
        ensures limit { self.now.faults ≤ last_u64 }
    {
        self.faults
    }
}

fn is_listed(fails: &[u32], call: u64) -> bool
    ensures { result ≡ list_any (λ number. number == call) fails.now }
{
    fails.iter().any(|number| u64::from(*number) == call)
}
