//! The numbers of a generated schedule.
ghost use Rattle.std.specs.Prelude.{◌≡◌};
ghost use Rattle.tcs_run.specs.Generations.{generation_in};

use std::marker::Model;
use text_words::read_number;

/// A schedule has at least so many events.
const LEAST: u64 = 30;

/// And at most so many.
const MOST: u64 = 50_000;

/// Which generated schedule: its seed, and how many events it has, 30 to 50,000.
#[derive(Clone, Copy, Debug, PartialEq, Eq)]
pub struct Generation {
    pub(crate) seed: u64,
    pub(crate) count: u32,
}

impl Model for Generation {
    ghost use Rattle.std.specs.Prelude.{◌≤◌};
    ghost use Rattle.tcs_run.specs.Generations.{Seeded};

    ghost Value = { Seeded };

    ghost view = { λ g. record { seed = g.seed; count = g.count } };

    ghost inverse = { λ g. record { seed = g.seed; count = g.count } };

    ghost invariant = { λ g. (30 ≤ g.count) × (g.count ≤ 50000) };
}

impl Generation {
    /// That which two words name: decimal numbers without sign or leading zeros.
    pub(crate) fn named(seed: &[u8], count: &[u8]) -> Option<Generation>
        ensures { result ≡ generation_in seed.now count.now }
    {
        let seed = read_number(seed)?;
        let count = read_number(count)?;
        if LEAST <= count && count <= MOST {
            let count = count as u32;
            Some(Generation { seed, count })
        } else {
            None
        }
    }
}
