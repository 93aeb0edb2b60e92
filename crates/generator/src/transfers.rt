//! How far a transfer is.
ghost use Rattle.std.specs.Prelude.{◌≡◌, ℕ, List};
ghost use Rattle.generator.specs.Courses.{is_collecting, with_reading, with_notes};

use crate::accounts::Reading;
use std::alloc::Global;
use tcs_terms::{Note, OutOfMemory, Value};

/// How far the transfer is that is being collected.
#[derive(Debug, Drop)]
pub enum Transfer {
    /// There is none.
    Idle,
    /// Its accounts are known, and the first is to be read.
    Begun { from: u8, to: u8 },
    /// The first was read, and the second is to be read.
    Half { from: Reading, to: u8 },
    /// Both were read.
    Whole { from: Reading, to: Reading },
}

impl Transfer {
    /// Whether one is being collected.
    pub(crate) fn is_collecting(&self) -> bool
        ensures { result ≡ is_collecting self.now }
    {
        !matches!(self, Transfer::Idle)
    }

    /// The account that was to be read told this.
    pub(crate) fn with_reading(self, version: u64, value: Value) -> Transfer
        ensures { result ≡ with_reading self version value }
    {
        match self {
            Transfer::Idle => Transfer::Idle,
            Transfer::Begun { from, to } => Transfer::Half {
                from: Reading {
                    account: from,
                    version,
                    value,
                },
                to,
            },
            Transfer::Half { from, to } => Transfer::Whole {
                from,
                to: Reading {
                    account: to,
                    version,
                    value,
                },
            },
            Transfer::Whole { .. } => Transfer::Idle,
        }
    }

    /// The notes of the reading tell what was read.
    pub(crate) fn with_notes(self, notes: &[Note]) -> Transfer
        ensures { result ≡ with_notes self notes.now }
    {
        match notes {
            [Note::ReadValue { version, value, .. }, ..] => {
                self.with_reading(*version, Value::of(value.bytes()))
            }
            _ => Transfer::Idle,
        }
    }
}
