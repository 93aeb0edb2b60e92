//! What a step of a world answers.

use std::alloc::AllocError;
use tcs_terms::{NodeId, OutOfMemory, Result1};
use thiserror::Error;

/// What became of an event: its result, how many notes it added to the history, and how many messages it sent.
#[derive(Clone, Copy, Debug, PartialEq, Eq)]
pub struct Happening {
    pub result: Result1,
    pub notes: usize,
    pub sent: usize,
}

/// Why an event was not taken.
#[derive(Clone, Copy, Debug, PartialEq, Eq, Error)]
pub enum Stop {
    /// With it the frames of the run would have this many bytes, which is above the limit.
    #[error("the messages would have {0} bytes")]
    SoupFull(u64),
    #[error("out of memory")]
    OutOfMemory,
}

/// A message that was sent, as its frame. Node 0 is the configuration service.
#[derive(Clone, Copy, Debug)]
pub struct Posted<'a> {
    pub from: NodeId,
    pub to: NodeId,
    pub frame: &'a [u8],
}

impl From<OutOfMemory> for Stop {
    ghost use Rattle.std.specs.Prelude.{◌≡◌};
    ghost use Rattle.world.specs.declared.happenings.Stop.TheVariants as stops;

    ghost from_gives = { λ _ stop. stop ≡ stops.OutOfMemory };

    fn from(_: OutOfMemory) -> Stop {
        Stop::OutOfMemory
    }
}

impl From<AllocError> for Stop {
    ghost use Rattle.std.specs.Prelude.{◌≡◌};
    ghost use Rattle.world.specs.declared.happenings.Stop.TheVariants as stops;

    ghost from_gives = { λ _ stop. stop ≡ stops.OutOfMemory };

    fn from(_: AllocError) -> Stop {
        Stop::OutOfMemory
    }
}
