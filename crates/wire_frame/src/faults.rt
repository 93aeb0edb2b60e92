//! Why a frame is refused.
ghost use Rattle.std.specs.Prelude.{◌≡◌};

use std::alloc::{AllocError, AllocFailed};
use tcs_terms::OutOfMemory;
use thiserror::Error;

/// What is wrong at the first place where a frame spells no message.
#[derive(Clone, Copy, Debug, PartialEq, Eq, Error)]
pub enum FrameReason {
    /// The frame ends before a part is whole.
    #[error("short")]
    Short,
    /// The first byte is the kind of no message.
    #[error("kind")]
    Kind,
    /// A number or a byte is outside its range, or a leader is not among the members.
    #[error("range")]
    Range,
    /// A name, shard, member, range or slot does not ascend, or a row's transaction stood in an earlier row.
    #[error("order")]
    Order,
    /// A written object is not read.
    #[error("unread")]
    Unread,
    /// Bytes stand after the message.
    #[error("trailing")]
    Trailing,
}

/// Why a frame gives no message.
#[derive(Clone, Copy, Debug, PartialEq, Eq, Error)]
pub enum DecodeFault {
    /// The frame spells no message: the reason and the place, counted from 0, of the first fault from the left.
    #[error("{reason} at {place}")]
    Bad { reason: FrameReason, place: usize },
    #[error("out of memory")]
    OutOfMemory,
}

/// A fault, and how many bytes are left from its place on.
#[derive(Clone, Copy, Debug, PartialEq, Eq)]
pub struct Fault {
    pub reason: FrameReason,
    pub left: usize,
}

/// Why a part is not read.
#[derive(Debug, Drop)]
pub enum ReadError {
    Memory,
    Bad(Fault),
}

impl From<AllocError> for ReadError {
    ghost use Rattle.wire_frame.specs.declared.faults.ReadError.TheVariants.{Memory};

    ghost from_gives = { λ _ e. e ≡ Memory };

    fn from(_e: AllocError) -> ReadError {
        ReadError::Memory
    }
}

impl<T: Drop> From<AllocFailed<T>> for ReadError {
    ghost use Rattle.wire_frame.specs.declared.faults.ReadError.TheVariants.{Memory};

    ghost from_gives = { λ _ e. e ≡ Memory };

    fn from(_e: AllocFailed<T>) -> ReadError {
        ReadError::Memory
    }
}

impl From<OutOfMemory> for ReadError {
    ghost use Rattle.wire_frame.specs.declared.faults.ReadError.TheVariants.{Memory};

    ghost from_gives = { λ _ e. e ≡ Memory };

    fn from(_e: OutOfMemory) -> ReadError {
        ReadError::Memory
    }
}
