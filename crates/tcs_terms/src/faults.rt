//! Why a builder refuses, and the want of memory of those that need some.

ghost use Rattle.std.specs.Prelude.{◌≡◌};

use std::alloc::{AllocError, AllocFailed};
use thiserror::Error;

/// Why bytes are no name.
#[derive(Clone, Copy, Debug, PartialEq, Eq, Error)]
pub enum NameFault {
    /// The place, from 0, of the first byte outside the alphabet; or the length, where it is 0 or above 32.
    #[error("no name: byte {0}")]
    Bad(usize),
    #[error("out of memory")]
    OutOfMemory,
}

/// Why bytes are no value.
#[derive(Clone, Copy, Debug, PartialEq, Eq, Error)]
pub enum ValueFault {
    /// The length, where it is above 64.
    #[error("a value of {0} bytes is too long")]
    TooLong(usize),
    #[error("out of memory")]
    OutOfMemory,
}

/// Why rows are not those of a log.
#[derive(Clone, Copy, Debug, PartialEq, Eq, Error)]
pub enum RowsFault {
    /// The first place, from 0, whose slot does not ascend or is out of range, or whose transaction stood before.
    #[error("row {0} may not stand there")]
    Bad(usize),
    #[error("out of memory")]
    OutOfMemory,
}

/// Why reads, ranges and writes are no payload. Places count through from 1: the reads, the ranges, the writes.
#[derive(Clone, Copy, Debug, PartialEq, Eq, Error)]
pub enum BadPayload {
    /// Nothing is read.
    #[error("nothing is read")]
    Empty,
    /// More than 16 reads, 3 ranges or 16 writes.
    #[error("too many reads, ranges or writes")]
    TooMany,
    /// 0: the commit version is 0. Otherwise the read or range of that place was seen at a version that is not
    /// below the commit version.
    #[error("part {0}: the version is not below the commit version")]
    Version(u8),
    /// The name of that place is not above the one before of its kind; or the range is empty or begins before the
    /// end of the one before.
    #[error("part {0} is out of order")]
    Order(u8),
    /// The write of that place is of an object that is not read by name.
    #[error("part {0} is a write of what is not read")]
    Unread(u8),
    #[error("out of memory")]
    OutOfMemory,
}

/// The list has no shard, or more than 16, or leaves 1 to 16, or does not strictly ascend.
#[derive(Clone, Copy, Debug, PartialEq, Eq, Error)]
#[error("no set of shards")]
pub struct BadShards;

/// Why numbers are no configuration.
#[derive(Clone, Copy, Debug, PartialEq, Eq, Error)]
pub enum BadConfig {
    /// There are no members, or more than 7, or they do not ascend within 1 to 64.
    #[error("the members of a configuration ascend within 1 to 64, at most 7 of them")]
    Members,
    /// The leader is no member.
    #[error("the leader is no member")]
    Leader,
    /// The shard, the epoch or the proposer is out of range.
    #[error("a number of the configuration is out of range")]
    Number,
}

/// Why what a run is to start from is no setup.
#[derive(Clone, Copy, Debug, PartialEq, Eq, Error)]
pub enum BadSetup {
    /// The version is neither 1 nor 2.
    #[error("the version is neither 1 nor 2")]
    Version,
    /// The number of shards is outside 1 to 16.
    #[error("the number of shards is outside 1 to 16")]
    Shards,
    /// There are no nodes, or more than 64, or one that is in none of the shards.
    #[error("nodes: 1 to 64, each in one of the shards")]
    Nodes,
    /// There is not one configuration for each shard, in order, of epoch 1, proposed by nobody, with members that
    /// are nodes of the shard.
    #[error("configurations: a first one for each shard, in order")]
    Configs,
}

impl From<AllocError> for NameFault {
    ghost use Rattle.tcs_terms.specs.declared.faults.NameFault.TheVariants.{OutOfMemory};

    ghost from_gives = { λ _ e. e ≡ OutOfMemory };

    fn from(_e: AllocError) -> NameFault {
        NameFault::OutOfMemory
    }
}

impl From<AllocError> for ValueFault {
    ghost use Rattle.tcs_terms.specs.declared.faults.ValueFault.TheVariants.{OutOfMemory};

    ghost from_gives = { λ _ e. e ≡ OutOfMemory };

    fn from(_e: AllocError) -> ValueFault {
        ValueFault::OutOfMemory
    }
}

impl From<AllocError> for RowsFault {
    ghost use Rattle.tcs_terms.specs.declared.faults.RowsFault.TheVariants.{OutOfMemory};

    ghost from_gives = { λ _ e. e ≡ OutOfMemory };

    fn from(_e: AllocError) -> RowsFault {
        RowsFault::OutOfMemory
    }
}

impl<T: Drop> From<AllocFailed<T>> for RowsFault {
    ghost use Rattle.tcs_terms.specs.declared.faults.RowsFault.TheVariants.{OutOfMemory};

    ghost from_gives = { λ _ e. e ≡ OutOfMemory };

    fn from(_e: AllocFailed<T>) -> RowsFault {
        RowsFault::OutOfMemory
    }
}
