//! Reads what ascends: shards and members.
ghost use Rattle.std.specs.Prelude.{◌≡◌, Ok};
ghost use Rattle.wire_frame.specs.declared.faults.FrameReason.TheVariants.{Range};
ghost use Rattle.wire_frame.specs.Reading.{Gives, byte_at, tested, each_at};
ghost use Rattle.wire_frame.specs.Parts.{is_up_to, next_at, ascending_at, shards_at, members_at};

use crate::faults::{FrameReason, ReadError};
use crate::numbers::{bad_at, byte_of, is_up_to};
use tcs_terms::limits::{MAX_MEMBERS, MAX_NODES, MAX_SHARDS};

/// A number from 1 to the most.
pub fn up_to(most: u8, bytes: &[u8]) -> Result<(u8, &[u8]), ReadError>
    ensures { Gives (λ x. (x.0, x.1.now)) result (tested Range (is_up_to most) byte_at bytes.now) }
{
    let (number, rest) = byte_of(bytes)?;
    if !is_up_to(most as u32, number as u32) {
        return Err(bad_at(FrameReason::Range, bytes));
    }
    Ok((number, rest))
}

#[tactic(auto, unfolding(crate::specs::Parts::next_at))]
fn next_of(most: u8, last: u8, bytes: &[u8]) -> Result<(u8, &[u8]), ReadError>
    ensures { Gives (λ x. (x.0, x.1.now)) result (next_at most last bytes.now) }
{
    let (number, rest) = up_to(most, bytes)?;
    if last >= number {
        return Err(bad_at(FrameReason::Order, bytes));
    }
    Ok((number, rest))
}

/// So many numbers, each of one byte, where they stand in the frame.
fn each_next(most: u8, count: u8, bytes: &[u8]) -> Result<(&[u8], &[u8]), ReadError>
    ensures { Gives (λ x. (x.0.now, x.1.now)) result (each_at (next_at most) (λ last n. n) count 0 bytes.now) }
{
    let mut last = 0;
    let mut rest = bytes;
    for _ in 0..count {
        let (number, after) = next_of(most, last, rest)?;
        last = number;
        rest = after;
    }
    Ok(bytes.split_at(count as usize))
}

/// The bounds of numbers that ascend: how many there are at most, and the greatest of them.
#[derive(Clone, Copy)]
struct Bounds {
    many: u8,
    most: u8,
}

#[tactic(auto, unfolding(crate::specs::Parts::ascending_at))]
fn ascending_of(bounds: Bounds, bytes: &[u8]) -> Result<(&[u8], &[u8]), ReadError>
    ensures { Gives (λ x. (x.0.now, x.1.now)) result (ascending_at bounds.many bounds.most bytes.now) }
{
    let (count, rest) = up_to(bounds.many, bytes)?;
    each_next(bounds.most, count, rest)
}

/// The numbers of a set of shards.
pub fn shard_numbers(bytes: &[u8]) -> Result<(&[u8], &[u8]), ReadError>
    ensures { Gives (λ x. (x.0.now, x.1.now)) result (shards_at bytes.now) }
{
    let bounds = Bounds {
        many: MAX_SHARDS,
        most: MAX_SHARDS,
    };
    ascending_of(bounds, bytes)
}

/// The members of a configuration.
pub fn member_numbers(bytes: &[u8]) -> Result<(&[u8], &[u8]), ReadError>
    ensures { Gives (λ x. (x.0.now, x.1.now)) result (members_at bytes.now) }
{
    let bounds = Bounds {
        many: MAX_MEMBERS as u8,
        most: MAX_NODES,
    };
    ascending_of(bounds, bytes)
}
