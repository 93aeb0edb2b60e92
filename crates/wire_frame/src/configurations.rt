//! Reads sets of shards and configurations.
ghost use Rattle.std.specs.Prelude.{◌≡◌, nat_le};
ghost use Rattle.tcs_terms.specs.declared.limits.TheConstants.{MAX_NODES};
ghost use Rattle.tcs_terms.specs.Places.{is_among};
ghost use Rattle.wire_frame.specs.declared.faults.FrameReason.TheVariants.{Range};
ghost use Rattle.wire_frame.specs.Reading.{Gives, byte_at, tested};
ghost use Rattle.wire_frame.specs.Parts.{shards_at, config_at};

use crate::faults::{FrameReason, ReadError};
use crate::numbers::{bad_at, byte_of, epoch_of, shard_of};
use crate::sets::{member_numbers, shard_numbers};
use tcs_terms::limits::MAX_NODES;
use tcs_terms::{Config, NodeId, ShardSet, is_among};

pub fn shards_of(bytes: &[u8]) -> Result<(ShardSet, &[u8]), ReadError>
    ensures { Gives (λ x. (x.0, x.1.now)) result (shards_at bytes.now) }
{
    let (numbers, rest) = shard_numbers(bytes)?;
    Ok((ShardSet::of(numbers), rest))
}

/// A leader: one of the members.
fn leader_of<'a>(members: &[NodeId], bytes: &'a [u8]) -> Result<(NodeId, &'a [u8]), ReadError>
    ensures { Gives (λ x. (x.0, x.1.now)) result (tested Range (is_among members.now) byte_at bytes.now) }
{
    let (leader, rest) = byte_of(bytes)?;
    if !is_among(members, leader) {
        return Err(bad_at(FrameReason::Range, bytes));
    }
    Ok((leader, rest))
}

/// A proposer: a node, or 0.
fn proposer_of(bytes: &[u8]) -> Result<(NodeId, &[u8]), ReadError>
    ensures { Gives (λ x. (x.0, x.1.now)) result (tested Range (λ n. nat_le n MAX_NODES) byte_at bytes.now) }
{
    let (by, rest) = byte_of(bytes)?;
    if by > MAX_NODES {
        return Err(bad_at(FrameReason::Range, bytes));
    }
    Ok((by, rest))
}

#[tactic(auto, unfolding(crate::specs::Parts::config_at))]
pub fn config_of(bytes: &[u8]) -> Result<(Config, &[u8]), ReadError>
    ensures { Gives (λ x. (x.0, x.1.now)) result (config_at bytes.now) }
{
    let (shard, rest) = shard_of(bytes)?;
    let (epoch, rest) = epoch_of(rest)?;
    let (members, rest) = member_numbers(rest)?;
    let (leader, rest) = leader_of(members, rest)?;
    let (by, rest) = proposer_of(rest)?;
    Ok((Config::of(shard, epoch, members, leader, by), rest))
}
