//! Reads numbers, and what consists of numbers alone.
ghost use Rattle.std.specs.Prelude.{◌≡◌, Ok, nat_le, ◌&&◌};
ghost use Rattle.std.specs.Int.{w16, w32, w64};
ghost use Rattle.tcs_terms.specs.Places.{is_epoch, is_node, is_shard};
ghost use Rattle.tcs_terms.specs.Messages.{is_slot};
ghost use Rattle.wire_frame.specs.declared.faults.ReadError.TheVariants as errors;
ghost use Rattle.wire_frame.specs.Reading.{Gives, fault_at, byte_at, number_at, run_at};
ghost use Rattle.wire_frame.specs.Parts.{is_up_to, epoch_at, slot_at, node_at, shard_at, sequence_at, txn_at};

use crate::faults::{Fault, FrameReason, ReadError};
use tcs_terms::limits::{MAX_EPOCH, MAX_NODES, MAX_SEQUENCE, MAX_SHARDS, MAX_SLOT};
use tcs_terms::{Epoch, NodeId, ShardId, Slot, TxId};

/// A fault at the first of these bytes.
pub fn bad_at(reason: FrameReason, bytes: &[u8]) -> ReadError
    ensures { result ≡ errors.Bad (fault_at reason bytes.now) }
{
    ReadError::Bad(Fault {
        reason,
        left: bytes.len(),
    })
}

pub fn byte_of(bytes: &[u8]) -> Result<(u8, &[u8]), ReadError>
    ensures { Gives (λ x. (x.0, x.1.now)) result (byte_at bytes.now) }
{
    match bytes {
        [] => Err(bad_at(FrameReason::Short, bytes)),
        [byte, rest @ ..] => Ok((*byte, rest)),
    }
}

pub fn run_of(count: usize, bytes: &[u8]) -> Result<(&[u8], &[u8]), ReadError>
    ensures { Gives (λ x. (x.0.now, x.1.now)) result (run_at count bytes.now) }
{
    if bytes.len() < count {
        return Err(bad_at(FrameReason::Short, &[]));
    }
    Ok(bytes.split_at(count))
}

pub fn u16_of(bytes: &[u8]) -> Result<(u16, &[u8]), ReadError>
    ensures { Gives (λ x. (x.0, x.1.now)) result (number_at w16 bytes.now) }
{
    if bytes.len() < 2 {
        return Err(bad_at(FrameReason::Short, &[]));
    }
    let (front, rest) = bytes.split_at(2);
    Ok((u16::from_be_bytes([front[0], front[1]]), rest))
}

pub fn u32_of(bytes: &[u8]) -> Result<(u32, &[u8]), ReadError>
    ensures { Gives (λ x. (x.0, x.1.now)) result (number_at w32 bytes.now) }
{
    if bytes.len() < 4 {
        return Err(bad_at(FrameReason::Short, &[]));
    }
    let (front, rest) = bytes.split_at(4);
    let number = u32::from_be_bytes([front[0], front[1], front[2], front[3]]);
    Ok((number, rest))
}

pub fn u64_of(bytes: &[u8]) -> Result<(u64, &[u8]), ReadError>
    ensures { Gives (λ x. (x.0, x.1.now)) result (number_at w64 bytes.now) }
{
    if bytes.len() < 8 {
        return Err(bad_at(FrameReason::Short, &[]));
    }
    let (front, rest) = bytes.split_at(8);
    let number = u64::from_be_bytes([
        front[0], front[1], front[2], front[3], front[4], front[5], front[6], front[7],
    ]);
    Ok((number, rest))
}

/// Whether a number is from 1 to the most.
pub fn is_up_to(most: u32, number: u32) -> bool
    ensures { result ≡ is_up_to most number }
{
    1 <= number && number <= most
}

#[tactic(auto, unfolding(crate::specs::Parts::epoch_at))]
pub fn epoch_of(bytes: &[u8]) -> Result<(Epoch, &[u8]), ReadError>
    ensures { Gives (λ x. (x.0, x.1.now)) result (epoch_at bytes.now) }
{
    let (epoch, rest) = u32_of(bytes)?;
    if !is_up_to(MAX_EPOCH, epoch) {
        return Err(bad_at(FrameReason::Range, bytes));
    }
    Ok((epoch, rest))
}

#[tactic(auto, unfolding(crate::specs::Parts::slot_at))]
pub fn slot_of(bytes: &[u8]) -> Result<(Slot, &[u8]), ReadError>
    ensures { Gives (λ x. (x.0, x.1.now)) result (slot_at bytes.now) }
{
    let (slot, rest) = u16_of(bytes)?;
    if !is_up_to(MAX_SLOT as u32, slot as u32) {
        return Err(bad_at(FrameReason::Range, bytes));
    }
    Ok((slot, rest))
}

#[tactic(auto, unfolding(crate::specs::Parts::node_at))]
pub fn node_of(bytes: &[u8]) -> Result<(NodeId, &[u8]), ReadError>
    ensures { Gives (λ x. (x.0, x.1.now)) result (node_at bytes.now) }
{
    let (node, rest) = byte_of(bytes)?;
    if !is_up_to(MAX_NODES as u32, node as u32) {
        return Err(bad_at(FrameReason::Range, bytes));
    }
    Ok((node, rest))
}

#[tactic(auto, unfolding(crate::specs::Parts::shard_at))]
pub fn shard_of(bytes: &[u8]) -> Result<(ShardId, &[u8]), ReadError>
    ensures { Gives (λ x. (x.0, x.1.now)) result (shard_at bytes.now) }
{
    let (shard, rest) = byte_of(bytes)?;
    if !is_up_to(MAX_SHARDS as u32, shard as u32) {
        return Err(bad_at(FrameReason::Range, bytes));
    }
    Ok((shard, rest))
}

#[tactic(auto, unfolding(crate::specs::Parts::sequence_at))]
fn sequence_of(bytes: &[u8]) -> Result<(u32, &[u8]), ReadError>
    ensures { Gives (λ x. (x.0, x.1.now)) result (sequence_at bytes.now) }
{
    let (seq, rest) = u32_of(bytes)?;
    if !is_up_to(MAX_SEQUENCE, seq) {
        return Err(bad_at(FrameReason::Range, bytes));
    }
    Ok((seq, rest))
}

#[tactic(auto, unfolding(crate::specs::Parts::txn_at))]
pub fn txn_of(bytes: &[u8]) -> Result<(TxId, &[u8]), ReadError>
    ensures { Gives (λ x. (x.0, x.1.now)) result (txn_at bytes.now) }
{
    let (home, rest) = node_of(bytes)?;
    let (seq, rest) = sequence_of(rest)?;
    Ok((TxId { home, seq }, rest))
}
