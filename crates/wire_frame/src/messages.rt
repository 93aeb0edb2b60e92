//! Reads a message of each kind.
ghost use Rattle.std.specs.Prelude.{◌≡◌};
ghost use Rattle.wire_frame.specs.Reading.{Gives};
ghost use Rattle.wire_frame.specs.Frames.{state_at, piece_at, pieces_at, prepare_at, prepare_ack_at, accept_at, accept_ack_at, decision_for_at, probe_at, probe_ack_at, new_config_at, config_change_at, last_at, at_at, cas_at, stored_at, outcome_at, refused_at};

use crate::configurations::{config_of, shards_of};
use crate::entries::{commit_of, decision_of, entry_of, why_of};
use crate::faults::{FrameReason, ReadError};
use crate::kinds::kind_of;
use crate::numbers::{bad_at, epoch_of, is_up_to, shard_of, slot_of, txn_of, u16_of, u32_of};
use crate::payloads::maybe_of;
use std::alloc::Global;
use tcs_terms::limits::{MAX_EPOCH, MAX_PIECES};
use tcs_terms::{Epoch, Message};

#[tactic(auto, unfolding(crate::specs::Frames::prepare_at))]
pub fn prepare_of(alloc: Global, bytes: &[u8]) -> Result<(Message, &[u8]), ReadError>
    ensures { Gives (λ x. (x.0, x.1.now)) result (prepare_at bytes.now) }
{
    let (epoch, rest) = epoch_of(bytes)?;
    let (txn, rest) = txn_of(rest)?;
    let (shards, rest) = shards_of(rest)?;
    let (payload, rest) = maybe_of(alloc, rest)?;
    let message = Message::Prepare {
        epoch,
        txn,
        shards,
        payload,
    };
    Ok((message, rest))
}

#[tactic(auto, unfolding(crate::specs::Frames::prepare_ack_at))]
pub fn prepare_ack_of(alloc: Global, bytes: &[u8]) -> Result<(Message, &[u8]), ReadError>
    ensures { Gives (λ x. (x.0, x.1.now)) result (prepare_ack_at bytes.now) }
{
    let (shard, rest) = shard_of(bytes)?;
    let (epoch, rest) = epoch_of(rest)?;
    let (entry, rest) = entry_of(alloc, rest)?;
    let message = Message::PrepareAck {
        shard,
        epoch,
        entry,
    };
    Ok((message, rest))
}

#[tactic(auto, unfolding(crate::specs::Frames::accept_at))]
pub fn accept_of(alloc: Global, bytes: &[u8]) -> Result<(Message, &[u8]), ReadError>
    ensures { Gives (λ x. (x.0, x.1.now)) result (accept_at bytes.now) }
{
    let (epoch, rest) = epoch_of(bytes)?;
    let (entry, rest) = entry_of(alloc, rest)?;
    Ok((Message::Accept { epoch, entry }, rest))
}

#[tactic(auto, unfolding(crate::specs::Frames::accept_ack_at))]
pub fn accept_ack_of(bytes: &[u8]) -> Result<(Message, &[u8]), ReadError>
    ensures { Gives (λ x. (x.0, x.1.now)) result (accept_ack_at bytes.now) }
{
    let (shard, rest) = shard_of(bytes)?;
    let (epoch, rest) = epoch_of(rest)?;
    let (slot, rest) = slot_of(rest)?;
    let (txn, rest) = txn_of(rest)?;
    let message = Message::AcceptAck {
        shard,
        epoch,
        slot,
        txn,
    };
    Ok((message, rest))
}

#[tactic(auto, unfolding(crate::specs::Frames::decision_for_at))]
pub fn decision_for_of(bytes: &[u8]) -> Result<(Message, &[u8]), ReadError>
    ensures { Gives (λ x. (x.0, x.1.now)) result (decision_for_at bytes.now) }
{
    let (epoch, rest) = epoch_of(bytes)?;
    let (slot, rest) = slot_of(rest)?;
    let (txn, rest) = txn_of(rest)?;
    let (commit, rest) = commit_of(rest)?;
    let message = Message::DecisionFor {
        epoch,
        slot,
        txn,
        commit,
    };
    Ok((message, rest))
}

#[tactic(auto, unfolding(crate::specs::Frames::probe_at))]
pub fn probe_of(bytes: &[u8]) -> Result<(Message, &[u8]), ReadError>
    ensures { Gives (λ x. (x.0, x.1.now)) result (probe_at bytes.now) }
{
    let (epoch, rest) = epoch_of(bytes)?;
    Ok((Message::Probe { epoch }, rest))
}

/// The last epoch in which a member was initialised, or 0.
#[tactic(auto, unfolding(crate::specs::Frames::state_at))]
fn state_of(bytes: &[u8]) -> Result<(Epoch, &[u8]), ReadError>
    ensures { Gives (λ x. (x.0, x.1.now)) result (state_at bytes.now) }
{
    let (state, rest) = u32_of(bytes)?;
    if state > MAX_EPOCH {
        return Err(bad_at(FrameReason::Range, bytes));
    }
    Ok((state, rest))
}

#[tactic(auto, unfolding(crate::specs::Frames::probe_ack_at))]
pub fn probe_ack_of(bytes: &[u8]) -> Result<(Message, &[u8]), ReadError>
    ensures { Gives (λ x. (x.0, x.1.now)) result (probe_ack_at bytes.now) }
{
    let (epoch, rest) = epoch_of(bytes)?;
    let (state, rest) = state_of(rest)?;
    Ok((Message::ProbeAck { epoch, state }, rest))
}

#[tactic(auto, unfolding(crate::specs::Frames::new_config_at))]
pub fn new_config_of(bytes: &[u8]) -> Result<(Message, &[u8]), ReadError>
    ensures { Gives (λ x. (x.0, x.1.now)) result (new_config_at bytes.now) }
{
    let (config, rest) = config_of(bytes)?;
    Ok((Message::NewConfig { config }, rest))
}

#[tactic(auto, unfolding(crate::specs::Frames::config_change_at))]
pub fn config_change_of(bytes: &[u8]) -> Result<(Message, &[u8]), ReadError>
    ensures { Gives (λ x. (x.0, x.1.now)) result (config_change_at bytes.now) }
{
    let (config, rest) = config_of(bytes)?;
    Ok((Message::ConfigChange { config }, rest))
}

#[tactic(auto, unfolding(crate::specs::Frames::last_at))]
pub fn last_of(bytes: &[u8]) -> Result<(Message, &[u8]), ReadError>
    ensures { Gives (λ x. (x.0, x.1.now)) result (last_at bytes.now) }
{
    let (shard, rest) = shard_of(bytes)?;
    Ok((Message::Last { shard }, rest))
}

#[tactic(auto, unfolding(crate::specs::Frames::at_at))]
pub fn at_of(bytes: &[u8]) -> Result<(Message, &[u8]), ReadError>
    ensures { Gives (λ x. (x.0, x.1.now)) result (at_at bytes.now) }
{
    let (shard, rest) = shard_of(bytes)?;
    let (epoch, rest) = epoch_of(rest)?;
    Ok((Message::At { shard, epoch }, rest))
}

#[tactic(auto, unfolding(crate::specs::Frames::cas_at))]
pub fn cas_of(bytes: &[u8]) -> Result<(Message, &[u8]), ReadError>
    ensures { Gives (λ x. (x.0, x.1.now)) result (cas_at bytes.now) }
{
    let (config, rest) = config_of(bytes)?;
    Ok((Message::Cas { config }, rest))
}

#[tactic(auto, unfolding(crate::specs::Frames::stored_at))]
pub fn stored_of(bytes: &[u8]) -> Result<(Message, &[u8]), ReadError>
    ensures { Gives (λ x. (x.0, x.1.now)) result (stored_at bytes.now) }
{
    let (config, rest) = config_of(bytes)?;
    Ok((Message::Stored { config }, rest))
}

#[tactic(auto, unfolding(crate::specs::Frames::outcome_at))]
pub fn outcome_of(bytes: &[u8]) -> Result<(Message, &[u8]), ReadError>
    ensures { Gives (λ x. (x.0, x.1.now)) result (outcome_at bytes.now) }
{
    let (txn, rest) = txn_of(bytes)?;
    let (decision, rest) = decision_of(rest)?;
    Ok((Message::OutcomeOf { txn, decision }, rest))
}

#[tactic(auto, unfolding(crate::specs::Frames::refused_at))]
pub fn refused_of(bytes: &[u8]) -> Result<(Message, &[u8]), ReadError>
    ensures { Gives (λ x. (x.0, x.1.now)) result (refused_at bytes.now) }
{
    let (kind, rest) = kind_of(FrameReason::Range, bytes)?;
    let (why, rest) = why_of(rest)?;
    let (mark, rest) = u32_of(rest)?;
    let message = Message::Refused {
        kind: kind.number(),
        why,
        mark,
    };
    Ok((message, rest))
}

/// The number of a piece.
#[tactic(auto, unfolding(crate::specs::Frames::piece_at))]
pub fn piece_of(bytes: &[u8]) -> Result<(u16, &[u8]), ReadError>
    ensures { Gives (λ x. (x.0, x.1.now)) result (piece_at bytes.now) }
{
    let (piece, rest) = u16_of(bytes)?;
    if !is_up_to(MAX_PIECES as u32, piece as u32) {
        return Err(bad_at(FrameReason::Range, bytes));
    }
    Ok((piece, rest))
}

/// How many pieces there are.
#[tactic(auto, unfolding(crate::specs::Frames::pieces_at))]
pub fn pieces_of(piece: u16, bytes: &[u8]) -> Result<(u16, &[u8]), ReadError>
    ensures { Gives (λ x. (x.0, x.1.now)) result (pieces_at piece bytes.now) }
{
    let (pieces, rest) = u16_of(bytes)?;
    if pieces < piece || pieces > MAX_PIECES {
        return Err(bad_at(FrameReason::Range, bytes));
    }
    Ok((pieces, rest))
}
