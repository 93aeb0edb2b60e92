//! Reads entries and decisions.
ghost use Rattle.std.specs.Prelude.{◌≡◌, IfOk};
ghost use Rattle.tcs_terms.specs.Preparations.{KeepsPayload};
ghost use Rattle.wire_frame.specs.Reading.{Gives};
ghost use Rattle.wire_frame.specs.Parts.{vote_at, entry_at, mark_at, cause_at, decision_at, commit_at, why_at};

use crate::configurations::shards_of;
use crate::faults::{FrameReason, ReadError};
use crate::numbers::{bad_at, shard_of, slot_of, txn_of};
use crate::payloads::payload_of;
use std::alloc::Global;
use tcs_terms::{Cause, Decision, Entry, Mark, Payload, Vote, Why};

/// A vote, and the payload that it speaks of.
#[tactic(auto, unfolding(crate::specs::Parts::vote_at))]
pub fn vote_of(alloc: Global, bytes: &[u8]) -> Result<((Option<Payload>, Vote), &[u8]), ReadError>
    ensures read { Gives (λ x. ((x.0.0, x.0.1), x.1.now)) result (vote_at bytes.now) }
    ensures keeps { IfOk result (λ x. KeepsPayload x.0.0 x.0.1) }
{
    match bytes {
        [] => Err(bad_at(FrameReason::Short, bytes)),
        [0, rest @ ..] => {
            let (payload, rest) = payload_of(alloc, rest)?;
            Ok(((Some(payload), Vote::Commit), rest))
        }
        [1, rest @ ..] => {
            let (txn, rest) = txn_of(rest)?;
            let (payload, rest) = payload_of(alloc, rest)?;
            Ok(((Some(payload), Vote::Clash(txn)), rest))
        }
        [2, rest @ ..] => Ok(((None, Vote::Lost), rest)),
        [_, ..] => Err(bad_at(FrameReason::Range, bytes)),
    }
}

#[tactic(auto, unfolding(crate::specs::Parts::entry_at))]
pub fn entry_of(alloc: Global, bytes: &[u8]) -> Result<(Entry, &[u8]), ReadError>
    ensures { Gives (λ x. (x.0, x.1.now)) result (entry_at bytes.now) }
{
    let (slot, rest) = slot_of(bytes)?;
    let (txn, rest) = txn_of(rest)?;
    let (shards, rest) = shards_of(rest)?;
    let ((payload, vote), rest) = vote_of(alloc, rest)?;
    let entry = Entry {
        slot,
        txn,
        shards,
        payload,
        vote,
    };
    Ok((entry, rest))
}

#[tactic(auto, unfolding(crate::specs::Parts::mark_at))]
pub fn mark_of(bytes: &[u8]) -> Result<(Mark, &[u8]), ReadError>
    ensures { Gives (λ x. (x.0, x.1.now)) result (mark_at bytes.now) }
{
    match bytes {
        [] => Err(bad_at(FrameReason::Short, bytes)),
        [0, rest @ ..] => Ok((Mark::Undecided, rest)),
        [1, rest @ ..] => Ok((Mark::Committed, rest)),
        [2, rest @ ..] => Ok((Mark::Aborted, rest)),
        [_, ..] => Err(bad_at(FrameReason::Range, bytes)),
    }
}

#[tactic(auto, unfolding(crate::specs::Parts::cause_at))]
fn cause_of(bytes: &[u8]) -> Result<(Cause, &[u8]), ReadError>
    ensures { Gives (λ x. (x.0, x.1.now)) result (cause_at bytes.now) }
{
    match bytes {
        [] => Err(bad_at(FrameReason::Short, bytes)),
        [1, rest @ ..] => {
            let (txn, rest) = txn_of(rest)?;
            Ok((Cause::Clash(txn), rest))
        }
        [2, rest @ ..] => Ok((Cause::Lost, rest)),
        [_, ..] => Err(bad_at(FrameReason::Range, bytes)),
    }
}

#[tactic(auto, unfolding(crate::specs::Parts::decision_at))]
pub fn decision_of(bytes: &[u8]) -> Result<(Decision, &[u8]), ReadError>
    ensures { Gives (λ x. (x.0, x.1.now)) result (decision_at bytes.now) }
{
    match bytes {
        [] => Err(bad_at(FrameReason::Short, bytes)),
        [0, rest @ ..] => Ok((Decision::Commit, rest)),
        [1, rest @ ..] => {
            let (shard, rest) = shard_of(rest)?;
            let (cause, rest) = cause_of(rest)?;
            Ok((Decision::Abort { shard, cause }, rest))
        }
        [_, ..] => Err(bad_at(FrameReason::Range, bytes)),
    }
}

/// Whether a decision is to commit.
#[tactic(auto, unfolding(crate::specs::Parts::commit_at))]
pub fn commit_of(bytes: &[u8]) -> Result<(bool, &[u8]), ReadError>
    ensures { Gives (λ x. (x.0, x.1.now)) result (commit_at bytes.now) }
{
    match bytes {
        [] => Err(bad_at(FrameReason::Short, bytes)),
        [1, rest @ ..] => Ok((true, rest)),
        [2, rest @ ..] => Ok((false, rest)),
        [_, ..] => Err(bad_at(FrameReason::Range, bytes)),
    }
}

#[tactic(auto, unfolding(crate::specs::Parts::why_at))]
pub fn why_of(bytes: &[u8]) -> Result<(Why, &[u8]), ReadError>
    ensures { Gives (λ x. (x.0, x.1.now)) result (why_at bytes.now) }
{
    match bytes {
        [] => Err(bad_at(FrameReason::Short, bytes)),
        [1, rest @ ..] => Ok((Why::Stale, rest)),
        [2, rest @ ..] => Ok((Why::Held, rest)),
        [3, rest @ ..] => Ok((Why::Full, rest)),
        [_, ..] => Err(bad_at(FrameReason::Range, bytes)),
    }
}
