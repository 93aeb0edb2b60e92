//! Bytes to messages.
ghost use Rattle.std.specs.Prelude.{◌≡◌, Ok, IfOk};
ghost use Rattle.tcs_terms.specs.declared.messages.Message.{Message};
ghost use Rattle.tcs_terms.specs.Messages.{InRange};
ghost use Rattle.wire_frame.specs.Spelling.{spell};
ghost use Rattle.wire_frame.specs.Reading.{Gives};
ghost use Rattle.wire_frame.specs.Frames.{body_at, message_at, read_frame, Decodes, IsMemoryOr};

use crate::faults::{DecodeFault, FrameReason, ReadError};
use crate::kinds::kind_of;
use crate::messages::{
    accept_ack_of, accept_of, at_of, cas_of, config_change_of, decision_for_of, last_of,
    new_config_of, outcome_of, prepare_ack_of, prepare_of, probe_ack_of, probe_of, refused_of,
    stored_of,
};
use crate::numbers::bad_at;
use crate::states::{new_state_of, state_piece_of};
use std::alloc::Global;
use tcs_terms::{Kind, Message};

/// A message of this kind.
#[tactic(auto, unfolding(crate::specs::Frames::body_at))]
fn body_of(alloc: Global, kind: Kind, bytes: &[u8]) -> Result<(Message, &[u8]), ReadError>
    ensures { Gives (λ x. (x.0, x.1.now)) result (body_at kind bytes.now) }
{
    match kind {
        Kind::Prepare => prepare_of(alloc, bytes),
        Kind::PrepareAck => prepare_ack_of(alloc, bytes),
        Kind::Accept => accept_of(alloc, bytes),
        Kind::AcceptAck => accept_ack_of(bytes),
        Kind::Decision => decision_for_of(bytes),
        Kind::Probe => probe_of(bytes),
        Kind::ProbeAck => probe_ack_of(bytes),
        Kind::NewConfig => new_config_of(bytes),
        Kind::NewState => new_state_of(alloc, bytes),
        Kind::ConfigChange => config_change_of(bytes),
        Kind::Last => last_of(bytes),
        Kind::At => at_of(bytes),
        Kind::Cas => cas_of(bytes),
        Kind::Stored => stored_of(bytes),
        Kind::Outcome => outcome_of(bytes),
        Kind::Refused => refused_of(bytes),
        Kind::StatePiece => state_piece_of(alloc, bytes),
    }
}

#[tactic(auto, unfolding(crate::specs::Frames::message_at))]
fn message_of(alloc: Global, bytes: &[u8]) -> Result<(Message, &[u8]), ReadError>
    ensures { Gives (λ x. (x.0, x.1.now)) result (message_at bytes.now) }
{
    let (kind, rest) = kind_of(FrameReason::Kind, bytes)?;
    body_of(alloc, kind, rest)
}

#[tactic(auto, unfolding(crate::specs::Frames::read_frame))]
fn whole_message(alloc: Global, bytes: &[u8]) -> Result<Message, ReadError>
    ensures { Gives (λ m. m) result (read_frame bytes.now) }
{
    let (message, rest) = message_of(alloc, bytes)?;
    if !rest.is_empty() {
        return Err(bad_at(FrameReason::Trailing, rest));
    }
    Ok(message)
}

#[tactic(auto, unfolding(crate::specs::Frames::fault))]
fn placed(alloc: Global, frame: &[u8]) -> Result<Message, DecodeFault>
    ensures { Decodes frame.now result }
{
    match whole_message(alloc, frame) {
        Ok(message) => Ok(message),
        Err(ReadError::Bad(fault)) => Err(DecodeFault::Bad {
            reason: fault.reason,
            place: frame.len().saturating_sub(fault.left),
        }),
        Err(ReadError::Memory) => Err(DecodeFault::OutOfMemory),
    }
}

/// The message that a frame spells.
///
/// # Errors
/// `Bad` exactly where the frame spells no message in range, with the reason and the place of its first fault from
/// the left.
pub fn decode(alloc: Global, frame: &[u8]) -> Result<Message, DecodeFault>
    // What is decoded is in range, and the frame is its spelling.
    ensures found { IfOk result (λ m. InRange m × (frame.now ≡ spell m)) }
    // The spelling of a message in range is decoded as that message, unless memory runs out.
    ensures only { (m : Message) → InRange m → frame.now ≡ spell m → IsMemoryOr m result }
    // Any other frame is refused by its first fault.
    ensures exact { Decodes frame.now result }
{
    placed(alloc, frame)
}
