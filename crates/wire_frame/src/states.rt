//! Reads the messages that carry rows.
ghost use Rattle.std.specs.Prelude.{◌≡◌};
ghost use Rattle.wire_frame.specs.Reading.{Gives};
ghost use Rattle.wire_frame.specs.Frames.{new_state_at, state_piece_at};

use crate::configurations::config_of;
use crate::faults::ReadError;
use crate::messages::{piece_of, pieces_of};
use crate::rows::rows_of;
use std::alloc::Global;
use tcs_terms::Message;
use tcs_terms::limits::{MAX_PIECE_ROWS, MAX_SLOT};

#[tactic(auto, unfolding(crate::specs::Frames::new_state_at))]
pub fn new_state_of(alloc: Global, bytes: &[u8]) -> Result<(Message, &[u8]), ReadError>
    ensures { Gives (λ x. (x.0, x.1.now)) result (new_state_at bytes.now) }
{
    let (config, rest) = config_of(bytes)?;
    let (rows, rest) = rows_of(alloc, MAX_SLOT, rest)?;
    Ok((Message::NewState { config, rows }, rest))
}

#[tactic(auto, unfolding(crate::specs::Frames::state_piece_at))]
pub fn state_piece_of(alloc: Global, bytes: &[u8]) -> Result<(Message, &[u8]), ReadError>
    ensures { Gives (λ x. (x.0, x.1.now)) result (state_piece_at bytes.now) }
{
    let (config, rest) = config_of(bytes)?;
    let (piece, rest) = piece_of(rest)?;
    let (pieces, rest) = pieces_of(piece, rest)?;
    let (rows, rest) = rows_of(alloc, MAX_PIECE_ROWS as u16, rest)?;
    let message = Message::StatePiece {
        config,
        piece,
        pieces,
        rows,
    };
    Ok((message, rest))
}
