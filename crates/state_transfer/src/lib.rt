//! How a leader's rows are cut into pieces and sent, and how a follower gathers them.
#![tactic(auto)]

mod apart;
mod choices;
mod copies;
mod gatherings;
mod kept_pieces;
mod pieces;
mod sending;
#[cfg(test)]
mod tests;

pub use choices::{drop_below, gather, gathering_for, takes_piece};
pub use gatherings::Gathering;
pub use pieces::{StatePiece, piece, piece_count};
pub use sending::{send_state, send_states};
