//! State that is sent in pieces. Each function has an empty body: its contract is what computing the run shows.
#![tactic(auto, unfolding(crate::proofs::OpenAll::open_all))]

ghost use Rattle.protocol.specs.Worked.StateInOnePiece.{StateInOnePieceShows};
ghost use Rattle.protocol.specs.Worked.StateInTwoPieces.{StateInTwoPiecesShows};

/// The take-over under version 2: the state comes in one piece.
pub fn state_in_one_piece()
    ensures { StateInOnePieceShows }
{}

/// A state of 25 rows comes in two pieces, the second first, and each twice.
pub fn state_in_two_pieces()
    ensures { StateInTwoPiecesShows }
{}
