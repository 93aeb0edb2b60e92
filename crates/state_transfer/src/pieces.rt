//! How a log's rows are cut into pieces.
ghost use Rattle.std.specs.Prelude.{◌≡◌};
ghost use Rattle.tcs_terms.specs.Logs.{AreRows};
ghost use Rattle.protocol.specs.Pieces.{piece_count, piece_of};

use tcs_terms::limits::MAX_PIECE_ROWS;
use tcs_terms::{Row, Rows};

/// A piece of a leader's rows as it comes: its number, from 1, of how many pieces, and its rows.
#[derive(Debug, Drop)]
pub struct StatePiece {
    pub number: u16,
    pub pieces: u16,
    pub rows: Rows,
}

/// Into how many pieces of at most 24 rows a log's rows are cut: 1 to 171.
pub fn piece_count(rows: &[Row]) -> u16
    requires { AreRows rows.now }
    ensures { result ≡ piece_count rows.now }
{
    let full = (rows.len() + MAX_PIECE_ROWS - 1) / MAX_PIECE_ROWS;
    full.max(1) as u16
}

/// The piece of that number, from 1: at most 24 rows, and none behind the last piece.
pub fn piece(rows: &[Row], number: u16) -> &[Row]
    ensures { result.now ≡ piece_of rows.now number }
{
    let before = MAX_PIECE_ROWS * usize::from(number.saturating_sub(1));
    let rest = &rows[before.min(rows.len())..];
    &rest[..MAX_PIECE_ROWS.min(rest.len())]
}
