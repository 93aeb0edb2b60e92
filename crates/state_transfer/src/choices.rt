//! What a follower makes of a piece, given what it gathered before, if anything.
ghost use Rattle.std.specs.Prelude.{◌≡◌, ◌≤◌, IfOk, IsTrue};
ghost use Rattle.tcs_terms.specs.Logs.{AreRows};
ghost use Rattle.protocol.specs.Pieces.{begun, gathered_from, gathering_for, takes_piece, with_one_more};
ghost use Rattle.state_transfer.specs.Arriving.{kept_as};

use crate::gatherings::Gathering;
use crate::pieces::StatePiece;
use std::alloc::Global;
use tcs_terms::{Config, Epoch, OutOfMemory, Rows};

/// Whether a piece for a configuration may be taken: nothing is gathered, or for a lower epoch, or for this configuration
/// and the piece fits.
pub fn takes_piece(gathering: &Option<Gathering>, config: &Config, piece: &StatePiece) -> bool
    ensures { result ≡ takes_piece gathering.now config.now piece.now.pieces (kept_as piece.now) }
{
    match gathering {
        None => true,
        Some(gathering) => {
            gathering.config().epoch() < config.epoch()
                || (gathering.is_for(config) && gathering.fits(piece))
        }
    }
}

/// What is gathered for a configuration: what was, if it was for that configuration, else nothing yet.
pub fn gathering_for(
    alloc: Global,
    gathering: Option<Gathering>,
    config: &Config,
    pieces: u16,
) -> Result<Gathering, OutOfMemory>
    ensures { IfOk result (λ g. g ≡ gathering_for gathering config.now pieces) }
{
    match gathering {
        None => begun_for(alloc, config, pieces),
        Some(gathering) => {
            if gathering.is_for(config) {
                Ok(gathering)
            } else {
                begun_for(alloc, config, pieces)
            }
        }
    }
}

fn begun_for(alloc: Global, config: &Config, pieces: u16) -> Result<Gathering, OutOfMemory>
    ensures { IfOk result (λ g. g ≡ begun config.now pieces) }
{
    Ok(Gathering::begun(alloc, config.copy(alloc)?, pieces))
}

/// What is gathered for a configuration with a piece more, one that may be taken.
pub fn gather(
    alloc: Global,
    gathering: Option<Gathering>,
    config: &Config,
    piece: StatePiece,
) -> Result<Gathering, OutOfMemory>
    requires taken { IsTrue (takes_piece gathering config.now piece.pieces (kept_as piece)) }
    requires from_one { 1 ≤ piece.number }
    requires one_of { piece.number ≤ piece.pieces }
    ensures { IfOk result (λ g. g ≡ with_one_more (gathering_for gathering config.now piece.pieces) (kept_as piece)) }
{
    knows_rows(&piece.rows);
    gathering_for(alloc, gathering, config, piece.pieces)?.with(piece)
}

/// Rows are those of a log by their type.
fn knows_rows(rows: &Rows)
    ensures { AreRows rows.now }
{
    let _list = rows.list();
}

/// Drops what is gathered for an epoch below this one.
pub fn drop_below(gathering: &mut Option<Gathering>, epoch: Epoch)
    ensures { gathering.new ≡ gathered_from epoch gathering.old }
{
    if let Some(old) = gathering
        && old.config().epoch() < epoch
    {
        *gathering = None;
    }
}
