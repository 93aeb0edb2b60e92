//! What a follower gathers of the rows of a configuration's leader.
ghost use Rattle.std.specs.Prelude.{◌≡◌, IfOk, IsTrue};
ghost use Rattle.tcs_terms.specs.Logs.{AreRows};
ghost use Rattle.protocol.specs.Pieces.{begun, fits, is_gathering_of, is_whole, rows_of, with_one_more};
ghost use Rattle.protocol.specs.Views.{same_config};
ghost use Rattle.state_transfer.specs.Arriving.{kept_as};

use crate::kept_pieces::KeptPieces;
use crate::pieces::StatePiece;
use std::alloc::Global;
use std::marker::Model;
use tcs_terms::{Config, OutOfMemory, Row};

/// The pieces that came of the rows of a configuration's leader, and how many there are.
#[derive(Debug, Drop)]
pub struct Gathering {
    config: Config,
    pieces: u16,
    kept: KeptPieces,
}

impl Model for Gathering {
    ghost use Rattle.protocol.specs.Records.{Gathering};

    ghost Value = { Gathering };

    ghost view = { λ g. record { config = g.config; pieces = g.pieces; kept = g.kept } };
}

impl Gathering {
    /// A gathering of so many pieces, before the first.
    pub fn begun(alloc: Global, config: Config, pieces: u16) -> Gathering
        ensures { result ≡ begun config pieces }
    {
        Gathering {
            config,
            pieces,
            kept: KeptPieces::new(alloc),
        }
    }

    pub fn config(&self) -> &Config
        ensures { result.now ≡ self.now.config }
    {
        &self.config
    }

    /// Whether the gathering is for that configuration.
    pub fn is_for(&self, config: &Config) -> bool
        ensures { result ≡ is_gathering_of self.now config.now }
    {
        same_config(&self.config, config)
    }

    /// Whether a piece fits what is gathered.
    pub fn fits(&self, piece: &StatePiece) -> bool
        ensures { result ≡ fits self.now piece.now.pieces (kept_as piece.now) }
    {
        self.pieces == piece.pieces
            && 1 <= piece.number
            && piece.number <= piece.pieces
            && (self.kept.has(piece.number) || self.kept.has_room(piece.number, piece.rows.list()))
    }

    /// What is gathered with a piece more, one that fits; a piece that is kept already stays.
    pub fn with(self, piece: StatePiece) -> Result<Gathering, OutOfMemory>
        requires { IsTrue (fits self self.pieces (kept_as piece)) }
        ensures { IfOk result (λ g. g ≡ with_one_more self (kept_as piece)) }
    {
        if self.kept.has(piece.number) {
            return Ok(self);
        }
        let Gathering {
            config,
            pieces,
            kept,
        } = self;
        Ok(Gathering {
            config,
            pieces,
            kept: kept.with(piece.number, piece.rows)?,
        })
    }

    /// Whether every piece is there.
    pub fn is_whole(&self) -> bool
        ensures { result ≡ is_whole self.now }
    {
        self.kept.len() == usize::from(self.pieces)
    }

    /// The rows of all pieces, in order: those of a log.
    pub fn into_rows(self, alloc: Global) -> Result<Vec<Row>, OutOfMemory>
        ensures rows { IfOk result (λ rows. rows.items ≡ rows_of self.kept) }
        ensures log { IfOk result (λ rows. AreRows rows.items) }
    {
        self.kept.into_rows(alloc)
    }
}

/// Whether two configurations are one.
fn same_config(a: &Config, b: &Config) -> bool
    ensures { result ≡ same_config a.now b.now }
{
    a.shard() == b.shard()
        && a.epoch() == b.epoch()
        && a.members() == b.members()
        && a.leader() == b.leader()
        && a.by() == b.by()
}
