//! The pieces of a state that came so far.
ghost use Rattle.std.specs.Prelude.{◌≡◌, ◌++◌, ◌∷◌, false, true, [], filter, length, map, nat_lt, IfOk, OnOk};
ghost use Rattle.std.specs.List.{list_all};
ghost use Rattle.tcs_terms.specs.Logs.{AreRows, SameTxns};
ghost use Rattle.protocol.specs.Pieces.{are_whole, is_kept, rows_of, with_piece};
ghost use Rattle.state_transfer.specs.Apart.{stands_apart};

use crate::apart::{are_new, ends_below};
use std::alloc::Global;
use std::collections::HashSet;
use std::marker::Model;
use tcs_terms::{OutOfMemory, Row, Rows, TxId};

/// A piece of a leader's rows, numbered from 1.
#[derive(Debug, Drop)]
struct Piece {
    number: u16,
    rows: Rows,
}

impl Model for Piece {
    ghost use Rattle.protocol.specs.Records.{Piece};

    ghost Value = { Piece };

    ghost view = { λ p. record { number = p.number; rows = p.rows } };
}

/// Pieces by number whose rows may stand together in a log, and the transactions of all of them. Seen as the pieces.
#[derive(Debug, Drop)]
pub struct KeptPieces {
    list: Vec<Piece>,
    txns: HashSet<TxId>,
}

impl Model for KeptPieces {
    ghost use Rattle.std.specs.Prelude.{List};
    ghost use Rattle.protocol.specs.Records.{Piece};
    ghost use Rattle.state_transfer.specs.Keeping.{KeepsRows};

    ghost Value = { List Piece };

    ghost view = { λ k. k.list.items };

    ghost invariant = { λ k. KeepsRows k.list.items k.txns.keys };
}

impl KeptPieces {
    pub fn new(alloc: Global) -> KeptPieces
        ensures { result ≡ [] }
    {
        KeptPieces {
            list: Vec::new(alloc),
            txns: HashSet::new(alloc),
        }
    }

    pub fn len(&self) -> usize
        ensures { result ≡ length self.now }
    {
        self.list.len()
    }

    /// Whether the piece of that number is kept.
    pub fn has(&self, number: u16) -> bool
        ensures { result ≡ is_kept self.now number }
    {
        self.list.iter().any(|piece| piece.number == number)
    }

    /// Whether rows may stand together with those that are kept, as the piece of a number that is not kept. In the time of
    /// the number of pieces and of these rows.
    pub fn has_room(&self, number: u16, rows: &[Row]) -> bool
        requires new { is_kept self.now number ≡ false }
        requires rows { AreRows rows.now }
        ensures { result ≡ are_whole (rows_of (with_piece self.now (record { number = number; rows = rows.now }))) }
    {
        stands_apart(&self.list, number, rows) && are_new(&self.txns, rows)
    }

    /// The pieces with one more in its place.
    pub fn with(self, number: u16, rows: Rows) -> Result<KeptPieces, OutOfMemory>
        requires new { is_kept self number ≡ false }
        requires room { are_whole (rows_of (with_piece self (record { number = number; rows = rows }))) ≡ true }
        ensures { IfOk result (λ kept. kept ≡ with_piece self (record { number = number; rows = rows })) }
    {
        let KeptPieces { mut list, mut txns } = self;
        remember(&mut txns, rows.list())?;
        list.insert(place_of(&list, number), Piece { number, rows })?;
        Ok(KeptPieces { list, txns })
    }

    /// All rows, slots ascending, moved together.
    pub fn into_rows(self, alloc: Global) -> Result<Vec<Row>, OutOfMemory>
        ensures rows { IfOk result (λ rows. rows.items ≡ rows_of self) }
        ensures log { AreRows (rows_of self) }
    {
        let mut rows = Vec::new(alloc);
        for piece in self.list {
            push_rows(piece.rows.into_list(), &mut rows)?;
        }
        Ok(rows)
    }
}

/// Moves rows behind others.
fn push_rows(more: Vec<Row>, rows: &mut Vec<Row>) -> Result<(), OutOfMemory>
    ensures { OnOk result (rows.new.items ≡ rows.old.items ++ more.items) }
{
    for row in more {
        rows.push(row)?;
    }
    Ok(())
}

/// Whether the rows of the piece of a number stand on the right side of each other piece.
fn stands_apart(pieces: &[Piece], number: u16, rows: &[Row]) -> bool
    ensures { result ≡ list_all (stands_apart number rows.now) pieces.now }
{
    pieces.iter().all(|piece| {
        if piece.number < number {
            ends_below(piece.rows.list(), rows)
        } else {
            ends_below(rows, piece.rows.list())
        }
    })
}

/// How many pieces stand before the one of that number.
fn place_of(pieces: &[Piece], number: u16) -> usize
    ensures { result ≡ length (filter (λ p. nat_lt p.number number) pieces.now) }
{
    pieces.iter().filter(|piece| piece.number < number).count()
}

/// Adds the transactions of rows.
fn remember(txns: &mut HashSet<TxId>, rows: &[Row]) -> Result<(), OutOfMemory>
    ensures { OnOk result (SameTxns txns.new.keys (map (λ r. r.entry.txn) rows.now ++ txns.old.keys)) }
{
    for row in rows {
        remember_one(txns, row.entry.txn)?;
    }
    Ok(())
}

fn remember_one(txns: &mut HashSet<TxId>, txn: TxId) -> Result<(), OutOfMemory>
    ensures { OnOk result (SameTxns txns.new.keys (txn ∷ txns.old.keys)) }
{
    txns.insert(txn)?;
    Ok(())
}
