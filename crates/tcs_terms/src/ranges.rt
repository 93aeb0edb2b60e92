//! Which messages and entries are in range.
ghost use Rattle.std.specs.Prelude.{◌≡◌, ◌↔◌, ◌&&◌, nat_le, IsTrue, IfSome, All};
ghost use Rattle.tcs_terms.specs.Payloads.{IsPayload};
ghost use Rattle.tcs_terms.specs.Preparations.{KeepsPayload};
ghost use Rattle.tcs_terms.specs.Places.{IsShardSet, IsMembership};
ghost use Rattle.tcs_terms.specs.Messages.{is_txn, is_slot, IsVote, IsCause, IsDecision, IsEntry, AreSentRows, InRange};

use crate::configurations::Config;
use crate::ids::{Slot, TxId};
use crate::limits::{MAX_EPOCH, MAX_KIND, MAX_PIECE_ROWS, MAX_PIECES, MAX_SEQUENCE, MAX_SLOT};
use crate::logs::{Entry, Row, Rows};
use crate::messages::Message;
use crate::payloads::Payload;
use crate::places::{is_epoch, is_node, is_shard};
use crate::shard_sets::ShardSet;
use crate::votes::{Cause, Decision, Vote};

fn is_txn(txn: &TxId) -> bool
    ensures { result ≡ is_txn txn.now }
{
    is_node(txn.home) && 1 <= txn.seq && txn.seq <= MAX_SEQUENCE
}

fn is_slot(slot: Slot) -> bool
    ensures { result ≡ is_slot slot }
{
    1 <= slot && slot <= MAX_SLOT
}

fn is_vote(vote: &Vote) -> bool
    ensures { IsTrue result ↔ IsVote vote.now }
{
    match vote {
        Vote::Clash(txn) => is_txn(txn),
        Vote::Commit | Vote::Lost => true,
    }
}

fn is_cause(cause: &Cause) -> bool
    ensures { IsTrue result ↔ IsCause cause.now }
{
    match cause {
        Cause::Clash(txn) => is_txn(txn),
        Cause::Lost => true,
    }
}

fn is_decision(decision: &Decision) -> bool
    ensures { IsTrue result ↔ IsDecision decision.now }
{
    match decision {
        Decision::Commit => true,
        Decision::Abort { shard, cause } => is_shard(*shard) && is_cause(cause),
    }
}

/// A payload is one by its type.
fn knows_payload(payload: &Option<Payload>)
    ensures { IfSome payload.now IsPayload }
{
    if let Some(payload) = payload {
        let _version = payload.version();
    }
}

/// Shards are a set of them by their type.
fn knows_shards(shards: &ShardSet)
    ensures { IsShardSet shards.now }
{
    let _list = shards.list();
}

/// A configuration is one by its type.
fn knows_config(config: &Config)
    ensures { IsMembership config.now }
{
    let _epoch = config.epoch();
}

/// An entry has a payload exactly where its vote is not that the preparation was lost, by its type.
fn knows_entry(entry: &Entry)
    ensures { KeepsPayload entry.now.payload entry.now.vote }
{
    let _slot = entry.slot;
}

fn is_entry(entry: &Entry) -> bool
    ensures { IsTrue result ↔ IsEntry entry.now }
{
    knows_entry(entry);
    knows_payload(&entry.payload);
    knows_shards(&entry.shards);
    is_slot(entry.slot) && is_txn(&entry.txn) && is_vote(&entry.vote)
}

fn are_entries(rows: &[Row]) -> bool
    ensures { IsTrue result ↔ All (λ r. IsEntry r.entry) rows.now }
{
    for row in rows {
        if !is_entry(&row.entry) {
            return false;
        }
    }
    true
}

fn are_sent_rows(rows: &Rows) -> bool
    ensures { IsTrue result ↔ AreSentRows rows.now }
{
    are_entries(rows.list())
}

fn is_piece(piece: u16, pieces: u16) -> bool
    ensures { result ≡ (nat_le 1 piece && (nat_le piece pieces && nat_le pieces MAX_PIECES)) }
{
    1 <= piece && piece <= pieces && pieces <= MAX_PIECES
}

impl Message {
    /// Whether each number of the message is in its range, so that the message has a spelling in bytes.
    pub fn in_range(&self) -> bool
        ensures { IsTrue result ↔ InRange self.now }
    {
        match self {
            Message::Prepare {
                epoch,
                txn,
                shards,
                payload,
            } => {
                knows_shards(shards);
                knows_payload(payload);
                is_epoch(*epoch) && is_txn(txn)
            }
            Message::PrepareAck {
                shard,
                epoch,
                entry,
            } => is_shard(*shard) && is_epoch(*epoch) && is_entry(entry),
            Message::Accept { epoch, entry } => is_epoch(*epoch) && is_entry(entry),
            Message::AcceptAck {
                shard,
                epoch,
                slot,
                txn,
            } => is_shard(*shard) && is_epoch(*epoch) && is_slot(*slot) && is_txn(txn),
            Message::DecisionFor {
                epoch,
                slot,
                txn,
                ..
            } => is_epoch(*epoch) && is_slot(*slot) && is_txn(txn),
            Message::Probe { epoch } => is_epoch(*epoch),
            Message::ProbeAck { epoch, state } => is_epoch(*epoch) && *state <= MAX_EPOCH,
            Message::NewState { config, rows } => {
                knows_config(config);
                are_sent_rows(rows)
            }
            Message::NewConfig { config }
            | Message::ConfigChange { config }
            | Message::Cas { config }
            | Message::Stored { config } => {
                knows_config(config);
                true
            }
            Message::Last { shard } => is_shard(*shard),
            Message::At { shard, epoch } => is_shard(*shard) && is_epoch(*epoch),
            Message::OutcomeOf { txn, decision } => is_txn(txn) && is_decision(decision),
            Message::Refused { kind, mark, .. } => {
                let _any_mark = *mark;
                1 <= *kind && *kind <= MAX_KIND
            }
            Message::StatePiece {
                config,
                piece,
                pieces,
                rows,
            } => {
                knows_config(config);
                is_piece(*piece, *pieces)
                    && rows.list().len() <= MAX_PIECE_ROWS
                    && are_sent_rows(rows)
            }
        }
    }
}
