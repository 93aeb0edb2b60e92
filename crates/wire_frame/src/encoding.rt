//! Messages to bytes.
ghost use Rattle.std.specs.Prelude.{◌≡◌, ◌++◌, ◌∷◌, [], IfOk, OnOk, OnErr};
ghost use Rattle.tcs_terms.specs.Appends.{Begins};
ghost use Rattle.wire_frame.specs.Spelling.{two, four, counted, spell_txn, spell_maybe, spell_entry, spell_rows, spell_config, spell_commit, spell_why, spell_rest, spell};

use crate::buffer::{put_byte, put_u16, put_u32};
use crate::kinds::kind;
use crate::parts::{put_config, put_decision, put_entry, put_maybe, put_rows, put_shards, put_txn};
use crate::room::room_of;
use std::alloc::Global;
use tcs_terms::{
    Config, Entry, Epoch, Message, OutOfMemory, Payload, Rows, ShardId, ShardSet, Slot, TxId, Why,
};

fn put_prepare(
    out: &mut Vec<u8>,
    epoch: Epoch,
    txn: TxId,
    shards: &ShardSet,
    payload: &Option<Payload>,
) -> Result<(), OutOfMemory>
    ensures ok { OnOk result (out.new.items ≡ out.old.items ++ (four epoch ++ spell_txn txn ++ counted shards.now ++ spell_maybe payload.now)) }
    ensures err { OnErr result (Begins out.old.items out.new.items) }
{
    put_u32(out, epoch)?;
    put_txn(out, txn)?;
    put_shards(out, shards)?;
    put_maybe(out, payload)
}

fn put_ack(
    out: &mut Vec<u8>,
    shard: ShardId,
    epoch: Epoch,
    entry: &Entry,
) -> Result<(), OutOfMemory>
    ensures ok { OnOk result (out.new.items ≡ out.old.items ++ shard ∷ four epoch ++ spell_entry entry.now) }
    ensures err { OnErr result (Begins out.old.items out.new.items) }
{
    put_byte(out, shard)?;
    put_u32(out, epoch)?;
    put_entry(out, entry)
}

fn put_place(out: &mut Vec<u8>, epoch: Epoch, slot: Slot, txn: TxId) -> Result<(), OutOfMemory>
    ensures ok { OnOk result (out.new.items ≡ out.old.items ++ (four epoch ++ two slot ++ spell_txn txn)) }
    ensures err { OnErr result (Begins out.old.items out.new.items) }
{
    put_u32(out, epoch)?;
    put_u16(out, slot)?;
    put_txn(out, txn)
}

fn put_piece(
    out: &mut Vec<u8>,
    config: &Config,
    piece: u16,
    pieces: u16,
    rows: &Rows,
) -> Result<(), OutOfMemory>
    ensures ok { OnOk result (out.new.items ≡ out.old.items ++ (spell_config config.now ++ two piece ++ two pieces ++ spell_rows rows.now)) }
    ensures err { OnErr result (Begins out.old.items out.new.items) }
{
    put_config(out, config)?;
    put_u16(out, piece)?;
    put_u16(out, pieces)?;
    put_rows(out, rows)
}

fn commit_byte(commit: bool) -> u8
    ensures { result ≡ spell_commit commit }
{
    if commit { 1 } else { 2 }
}

fn why_byte(why: Why) -> u8
    ensures { result ≡ spell_why why }
{
    match why {
        Why::Stale => 1,
        Why::Held => 2,
        Why::Full => 3,
    }
}

fn put_rest(out: &mut Vec<u8>, message: &Message) -> Result<(), OutOfMemory>
    ensures ok { OnOk result (out.new.items ≡ out.old.items ++ spell_rest message.now) }
    ensures err { OnErr result (Begins out.old.items out.new.items) }
{
    match message {
        Message::Prepare {
            epoch,
            txn,
            shards,
            payload,
        } => put_prepare(out, *epoch, *txn, shards, payload),
        Message::PrepareAck {
            shard,
            epoch,
            entry,
        } => put_ack(out, *shard, *epoch, entry),
        Message::Accept { epoch, entry } => {
            put_u32(out, *epoch)?;
            put_entry(out, entry)
        }
        Message::AcceptAck {
            shard,
            epoch,
            slot,
            txn,
        } => {
            put_byte(out, *shard)?;
            put_place(out, *epoch, *slot, *txn)
        }
        Message::DecisionFor {
            epoch,
            slot,
            txn,
            commit,
        } => {
            put_place(out, *epoch, *slot, *txn)?;
            put_byte(out, commit_byte(*commit))
        }
        Message::Probe { epoch } => put_u32(out, *epoch),
        Message::ProbeAck { epoch, state } => {
            put_u32(out, *epoch)?;
            put_u32(out, *state)
        }
        Message::NewConfig { config } => put_config(out, config),
        Message::NewState { config, rows } => {
            put_config(out, config)?;
            put_rows(out, rows)
        }
        Message::ConfigChange { config } => put_config(out, config),
        Message::Last { shard } => put_byte(out, *shard),
        Message::At { shard, epoch } => {
            put_byte(out, *shard)?;
            put_u32(out, *epoch)
        }
        Message::Cas { config } => put_config(out, config),
        Message::Stored { config } => put_config(out, config),
        Message::OutcomeOf { txn, decision } => {
            put_txn(out, *txn)?;
            put_decision(out, *decision)
        }
        Message::Refused { kind, why, mark } => {
            put_byte(out, *kind)?;
            put_byte(out, why_byte(*why))?;
            put_u32(out, *mark)
        }
        Message::StatePiece {
            config,
            piece,
            pieces,
            rows,
        } => put_piece(out, config, *piece, *pieces, rows),
    }
}

#[tactic(auto, unfolding(crate::specs::Spelling::spell))]
fn put_message(out: &mut Vec<u8>, message: &Message) -> Result<(), OutOfMemory>
    ensures ok { OnOk result (out.new.items ≡ out.old.items ++ spell message.now) }
    ensures err { OnErr result (Begins out.old.items out.new.items) }
{
    put_byte(out, kind(message))?;
    put_rest(out, message)
}

/// The frame of a message.
pub fn encode(alloc: Global, message: &Message) -> Result<Vec<u8>, OutOfMemory>
    ensures { IfOk result (λ frame. frame.items ≡ spell message.now) }
{
    let mut out = Vec::with_capacity(alloc, room_of(message))?;
    put_message(&mut out, message)?;
    Ok(out)
}

/// Writes the frame of a message behind what a buffer holds. An `Err` leaves the buffer as it was.
pub fn encode_into(message: &Message, out: &mut Vec<u8>) -> Result<(), OutOfMemory>
    ensures ok { OnOk result (out.new.items ≡ out.old.items ++ spell message.now) }
    ensures err { OnErr result (out.new.items ≡ out.old.items) }
{
    let held = out.len();
    match put_message(out, message) {
        Ok(()) => Ok(()),
        Err(OutOfMemory) => {
            out.truncate(held);
            Err(OutOfMemory)
        }
    }
}
