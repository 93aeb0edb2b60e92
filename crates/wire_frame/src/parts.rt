//! Writes the parts of a message at the end of a buffer.
ghost use Rattle.std.specs.Prelude.{◌≡◌, ◌++◌, ◌∷◌, [], OnOk, OnErr};
ghost use Rattle.std.specs.List.{flat_map};
ghost use Rattle.tcs_terms.specs.Appends.{Begins};
ghost use Rattle.wire_frame.specs.Spelling.{counted, spell_txn, spell_maybe, spell_vote, spell_kept, spell_entry, spell_mark, spell_row, spell_rows, spell_config, spell_cause, spell_decision};

use crate::buffer::{put_byte, put_counted, put_u16, put_u32};
use crate::payload_parts::put_payload;
use tcs_terms::{
    Cause, Config, Decision, Entry, Mark, OutOfMemory, Payload, Row, Rows, ShardSet, TxId, Vote,
};

pub fn put_txn(out: &mut Vec<u8>, txn: TxId) -> Result<(), OutOfMemory>
    ensures ok { OnOk result (out.new.items ≡ out.old.items ++ spell_txn txn) }
    ensures err { OnErr result (Begins out.old.items out.new.items) }
{
    put_byte(out, txn.home)?;
    put_u32(out, txn.seq)
}

pub fn put_shards(out: &mut Vec<u8>, shards: &ShardSet) -> Result<(), OutOfMemory>
    ensures ok { OnOk result (out.new.items ≡ out.old.items ++ counted shards.now) }
    ensures err { OnErr result (Begins out.old.items out.new.items) }
{
    put_counted(out, shards.list())
}

pub fn put_maybe(out: &mut Vec<u8>, payload: &Option<Payload>) -> Result<(), OutOfMemory>
    ensures ok { OnOk result (out.new.items ≡ out.old.items ++ spell_maybe payload.now) }
    ensures err { OnErr result (Begins out.old.items out.new.items) }
{
    match payload {
        None => put_byte(out, 0),
        Some(payload) => {
            put_byte(out, 1)?;
            put_payload(out, payload)
        }
    }
}

fn put_vote(out: &mut Vec<u8>, vote: Vote) -> Result<(), OutOfMemory>
    ensures ok { OnOk result (out.new.items ≡ out.old.items ++ spell_vote vote) }
    ensures err { OnErr result (Begins out.old.items out.new.items) }
{
    match vote {
        Vote::Commit => put_byte(out, 0),
        Vote::Clash(txn) => {
            put_byte(out, 1)?;
            put_txn(out, txn)
        }
        Vote::Lost => put_byte(out, 2),
    }
}

fn put_kept(out: &mut Vec<u8>, payload: &Option<Payload>) -> Result<(), OutOfMemory>
    ensures ok { OnOk result (out.new.items ≡ out.old.items ++ spell_kept payload.now) }
    ensures err { OnErr result (Begins out.old.items out.new.items) }
{
    match payload {
        None => Ok(()),
        Some(payload) => put_payload(out, payload),
    }
}

#[tactic(auto, unfolding(crate::specs::Spelling::spell_entry))]
pub fn put_entry(out: &mut Vec<u8>, entry: &Entry) -> Result<(), OutOfMemory>
    ensures ok { OnOk result (out.new.items ≡ out.old.items ++ spell_entry entry.now) }
    ensures err { OnErr result (Begins out.old.items out.new.items) }
{
    put_u16(out, entry.slot)?;
    put_txn(out, entry.txn)?;
    put_shards(out, &entry.shards)?;
    put_vote(out, entry.vote)?;
    put_kept(out, &entry.payload)
}

fn mark_byte(mark: Mark) -> u8
    ensures { result ≡ spell_mark mark }
{
    match mark {
        Mark::Undecided => 0,
        Mark::Committed => 1,
        Mark::Aborted => 2,
    }
}

fn put_row(out: &mut Vec<u8>, row: &Row) -> Result<(), OutOfMemory>
    ensures ok { OnOk result (out.new.items ≡ out.old.items ++ spell_row row.now) }
    ensures err { OnErr result (Begins out.old.items out.new.items) }
{
    put_entry(out, &row.entry)?;
    put_byte(out, mark_byte(row.mark))
}

fn put_each_row(out: &mut Vec<u8>, rows: &[Row]) -> Result<(), OutOfMemory>
    ensures ok { OnOk result (out.new.items ≡ out.old.items ++ flat_map spell_row rows.now) }
    ensures err { OnErr result (Begins out.old.items out.new.items) }
{
    for row in rows {
        put_row(out, row)?;
    }
    Ok(())
}

#[tactic(auto, unfolding(crate::specs::Spelling::spell_rows))]
pub fn put_rows(out: &mut Vec<u8>, rows: &Rows) -> Result<(), OutOfMemory>
    ensures ok { OnOk result (out.new.items ≡ out.old.items ++ spell_rows rows.now) }
    ensures err { OnErr result (Begins out.old.items out.new.items) }
{
    let list = rows.list();
    put_u16(out, list.len() as u16)?;
    put_each_row(out, list)
}

#[tactic(auto, unfolding(crate::specs::Spelling::spell_config))]
pub fn put_config(out: &mut Vec<u8>, config: &Config) -> Result<(), OutOfMemory>
    ensures ok { OnOk result (out.new.items ≡ out.old.items ++ spell_config config.now) }
    ensures err { OnErr result (Begins out.old.items out.new.items) }
{
    put_byte(out, config.shard())?;
    put_u32(out, config.epoch())?;
    put_counted(out, config.members())?;
    put_byte(out, config.leader())?;
    put_byte(out, config.by())
}

fn put_cause(out: &mut Vec<u8>, cause: Cause) -> Result<(), OutOfMemory>
    ensures ok { OnOk result (out.new.items ≡ out.old.items ++ spell_cause cause) }
    ensures err { OnErr result (Begins out.old.items out.new.items) }
{
    match cause {
        Cause::Clash(txn) => {
            put_byte(out, 1)?;
            put_txn(out, txn)
        }
        Cause::Lost => put_byte(out, 2),
    }
}

pub fn put_decision(out: &mut Vec<u8>, decision: Decision) -> Result<(), OutOfMemory>
    ensures ok { OnOk result (out.new.items ≡ out.old.items ++ spell_decision decision) }
    ensures err { OnErr result (Begins out.old.items out.new.items) }
{
    match decision {
        Decision::Commit => put_byte(out, 0),
        Decision::Abort { shard, cause } => {
            put_byte(out, 1)?;
            put_byte(out, shard)?;
            put_cause(out, cause)
        }
    }
}
