//! A leader's log, a follower's, and a full one.
ghost use Rattle.std.specs.Prelude.{◌≡◌, IfOk};

use crate::{CertLog, PrepareFault};
use cert_serial::Serial;
use std::alloc::Global;
use std::test::Fail;
use tcs_laws::ScanGuard;
use tcs_terms::limits::MAX_SLOT;
use tcs_terms::{
    Entry, Mark, Name, Payload, ReadPart, Row, ShardSet, Slot, TxId, Value, Vote, WritePart,
};

type SerialLog = CertLog<ScanGuard<Serial>>;

#[test]
fn leader_prepares_each_transaction_once(rt: HostRuntime) -> Result<(), Fail> {
    let alloc = rt.alloc();
    let mut log = SerialLog::new(alloc);
    for (seq, want) in [
        (1, (1, Vote::Commit)),
        (2, (2, Vote::Clash(txn(1)))),
        (1, (1, Vote::Commit)),
    ] {
        let made = prepare(alloc, &mut log, seq)?;
        assert_eq!(rt; made, want, "of transaction {seq}");
    }
    Ok(())
}

#[test]
fn follower_accepts_in_any_order_and_marks_once(rt: HostRuntime) -> Result<(), Fail> {
    let alloc = rt.alloc();
    let mut log = SerialLog::new(alloc);
    for (slot, seq, want) in [(2, 2, true), (1, 1, true), (2, 3, false), (3, 2, false)] {
        let accepted = accept(alloc, &mut log, slot, seq)?;
        assert_eq!(rt; accepted, want, "of transaction {seq} at slot {slot}");
    }
    log.mark(2, true);
    log.mark(2, false);
    assert!(rt; log.has_at(1, txn(1)) && !log.has_at(1, txn(2)));
    assert!(rt; has_mark(&log, 1, Mark::Undecided) && has_mark(&log, 2, Mark::Committed));
    Ok(())
}

#[test]
fn full_log_refuses_new_transactions_alone(rt: HostRuntime) -> Result<(), Fail> {
    let alloc = rt.alloc();
    let mut log = full_log(alloc)?;
    assert!(rt; log.is_full() && log.rows().len() == 1);
    let kept = prepare(alloc, &mut log, 1)?;
    assert_eq!(rt; kept, (MAX_SLOT, Vote::Lost));
    let part = payload(alloc)?;
    let refused = log.prepare(alloc, txn(2), shards(alloc)?, Some(part));
    assert!(rt; matches!(refused, Err(PrepareFault::Full)));
    Ok(())
}

/// Prepares transaction 1.`seq` with a payload, and gives its slot and vote.
fn prepare(alloc: Global, log: &mut SerialLog, seq: u16) -> Result<(Slot, Vote), Fail> {
    let part = payload(alloc)?;
    let entry = log.prepare(alloc, txn(seq), shards(alloc)?, Some(part))?;
    Ok((entry.slot, entry.vote))
}

/// Whether the entry of a transaction that was lost is accepted at a slot.
fn accept(alloc: Global, log: &mut SerialLog, slot: Slot, seq: u16) -> Result<bool, Fail> {
    let entry = lost_entry(alloc, slot, seq)?;
    let fits = (1..=MAX_SLOT).contains(&slot) && !log.is_taken(&entry);
    if fits {
        log.accept(entry)?;
    }
    Ok(fits)
}

fn has_mark(log: &SerialLog, seq: u16, mark: Mark) -> bool {
    match log.row_of(txn(seq)) {
        None => false,
        Some(row) => row.mark == mark,
    }
}

/// The log with a row in the last slot alone.
fn full_log(alloc: Global) -> Result<SerialLog, Fail> {
    let row = Row {
        entry: lost_entry(alloc, MAX_SLOT, 1)?,
        mark: Mark::Aborted,
    };
    Ok(SerialLog::from_rows(alloc, vec![in alloc; row]?)?)
}

/// The entry of transaction 1.`seq`, which lost its payload.
fn lost_entry(alloc: Global, slot: Slot, seq: u16) -> Result<Entry, Fail>
    ensures { IfOk result (λ e. e.slot ≡ slot) }
{
    Ok(Entry {
        slot,
        txn: txn(seq),
        shards: shards(alloc)?,
        payload: None,
        vote: Vote::Lost,
    })
}

/// A payload that reads object a at version 0 and writes it at version 1.
fn payload(alloc: Global) -> Result<Payload, Fail> {
    let mut reads = Vec::new(alloc);
    reads.push(ReadPart {
        name: Name::build(alloc, b"a")?,
        version: 0,
    })?;
    let mut writes = Vec::new(alloc);
    writes.push(WritePart {
        name: Name::build(alloc, b"a")?,
        value: Value::build(alloc, &[5])?,
    })?;
    Ok(Payload::build_ranges(reads, Vec::new(alloc), writes, 1)?)
}

fn shards(alloc: Global) -> Result<ShardSet, Fail> {
    Ok(ShardSet::build([1u8].to_vec(alloc)?)?)
}

fn txn(seq: u16) -> TxId {
    TxId {
        home: 1,
        seq: u32::from(seq),
    }
}
