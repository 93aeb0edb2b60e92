//! What values, payloads and rows are worth.

use crate::{Totals, amount, node_total, sums_of_rows};
use std::alloc::Global;
use std::test::Fail;
use tcs_terms::{
    Cause, Decision, Entry, Mark, Name, Note, Payload, ReadPart, Row, ShardSet, TxId, Value, Vote,
    WritePart,
};

/// The greatest amount, 1,099,511,627,775.
const GREATEST: [u8; 8] = [0, 0, 0, 255, 255, 255, 255, 255];

#[test]
fn a_value_of_eight_bytes_within_the_limit_is_an_amount(rt: HostRuntime) -> Result<(), Fail> {
    let alloc = rt.alloc();
    let table: [(&str, &[u8], u64); 7] = [
        ("n_x", &[0, 0, 0, 0, 0, 0, 0, 5], 5),
        ("n_x", &GREATEST, 1_099_511_627_775),
        ("n_x", &[0, 0, 1, 0, 0, 0, 0, 0], 0),
        ("n_x", &[0, 0, 0, 0, 0, 0, 5], 0),
        ("n_x", &[0, 0, 0, 0, 0, 0, 0, 5, 5], 0),
        ("n_x", &[], 0),
        ("n", &[0, 0, 0, 0, 0, 0, 0, 5], 0),
    ];
    for (name, value, expected) in table {
        let written = payload(alloc, name, value)?;
        let object = Name::build(alloc, name.as_bytes())?;
        assert_eq!(rt; amount(&written, &object), expected);
    }
    Ok(())
}

#[test]
fn committed_rows_alone_are_summed(rt: HostRuntime) -> Result<(), Fail> {
    let alloc = rt.alloc();
    let rows = [
        row(alloc, 1, &[0, 0, 0, 0, 0, 0, 0, 5], Mark::Committed)?,
        row(alloc, 2, &[0, 0, 0, 0, 0, 0, 0, 7], Mark::Undecided)?,
        row(alloc, 3, &[0, 0, 0, 0, 0, 0, 0, 9], Mark::Aborted)?,
        row(alloc, 4, &GREATEST, Mark::Committed)?,
    ];
    let counter = Name::build(alloc, b"n_x")?;
    let other = Name::build(alloc, b"n_y")?;
    assert_eq!(rt; node_total(&rows, &counter), 1_099_511_627_780);
    assert_eq!(rt; node_total(&rows, &other), 0);
    let sums = sums_of_rows(alloc, &rows)?;
    assert_eq!(rt; sums.get(&counter), Some(&1_099_511_627_780));
    assert_eq!(rt; sums.get(&other), None);
    Ok(())
}

/// A payload that writes one object.
fn payload(alloc: Global, name: &str, value: &[u8]) -> Result<Payload, Fail> {
    let mut reads = Vec::new(alloc);
    reads.push(ReadPart {
        name: Name::build(alloc, name.as_bytes())?,
        version: 0,
    })?;
    let mut writes = Vec::new(alloc);
    writes.push(WritePart {
        name: Name::build(alloc, name.as_bytes())?,
        value: Value::build(alloc, value)?,
    })?;
    Ok(Payload::build(reads, writes, 1)?)
}

/// The row of transaction 1.`slot`, which adds this value to `n_x`.
fn row(alloc: Global, slot: u16, value: &[u8], mark: Mark) -> Result<Row, Fail> {
    let entry = Entry {
        slot,
        txn: txn(slot),
        shards: ShardSet::build([1u8].to_vec(alloc)?)?,
        payload: Some(payload(alloc, "n_x", value)?),
        vote: Vote::Commit,
    };
    Ok(Row { entry, mark })
}

#[test]
fn a_history_counts_each_commit_once(rt: HostRuntime) -> Result<(), Fail> {
    let alloc = rt.alloc();
    let history = [
        begin(alloc, 1, &[0, 0, 0, 0, 0, 0, 0, 5])?,
        begin(alloc, 2, &[0, 0, 0, 0, 0, 0, 0, 7])?,
        begin(alloc, 3, &[0, 0, 0, 0, 0, 0, 0, 9])?,
        decide(1, Decision::Commit),
        decide(2, Decision::Commit),
        decide(1, Decision::Commit),
        decide(
            3,
            Decision::Abort {
                shard: 1,
                cause: Cause::Clash(txn(1)),
            },
        ),
    ];
    let mut totals = Totals::new(alloc);
    for note in &history {
        totals.saw(alloc, note)?;
    }
    let counter = Name::build(alloc, b"n_x")?;
    assert_eq!(rt; totals.of(&counter), 12);
    assert_eq!(rt; totals.sums().len(), 1);
    Ok(())
}

fn begin(alloc: Global, seq: u16, value: &[u8]) -> Result<Note, Fail> {
    Ok(Note::Begin {
        txn: txn(seq),
        payload: payload(alloc, "n_x", value)?,
    })
}

fn decide(seq: u16, decision: Decision) -> Note {
    Note::Decide {
        txn: txn(seq),
        decision,
    }
}

fn txn(seq: u16) -> TxId {
    TxId {
        home: 1,
        seq: u32::from(seq),
    }
}
