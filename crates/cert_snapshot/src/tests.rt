//! The votes of worked runs under the snapshot rule.

use crate::Snapshot;
use std::alloc::Global;
use std::test::Fail;
use tcs_laws::{ScanGuard, VoteGuard};
use tcs_terms::{
    Entry, Mark, Name, Payload, ReadPart, Row, ShardSet, TxId, Value, Vote, WritePart,
};

#[test]
fn writes_of_one_object_clash_and_write_skew_does_not(rt: HostRuntime) -> Result<(), Fail> {
    let alloc = rt.alloc();
    let rows = [row(
        alloc,
        1,
        payload(alloc, 1, &[("a", 0), ("b", 0)], &["a"])?,
        Mark::Undecided,
    )?];
    let skewed = payload(alloc, 1, &[("a", 0), ("b", 0)], &["b"])?;
    let again = payload(alloc, 1, &[("a", 0)], &["a"])?;
    let guard = ScanGuard::<Snapshot>::fresh(alloc);
    assert_eq!(rt; guard.vote(&rows, &skewed), Vote::Commit);
    assert_eq!(rt; guard.vote(&rows, &again), Vote::Clash(txn(1)));
    Ok(())
}

#[test]
fn a_committed_write_clashes_with_a_write_that_did_not_see_it(rt: HostRuntime) -> Result<(), Fail> {
    let alloc = rt.alloc();
    let rows = [row(
        alloc,
        1,
        payload(alloc, 1, &[("a", 0)], &["a"])?,
        Mark::Committed,
    )?];
    let reading = payload(alloc, 2, &[("a", 0)], &[])?;
    let missing = payload(alloc, 2, &[("a", 0)], &["a"])?;
    let seeing = payload(alloc, 2, &[("a", 1)], &["a"])?;
    let guard = ScanGuard::<Snapshot>::fresh(alloc);
    assert_eq!(rt; guard.vote(&rows, &reading), Vote::Commit);
    assert_eq!(rt; guard.vote(&rows, &missing), Vote::Clash(txn(1)));
    assert_eq!(rt; guard.vote(&rows, &seeing), Vote::Commit);
    Ok(())
}

/// A payload of objects read and objects written, each with a value of no bytes.
fn payload(
    alloc: Global,
    version: u64,
    reads: &[(&str, u64)],
    writes: &[&str],
) -> Result<Payload, Fail> {
    let mut read_parts = Vec::new(alloc);
    for (name, version) in reads {
        let name = Name::build(alloc, name.as_bytes())?;
        read_parts.push(ReadPart {
            name,
            version: *version,
        })?;
    }
    let mut write_parts = Vec::new(alloc);
    for name in writes {
        let name = Name::build(alloc, name.as_bytes())?;
        let value = Value::build(alloc, b"")?;
        write_parts.push(WritePart { name, value })?;
    }
    Ok(Payload::build(read_parts, write_parts, version)?)
}

/// The row of transaction 1.`slot`, which voted to commit.
fn row(alloc: Global, slot: u16, payload: Payload, mark: Mark) -> Result<Row, Fail> {
    let shards = ShardSet::build([1u8].to_vec(alloc)?)?;
    let entry = Entry {
        slot,
        txn: txn(slot),
        shards,
        payload: Some(payload),
        vote: Vote::Commit,
    };
    Ok(Row { entry, mark })
}

fn txn(slot: u16) -> TxId {
    TxId {
        home: 1,
        seq: u32::from(slot),
    }
}
