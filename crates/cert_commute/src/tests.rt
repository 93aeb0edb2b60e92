//! The votes of worked runs under the commuting rule.

use crate::Commute;
use std::alloc::Global;
use std::test::Fail;
use tcs_laws::{ScanGuard, VoteGuard};
use tcs_terms::{
    Entry, Mark, Name, Payload, ReadPart, Row, ShardSet, TxId, Value, Vote, WritePart,
};

#[test]
fn additions_commute_and_reads_do_not(rt: HostRuntime) -> Result<(), Fail> {
    let alloc = rt.alloc();
    let undecided = [row(
        alloc,
        1,
        payload(alloc, 1, &[("n_x", 0)], &["n_x"])?,
        Mark::Undecided,
    )?];
    let committed = [
        row(
            alloc,
            1,
            payload(alloc, 1, &[("n_x", 0)], &["n_x"])?,
            Mark::Committed,
        )?,
        row(
            alloc,
            2,
            payload(alloc, 1, &[("n_x", 0)], &["n_x"])?,
            Mark::Committed,
        )?,
    ];
    let adding = payload(alloc, 1, &[("n_x", 0)], &["n_x"])?;
    let reading = payload(alloc, 1, &[("n_x", 0)], &[])?;
    let guard = ScanGuard::<Commute>::fresh(alloc);
    assert_eq!(rt; guard.vote(&undecided, &adding), Vote::Commit);
    assert_eq!(rt; guard.vote(&committed, &adding), Vote::Commit);
    assert_eq!(rt; guard.vote(&committed, &reading), Vote::Clash(txn(1)));
    Ok(())
}

#[test]
fn an_object_that_is_no_counter_clashes(rt: HostRuntime) -> Result<(), Fail> {
    let alloc = rt.alloc();
    let rows = [row(
        alloc,
        1,
        payload(alloc, 1, &[("n", 0)], &["n"])?,
        Mark::Undecided,
    )?];
    let again = payload(alloc, 1, &[("n", 0)], &["n"])?;
    let guard = ScanGuard::<Commute>::fresh(alloc);
    assert_eq!(rt; guard.vote(&rows, &again), Vote::Clash(txn(1)));
    Ok(())
}

/// A payload of objects read and objects written, each with a value of no bytes.
fn payload(
    alloc: Global,
    version: u64,
    reads: &[(&str, u64)],
    writes: &[&str],
) -> Result<Payload, Fail> {
    let mut read_parts = Vec::new(alloc);
    for (name, version) in reads {
        let name = Name::build(alloc, name.as_bytes())?;
        read_parts.push(ReadPart {
            name,
            version: *version,
        })?;
    }
    let mut write_parts = Vec::new(alloc);
    for name in writes {
        let name = Name::build(alloc, name.as_bytes())?;
        let value = Value::build(alloc, b"")?;
        write_parts.push(WritePart { name, value })?;
    }
    Ok(Payload::build(read_parts, write_parts, version)?)
}

/// The row of transaction 1.`slot`, which voted to commit.
fn row(alloc: Global, slot: u16, payload: Payload, mark: Mark) -> Result<Row, Fail> {
    let shards = ShardSet::build([1u8].to_vec(alloc)?)?;
    let entry = Entry {
        slot,
        txn: txn(slot),
        shards,
        payload: Some(payload),
        vote: Vote::Commit,
    };
    Ok(Row { entry, mark })
}

fn txn(slot: u16) -> TxId {
    TxId {
        home: 1,
        seq: u32::from(slot),
    }
}
