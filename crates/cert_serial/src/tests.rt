//! The votes of worked runs under the serial rule.

use crate::Serial;
use std::alloc::Global;
use std::test::Fail;
use tcs_laws::{ScanGuard, VoteGuard};
use tcs_terms::{
    Entry, Mark, Name, Payload, RangePart, ReadPart, Row, ShardSet, TxId, Value, Vote, WritePart,
};

#[test]
fn a_prepared_write_clashes(rt: HostRuntime) -> Result<(), Fail> {
    let alloc = rt.alloc();
    let rows = [row(
        alloc,
        1,
        payload(alloc, 1, &[("a", 0)], &[], &["a"])?,
        Mark::Undecided,
    )?];
    let new = payload(alloc, 1, &[("a", 0)], &[], &["a"])?;
    let guard = ScanGuard::<Serial>::fresh(alloc);
    assert_eq!(rt; guard.vote(&rows, &new), Vote::Clash(txn(1)));
    Ok(())
}

#[test]
fn a_committed_write_clashes_with_what_did_not_see_it(rt: HostRuntime) -> Result<(), Fail> {
    let alloc = rt.alloc();
    let rows = [
        row(
            alloc,
            1,
            payload(alloc, 1, &[("a", 0)], &[], &["a"])?,
            Mark::Committed,
        )?,
        row(
            alloc,
            2,
            payload(alloc, 2, &[("a", 1)], &[], &["a"])?,
            Mark::Undecided,
        )?,
    ];
    let seeing = payload(alloc, 2, &[("a", 1)], &[], &["a"])?;
    let missing = payload(alloc, 2, &[("a", 0)], &[], &[])?;
    let guard = ScanGuard::<Serial>::fresh(alloc);
    assert_eq!(rt; guard.vote(&rows[..1], &seeing), Vote::Commit);
    assert_eq!(rt; guard.vote(&rows, &missing), Vote::Clash(txn(1)));
    Ok(())
}

#[test]
fn write_skew_clashes(rt: HostRuntime) -> Result<(), Fail> {
    let alloc = rt.alloc();
    let rows = [row(
        alloc,
        1,
        payload(alloc, 1, &[("a", 0), ("b", 0)], &[], &["a"])?,
        Mark::Undecided,
    )?];
    let new = payload(alloc, 1, &[("a", 0), ("b", 0)], &[], &["b"])?;
    let guard = ScanGuard::<Serial>::fresh(alloc);
    assert_eq!(rt; guard.vote(&rows, &new), Vote::Clash(txn(1)));
    Ok(())
}

#[test]
fn a_range_sees_what_is_not_read_by_name(rt: HostRuntime) -> Result<(), Fail> {
    let alloc = rt.alloc();
    let undecided = [row(
        alloc,
        1,
        payload(alloc, 1, &[("b", 0)], &[], &["b"])?,
        Mark::Undecided,
    )?];
    let committed = [row(
        alloc,
        1,
        payload(alloc, 1, &[("b", 0)], &[], &["b"])?,
        Mark::Committed,
    )?];
    let by_range = payload(alloc, 1, &[], &[("a", "c", 0)], &[])?;
    let by_name = payload(alloc, 2, &[("b", 1)], &[("a", "c", 0)], &[])?;
    let beside = payload(alloc, 2, &[], &[("a", "b", 0)], &[])?;
    let guard = ScanGuard::<Serial>::fresh(alloc);
    assert_eq!(rt; guard.vote(&undecided, &by_range), Vote::Clash(txn(1)));
    assert_eq!(rt; guard.vote(&committed, &by_name), Vote::Commit);
    assert_eq!(rt; guard.vote(&committed, &beside), Vote::Commit);
    Ok(())
}

/// A payload of objects read, ranges read, and objects written, each with a value of no bytes.
fn payload(
    alloc: Global,
    version: u64,
    reads: &[(&str, u64)],
    ranges: &[(&str, &str, u64)],
    writes: &[&str],
) -> Result<Payload, Fail> {
    let mut read_parts = Vec::new(alloc);
    for (name, version) in reads {
        let name = Name::build(alloc, name.as_bytes())?;
        read_parts.push(ReadPart {
            name,
            version: *version,
        })?;
    }
    let mut range_parts = Vec::new(alloc);
    for (from, upto, version) in ranges {
        let from = Name::build(alloc, from.as_bytes())?;
        let upto = Name::build(alloc, upto.as_bytes())?;
        range_parts.push(RangePart {
            from,
            upto,
            version: *version,
        })?;
    }
    let mut write_parts = Vec::new(alloc);
    for name in writes {
        let name = Name::build(alloc, name.as_bytes())?;
        let value = Value::build(alloc, b"")?;
        write_parts.push(WritePart { name, value })?;
    }
    Ok(Payload::build_ranges(read_parts, range_parts, write_parts, version)?)
}

/// The row of transaction 1.`slot`, which voted to commit.
fn row(alloc: Global, slot: u16, payload: Payload, mark: Mark) -> Result<Row, Fail> {
    let shards = ShardSet::build([1u8].to_vec(alloc)?)?;
    let entry = Entry {
        slot,
        txn: txn(slot),
        shards,
        payload: Some(payload),
        vote: Vote::Commit,
    };
    Ok(Row { entry, mark })
}

fn txn(slot: u16) -> TxId {
    TxId {
        home: 1,
        seq: u32::from(slot),
    }
}
