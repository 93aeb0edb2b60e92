//! Reads of one object, as the rows that write it are committed.

use crate::VersionStore;
use std::alloc::Global;
use std::test::Fail;
use tcs_terms::{
    Entry, Mark, Name, Payload, ReadPart, Row, ShardSet, Slot, TxId, Value, Vote, WritePart,
};

#[test]
fn a_read_tells_the_committed_value(rt: HostRuntime) -> Result<(), Fail> {
    let alloc = rt.alloc();
    let mut rows = [row(alloc, 1, 1, 5)?];
    let mut store = VersionStore::build(alloc, &rows)?;
    assert_eq!(rt; read_a(alloc, &store)?, (0, None));
    store.committed(alloc, &rows[0])?;
    assert_eq!(rt; read_a(alloc, &store)?, (1, Some(5)));
    rows[0].mark = Mark::Committed;
    let anew = VersionStore::build(alloc, &rows)?;
    assert_eq!(rt; read_a(alloc, &anew)?, (1, Some(5)));
    Ok(())
}

#[test]
fn the_greatest_version_is_read_and_its_lowest_slot(rt: HostRuntime) -> Result<(), Fail> {
    let alloc = rt.alloc();
    let mut store = VersionStore::new(alloc);
    for (slot, version, read) in [
        (2u8, 1, (1, 2)),
        (1, 1, (1, 1)),
        (4, 3, (3, 4)),
        (3, 2, (3, 4)),
    ] {
        store.committed(alloc, &row(alloc, Slot::from(slot), version, slot)?)?;
        let (version, value) = read;
        assert_eq!(rt;
            read_a(alloc, &store)?,
            (version, Some(value)),
            "after slot {slot}"
        );
    }
    Ok(())
}

/// The version that is read of object `a`, and the first byte of the value.
fn read_a(alloc: Global, store: &VersionStore) -> Result<(u64, Option<u8>), Fail> {
    let name = Name::build(alloc, b"a")?;
    let reading = store.read(&name);
    let first = match reading.value {
        None => None,
        Some(value) => value.bytes().first().copied(),
    };
    Ok((reading.version, first))
}

/// The undecided row of transaction 1.`slot`, which wrote one byte to object `a`.
fn row(alloc: Global, slot: Slot, version: u64, byte: u8) -> Result<Row, Fail> {
    let mut reads = Vec::new(alloc);
    let name = Name::build(alloc, b"a")?;
    reads.push(ReadPart { name, version: 0 })?;
    let mut writes = Vec::new(alloc);
    let name = Name::build(alloc, b"a")?;
    let value = Value::build(alloc, &[byte])?;
    writes.push(WritePart { name, value })?;
    let txn = TxId {
        home: 1,
        seq: u32::from(slot),
    };
    let entry = Entry {
        slot,
        txn,
        shards: ShardSet::build([1u8].to_vec(alloc)?)?,
        payload: Some(Payload::build(reads, writes, version)?),
        vote: Vote::Commit,
    };
    Ok(Row {
        entry,
        mark: Mark::Undecided,
    })
}
