use crate::{Backup, BackupFault};
use std::alloc::Global;
use std::test::Fail;
use tcs_terms::{Cause, Decision, Name, TxId, Value};

fn name(alloc: Global, bytes: &[u8]) -> Result<Name, Fail> {
    Ok(Name::build(alloc, bytes)?)
}

/// A backup of the range from `a` to below `c`, given `a` with value 5 and `b` with value 6, both at version 1.
fn of_two(alloc: Global, width: u8) -> Result<Backup, Fail> {
    let mut backup = Backup::new(alloc, name(alloc, b"a")?, name(alloc, b"c")?, width)?;
    backup.on_value(name(alloc, b"a")?, 1, Value::build(alloc, &[5])?)?;
    backup.on_value(name(alloc, b"b")?, 1, Value::build(alloc, &[6])?)?;
    Ok(backup)
}

#[test]
fn a_slice_reads_its_objects_and_its_range(rt: HostRuntime) -> Result<(), Fail> {
    let mut backup = of_two(rt.alloc(), 2)?;
    let payloads = backup.payloads()?;
    assert_eq!(rt; payloads.len(), 1);
    let payload = &payloads[0];
    assert_eq!(rt; (payload.version(), payload.writes().len()), (2, 0));
    assert_eq!(rt; (payload.reads().len(), payload.ranges().len()), (2, 1));
    for (read, bytes) in payload
        .reads()
        .iter()
        .zip([b"a".as_slice(), b"b".as_slice()])
    {
        assert_eq!(rt; (read.name.bytes(), read.version), (bytes, 1));
    }
    for range in payload.ranges() {
        assert_eq!(rt; range.from.bytes(), b"a".as_slice());
        assert_eq!(rt; (range.upto.bytes(), range.version), (b"c".as_slice(), 0));
    }
    Ok(())
}

#[test]
fn what_commits_is_the_file(rt: HostRuntime) -> Result<(), Fail> {
    let mut backup = of_two(rt.alloc(), 2)?;
    let _payloads = backup.payloads()?;
    assert_eq!(rt; backup.file().is_none(), true);
    backup.on_outcome(1, Decision::Commit)?;
    assert_eq!(rt;
        backup.on_outcome(1, Decision::Commit),
        Err(BackupFault::NotWaiting)
    );
    let kept = backup.file().ok_or(BackupFault::NotWaiting)?;
    assert_eq!(rt; kept.len(), 2);
    if let Some(object) = kept.last() {
        assert_eq!(rt; object.name.bytes(), b"b".as_slice());
        assert_eq!(rt; object.value.bytes(), b"\x06".as_slice());
        assert_eq!(rt; object.version, 1);
    }
    Ok(())
}

#[test]
fn a_slice_that_aborts_leaves_no_file(rt: HostRuntime) -> Result<(), Fail> {
    let mut backup = of_two(rt.alloc(), 1)?;
    assert_eq!(rt; backup.payloads()?.len(), 2);
    assert_eq!(rt; backup.payloads().map(|_| ()), Err(BackupFault::NotActive));
    let abort = Decision::Abort {
        shard: 1,
        cause: Cause::Clash(TxId { home: 1, seq: 1 }),
    };
    for (slice, decision, want) in [
        (0, Decision::Commit, Err(BackupFault::NotWaiting)),
        (3, Decision::Commit, Err(BackupFault::NotWaiting)),
        (2, abort, Ok(())),
        (1, Decision::Commit, Ok(())),
    ] {
        assert_eq!(rt; backup.on_outcome(slice, decision), want);
    }
    assert_eq!(rt; backup.file().is_none(), true);
    Ok(())
}

#[test]
fn values_and_ranges_are_refused(rt: HostRuntime) -> Result<(), Fail> {
    let alloc = rt.alloc();
    for (from, upto, width, want) in [
        (b"b".as_slice(), b"b".as_slice(), 0, BackupFault::Span),
        (b"a".as_slice(), b"b".as_slice(), 0, BackupFault::Width),
        (b"a".as_slice(), b"b".as_slice(), 17, BackupFault::Width),
    ] {
        let made = Backup::new(alloc, name(alloc, from)?, name(alloc, upto)?, width);
        assert_eq!(rt; made.map(|_| ()), Err(want));
    }
    let mut backup = Backup::new(alloc, name(alloc, b"b")?, name(alloc, b"d")?, 16)?;
    for (read, version, want) in [
        (b"a".as_slice(), 1, Err(BackupFault::Outside)),
        (b"d".as_slice(), 1, Err(BackupFault::Outside)),
        (b"c".as_slice(), 0, Ok(())),
        (b"c".as_slice(), 1, Err(BackupFault::Order)),
        (b"c0".as_slice(), u64::MAX, Err(BackupFault::VersionSpent)),
        (b"c0".as_slice(), 1, Ok(())),
    ] {
        assert_eq!(rt;
            backup.on_value(name(alloc, read)?, version, Value::build(alloc, b"")?),
            want
        );
    }
    let payloads = backup.payloads()?;
    assert_eq!(rt; (payloads.len(), payloads[0].reads().len()), (1, 1));
    Ok(())
}
