//! Votes by the index over one row, before and after it is decided.
ghost use Rattle.std.specs.Prelude.{◌≡◌, IfOk};
ghost use Rattle.tcs_terms.specs.declared.logs.Mark.TheVariants.{Undecided};

use crate::ConflictIndex;
use cert_commute::Commute;
use cert_serial::Serial;
use cert_snapshot::Snapshot;
use std::alloc::Global;
use std::test::Fail;
use tcs_laws::{BySight, VoteGuard};
use tcs_terms::{
    Entry, Mark, Name, Payload, RangePart, ReadPart, Row, ShardSet, TxId, Value, Vote, WritePart,
};

#[test]
fn serial_votes_follow_the_marks(rt: HostRuntime) -> Result<(), Fail> {
    let alloc = rt.alloc();
    let clash = Vote::Clash(txn(1));
    for (version, mark, before, after) in [
        (0, Mark::Committed, clash, clash),
        (1, Mark::Committed, clash, Vote::Commit),
        (0, Mark::Aborted, clash, Vote::Commit),
    ] {
        let old = row(alloc, 1, payload(alloc, 1, &[("a", 0)], &[], &["a"])?)?;
        let new = payload(alloc, 2, &[("a", version)], &[], &[])?;
        let votes = votes_over::<Serial>(alloc, old, &new, mark)?;
        assert_eq!(rt; votes, (before, after), "at version {version}");
    }
    Ok(())
}

#[test]
fn serial_votes_see_ranges(rt: HostRuntime) -> Result<(), Fail> {
    let alloc = rt.alloc();
    let clash = Vote::Clash(txn(1));
    for (upto, before) in [("c", clash), ("b", Vote::Commit)] {
        let written = row(alloc, 1, payload(alloc, 1, &[("b", 0)], &[], &["b"])?)?;
        let ranging = payload(alloc, 1, &[], &[("a", upto, 0)], &[])?;
        let votes = votes_over::<Serial>(alloc, written, &ranging, Mark::Aborted)?;
        assert_eq!(rt; votes, (before, Vote::Commit), "up to {upto}");
        let ranged = row(alloc, 1, payload(alloc, 1, &[], &[("a", upto, 0)], &[])?)?;
        let writing = payload(alloc, 1, &[("b", 0)], &[], &["b"])?;
        let votes = votes_over::<Serial>(alloc, ranged, &writing, Mark::Committed)?;
        assert_eq!(rt; votes, (before, Vote::Commit), "from a range up to {upto}");
    }
    Ok(())
}

#[test]
fn other_rules_have_their_votes(rt: HostRuntime) -> Result<(), Fail> {
    let alloc = rt.alloc();
    let clash = Vote::Clash(txn(1));
    let old = row(
        alloc,
        1,
        payload(alloc, 1, &[("a", 0), ("b", 0)], &[], &["a"])?,
    )?;
    let skewed = payload(alloc, 1, &[("a", 0), ("b", 0)], &[], &["b"])?;
    let votes = votes_over::<Snapshot>(alloc, old, &skewed, Mark::Committed)?;
    assert_eq!(rt; votes, (Vote::Commit, Vote::Commit));
    let old = row(alloc, 1, payload(alloc, 1, &[("n_x", 0)], &[], &["n_x"])?)?;
    let adding = payload(alloc, 1, &[("n_x", 0)], &[], &["n_x"])?;
    let votes = votes_over::<Commute>(alloc, old, &adding, Mark::Committed)?;
    assert_eq!(rt; votes, (Vote::Commit, Vote::Commit));
    let old = row(alloc, 1, payload(alloc, 1, &[("n_x", 0)], &[], &["n_x"])?)?;
    let reading = payload(alloc, 1, &[("n_x", 0)], &[], &[])?;
    let votes = votes_over::<Commute>(alloc, old, &reading, Mark::Committed)?;
    assert_eq!(rt; votes, (clash, clash));
    Ok(())
}

/// The votes on a payload over one row, undecided and with a mark.
fn votes_over<C: BySight>(
    alloc: Global,
    row: Row,
    new: &Payload,
    mark: Mark,
) -> Result<(Vote, Vote), Fail>
    requires { row.mark ≡ Undecided }
{
    let mut index = ConflictIndex::<C>::fresh(alloc);
    let mut rows = [row];
    index.prepared(&rows[0])?;
    let before = index.vote(&rows, new);
    index.decided(&rows[0], mark);
    rows[0].mark = mark;
    let after = index.vote(&rows, new);
    Ok((before, after))
}

/// A payload of objects read, ranges read, and objects written, each with a value of no bytes.
fn payload(
    alloc: Global,
    version: u64,
    reads: &[(&str, u64)],
    ranges: &[(&str, &str, u64)],
    writes: &[&str],
) -> Result<Payload, Fail> {
    let mut read_parts = Vec::new(alloc);
    for (name, version) in reads {
        let name = Name::build(alloc, name.as_bytes())?;
        read_parts.push(ReadPart {
            name,
            version: *version,
        })?;
    }
    let mut range_parts = Vec::new(alloc);
    for (from, upto, version) in ranges {
        let from = Name::build(alloc, from.as_bytes())?;
        let upto = Name::build(alloc, upto.as_bytes())?;
        range_parts.push(RangePart {
            from,
            upto,
            version: *version,
        })?;
    }
    let mut write_parts = Vec::new(alloc);
    for name in writes {
        let name = Name::build(alloc, name.as_bytes())?;
        let value = Value::build(alloc, b"")?;
        write_parts.push(WritePart { name, value })?;
    }
    Ok(Payload::build_ranges(read_parts, range_parts, write_parts, version)?)
}

/// The row of transaction 1.`slot`, which voted to commit and is undecided.
fn row(alloc: Global, slot: u16, payload: Payload) -> Result<Row, Fail>
    ensures { IfOk result (λ r. r.mark ≡ Undecided) }
{
    let shards = ShardSet::build([1u8].to_vec(alloc)?)?;
    let entry = Entry {
        slot,
        txn: txn(slot),
        shards,
        payload: Some(payload),
        vote: Vote::Commit,
    };
    Ok(Row {
        entry,
        mark: Mark::Undecided,
    })
}

fn txn(slot: u16) -> TxId {
    TxId {
        home: 1,
        seq: u32::from(slot),
    }
}
