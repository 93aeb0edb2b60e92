//! Every printed form once.
use std::alloc::Global;
use std::test::Fail;
use tcs_terms::{
    Cause, Config, Decision, Handled, Name, Note, Payload, RangePart, ReadPart, Result1, Rule,
    Setup, TxId, Value, WritePart,
};
use trace_text::{
    print_happening, print_head, print_kind, print_message, print_result, print_tail,
};

const PRINTED: &str = "before trace 1 serial 1
trace 2 snapshot 1
trace 2 commute 1
acted/stale 2/held 4294967295/full/gone/unsent/
e 12 gone
begin 1.3 v 2 r b 1 q a c 0 w b 05
take 64.7
read a 0 -
read b_2 18446744073709551615 00ff
decide 3.1 commit
decide 3.1 abort 1 clash 2.1000000
decide 3.1 abort 16 lost
PREPARE PREPARE_ACK ACCEPT ACCEPT_ACK DECISION PROBE PROBE_ACK NEW_CONFIG NEW_STATE \
CONFIG_CHANGE LAST AT CAS STORED OUTCOME REFUSED STATE_PIECE 
m 7 64 0 LAST 0b01
order -
end 0 7
order 1.1 2.3
end 4294967295 0
";

fn setup_of(alloc: Global, version: u8, rule: Rule) -> Result<Setup, Fail> {
    let nodes = Vec::from_slice(alloc, &[1, 1])?;
    let members = Vec::from_slice(alloc, &[1, 2])?;
    let mut configs = Vec::new(alloc);
    configs.push(Config::build(1, 1, members, 1, 0)?)?;
    Ok(Setup::build_version(version, rule, 1, nodes, configs)?)
}

fn txn(home: u8, seq: u32) -> TxId {
    TxId { home, seq }
}

/// A payload that reads an object and a range, and writes the object.
fn payload_of(alloc: Global) -> Result<Payload, Fail> {
    let mut reads = Vec::new(alloc);
    let name = Name::build(alloc, b"b")?;
    reads.push(ReadPart { name, version: 1 })?;
    let mut ranges = Vec::new(alloc);
    let from = Name::build(alloc, b"a")?;
    let upto = Name::build(alloc, b"c")?;
    ranges.push(RangePart {
        from,
        upto,
        version: 0,
    })?;
    let mut writes = Vec::new(alloc);
    let name = Name::build(alloc, b"b")?;
    let value = Value::build(alloc, &[5])?;
    writes.push(WritePart { name, value })?;
    Ok(Payload::build_ranges(reads, ranges, writes, 2)?)
}

fn notes_of(alloc: Global) -> Result<Vec<Note>, Fail> {
    let mut notes = Vec::new(alloc);
    let payload = payload_of(alloc)?;
    notes.push(Note::Begin {
        txn: txn(1, 3),
        payload,
    })?;
    notes.push(Note::Take { txn: txn(64, 7) })?;
    for (name, version, value) in [
        (b"a".as_slice(), 0, b"".as_slice()),
        (b"b_2", u64::MAX, &[0, 255]),
    ] {
        let name = Name::build(alloc, name)?;
        let value = Value::build(alloc, value)?;
        notes.push(Note::ReadValue {
            name,
            version,
            value,
        })?;
    }
    let clash = Cause::Clash(txn(2, 1_000_000));
    for decision in [
        Decision::Commit,
        Decision::Abort {
            shard: 1,
            cause: clash,
        },
        Decision::Abort {
            shard: 16,
            cause: Cause::Lost,
        },
    ] {
        notes.push(Note::Decide {
            txn: txn(3, 1),
            decision,
        })?;
    }
    Ok(notes)
}

fn print_lines(alloc: Global, out: &mut Vec<u8>) -> Result<(), Fail> {
    for (version, rule) in [(1, Rule::Serial), (2, Rule::Snapshot), (2, Rule::Commute)] {
        print_head(&setup_of(alloc, version, rule)?, out)?;
    }
    for result1 in [
        Result1::Node(Handled::Acted),
        Result1::Node(Handled::Stale(2)),
        Result1::Node(Handled::Held(u32::MAX)),
        Result1::Node(Handled::Full),
        Result1::Gone,
        Result1::Unsent,
    ] {
        print_result(&result1, out)?;
        out.push(b'/')?;
    }
    out.push(b'\n')?;
    print_happening(12, &Result1::Gone, &notes_of(alloc)?, out)?;
    for kind in 1..18 {
        print_kind(kind, out)?;
        out.push(b' ')?;
    }
    out.push(b'\n')?;
    print_message(7, 64, 0, &[11, 1], out)?;
    print_tail(&[], 0, 7, out)?;
    Ok(print_tail(&[txn(1, 1), txn(2, 3)], u32::MAX, 0, out)?)
}

#[test]
fn each_form(rt: HostRuntime) -> Result<(), Fail> {
    let mut out = b"before ".to_vec(rt.alloc())?;
    print_lines(rt.alloc(), &mut out)?;
    assert_eq!(rt; out.as_slice(), PRINTED.as_bytes());
    Ok(())
}
