//! A leader from its first epoch to the next one that it leads.
ghost use Rattle.std.specs.Prelude.{◌≡◌, IfOk};

use crate::{Leader, first_leader, lead};
use cert_serial::Serial;
use std::alloc::Global;
use std::test::Fail;
use tcs_laws::ScanGuard;
use tcs_terms::{
    Config, Epoch, Mark, Name, Payload, ReadPart, ShardSet, TxId, Value, Vote, WritePart,
};

type SerialLeader = Leader<ScanGuard<Serial>>;

/// Each transaction is prepared once, over the rows before it, in both epochs; a mark frees the object that it wrote.
#[test]
fn a_leader_goes_on_with_its_rows(rt: HostRuntime) -> Result<(), Fail> {
    let alloc = rt.alloc();
    let mut leader: SerialLeader = first_leader(alloc, config(alloc, 1)?);
    assert_eq!(rt; vote(alloc, &mut leader, 1)?, (1, Vote::Commit));
    assert_eq!(rt; vote(alloc, &mut leader, 2)?, (2, Vote::Clash(txn(1))));
    leader.mark(1, false);

    let fenced = leader.fence(2);
    assert_eq!(rt; (fenced.state(), fenced.promised()), (1, 2));
    let mut leader = lead(fenced, config(alloc, 2)?);
    assert_eq!(rt; leader.config().epoch(), 2);
    for (seq, want) in [(2, (2, Vote::Clash(txn(1)))), (3, (3, Vote::Commit))] {
        assert_eq!(rt;
            vote(alloc, &mut leader, seq)?,
            want,
            "of transaction {seq}"
        );
    }
    assert!(rt; matches!(leader.log().at(1), Some(row) if row.mark == Mark::Aborted));
    Ok(())
}

/// Prepares transaction 1.`seq`, and gives its slot and vote.
fn vote(alloc: Global, leader: &mut SerialLeader, seq: u32) -> Result<(u16, Vote), Fail>
    ensures { IfOk result (λ _. leader.new.config ≡ leader.old.config) }
{
    let part = payload(alloc)?;
    let shards = ShardSet::build([1u8].to_vec(alloc)?)?;
    let entry = leader.prepare(alloc, txn(seq), shards, Some(part))?;
    Ok((entry.slot, entry.vote))
}

/// A payload that reads object a at version 0 and writes it at version 1.
fn payload(alloc: Global) -> Result<Payload, Fail> {
    let mut reads = Vec::new(alloc);
    reads.push(ReadPart {
        name: Name::build(alloc, b"a")?,
        version: 0,
    })?;
    let mut writes = Vec::new(alloc);
    writes.push(WritePart {
        name: Name::build(alloc, b"a")?,
        value: Value::build(alloc, &[5])?,
    })?;
    Ok(Payload::build(reads, writes, 1)?)
}

fn config(alloc: Global, epoch: Epoch) -> Result<Config, Fail>
    ensures { IfOk result (λ c. c.epoch ≡ epoch) }
{
    Ok(Config::build(1, epoch, vec![in alloc; 1, 2]?, 1, 0)?)
}

fn txn(seq: u32) -> TxId {
    TxId { home: 1, seq }
}
