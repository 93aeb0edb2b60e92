//! A follower from its first epoch to the next one, with another leader's rows.
ghost use Rattle.std.specs.Prelude.{◌≡◌, IfOk, IsTrue};
ghost use Rattle.tcs_terms.specs.Messages.{is_slot};

use crate::{Follower, first_follower, follow};
use cert_log::CertLog;
use cert_serial::Serial;
use std::alloc::Global;
use std::process::Abort;
use std::test::Fail;
use tcs_laws::ScanGuard;
use tcs_terms::{Config, Entry, Epoch, Mark, Row, ShardSet, Slot, TxId, Vote};

type SerialFollower = Follower<ScanGuard<Serial>>;

/// Entries are accepted in any order. The rows of the next leader take the place of the follower's own.
#[test]
fn a_follower_takes_its_leaders_rows(rt: HostRuntime) -> Result<(), Fail> {
    let alloc = rt.alloc();
    let mut follower: SerialFollower = first_follower(alloc, config(alloc, 1)?);
    accept(&rt, alloc, &mut follower, 2)?;
    accept(&rt, alloc, &mut follower, 1)?;
    follower.mark(2, true);
    assert!(rt; matches!(follower.log().at(2), Some(row) if row.mark == Mark::Committed));
    assert_eq!(rt; follower.log().rows().len(), 2);

    let fenced = follower.fence(3);
    assert_eq!(rt; (fenced.state(), fenced.promised()), (1, 3));
    let row = Row {
        entry: entry(alloc, 4)?,
        mark: Mark::Aborted,
    };
    let log = CertLog::from_rows(alloc, vec![in alloc; row]?)?;
    let follower = follow(fenced, config(alloc, 3)?, log);
    assert_eq!(rt; follower.config().epoch(), 3);
    assert!(rt; follower.log().has_at(4, txn(4)) && follower.log().rows().len() == 1);
    Ok(())
}

/// The follower accepts the entry of a slot that nothing takes yet.
fn accept(
    rt: &impl Abort,
    alloc: Global,
    follower: &mut SerialFollower,
    slot: Slot,
) -> Result<(), Fail>
    requires { IsTrue (is_slot slot) }
    ensures { IfOk result (λ _. follower.new.config ≡ follower.old.config) }
{
    let entry = entry(alloc, slot)?;
    assert!(rt; !follower.log().is_taken(&entry));
    follower.accept(entry)?;
    Ok(())
}

/// The entry of transaction 1.`slot`, which lost its payload.
fn entry(alloc: Global, slot: Slot) -> Result<Entry, Fail>
    ensures { IfOk result (λ e. e.slot ≡ slot) }
{
    Ok(Entry {
        slot,
        txn: txn(slot),
        shards: ShardSet::build([1u8].to_vec(alloc)?)?,
        payload: None,
        vote: Vote::Lost,
    })
}

fn config(alloc: Global, epoch: Epoch) -> Result<Config, Fail>
    ensures { IfOk result (λ c. c.epoch ≡ epoch) }
{
    Ok(Config::build(1, epoch, vec![in alloc; 1, 2]?, 2, 0)?)
}

fn txn(slot: Slot) -> TxId {
    TxId {
        home: 1,
        seq: u32::from(slot),
    }
}
