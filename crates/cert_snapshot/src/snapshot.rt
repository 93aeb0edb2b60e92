//! The certifier of the snapshot rule.
ghost use Rattle.std.specs.Prelude.{◌≡◌, true, false};
ghost use Rattle.std.proofs.lemmas.Bool.{false≢true};
ghost use Rattle.cert_snapshot.specs.Snapshot.{snapshot, writes_meet, writes_again};
ghost use Rattle.cert_snapshot.specs.SnapshotLaws.{snapshot_lawful, snapshot_orders_writes, counts_own, snapshot_goes_by_sight, snapshot_counts_written};

use tcs_laws::{BySight, Certifier, is_below, version_seen, writes};
use tcs_terms::{Name, Payload};

/// Snapshot certification: of two transactions none may commit beside the other that writes what the other one writes.
#[derive(Clone, Copy, Debug, PartialEq, Eq)]
pub struct Snapshot;

impl Certifier for Snapshot {
    ghost tests = { snapshot };

    ghost ORDERS_WRITES = { true };

    ghost CHECKS_READS = { false };

    const ORDERS_WRITES: bool = true;

    const CHECKS_READS: bool = false;

    fn committed_ok(old: &Payload, new: &Payload) -> bool {
        !writes_again(old, new)
    }

    fn prepared_ok(old: &Payload, new: &Payload) -> bool {
        !writes_meet(old, new)
    }

    ghost lawful = { snapshot_lawful };

    ghost orders_writes = { λ _. snapshot_orders_writes };

    ghost checks_reads = { λ checks. absurd (false≢true checks) };
}

impl BySight for Snapshot {
    ghost counts = { counts_own };

    ghost COUNTS_UNWRITTEN = { false };

    const COUNTS_UNWRITTEN: bool = false;

    fn sight_counts(payload: &Payload, name: &Name) -> bool {
        writes(payload.writes(), name)
    }

    ghost goes_by_sight = { snapshot_goes_by_sight };

    ghost counts_written = { λ _. snapshot_counts_written };
}

/// Whether both write some object that `new` saw at a version below that of the write of `old`.
fn writes_again(old: &Payload, new: &Payload) -> bool
    ensures { result ≡ writes_again old.now new.now }
{
    let version = old.version();
    old.writes().iter().any(|w| writes(new.writes(), &w.name)
        && is_below(version_seen(new, &w.name), version))
}

/// Whether both write some object.
fn writes_meet(a: &Payload, b: &Payload) -> bool
    ensures { result ≡ writes_meet a.now b.now }
{
    a.writes().iter().any(|w| writes(b.writes(), &w.name))
}
