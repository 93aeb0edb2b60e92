//! The certifier of the rule in which additions commute.
ghost use Rattle.std.specs.Prelude.{◌≡◌, true, false};
ghost use Rattle.std.proofs.lemmas.Bool.{false≢true};
ghost use Rattle.cert_commute.specs.Commute.{commute, is_counter, truly_seen, writes_truly_past, writes_truly_seen};
ghost use Rattle.cert_commute.specs.CommuteLaws.{commute_lawful, counts_sight, commute_goes_by_sight};

use tcs_laws::{BySight, Certifier, is_below, version_seen, writes};
use tcs_terms::{Name, Payload};

/// Serial certification in which additions to counters commute: a payload that writes a counter adds to it, and does
/// not count as having seen it. Neither do versions order the writers of a counter, nor are its reads checked.
#[derive(Clone, Copy, Debug, PartialEq, Eq)]
pub struct Commute;

impl Certifier for Commute {
    ghost tests = { commute };

    ghost ORDERS_WRITES = { false };

    ghost CHECKS_READS = { false };

    const ORDERS_WRITES: bool = false;

    const CHECKS_READS: bool = false;

    fn committed_ok(old: &Payload, new: &Payload) -> bool {
        !writes_truly_past(old, new)
    }

    fn prepared_ok(old: &Payload, new: &Payload) -> bool {
        !(writes_truly_seen(old, new) || writes_truly_seen(new, old))
    }

    ghost lawful = { commute_lawful };

    ghost orders_writes = { λ orders. absurd (false≢true orders) };

    ghost checks_reads = { λ checks. absurd (false≢true checks) };
}

impl BySight for Commute {
    ghost counts = { counts_sight };

    ghost COUNTS_UNWRITTEN = { true };

    const COUNTS_UNWRITTEN: bool = true;

    fn sight_counts(payload: &Payload, name: &Name) -> bool {
        !(is_counter(name) && writes(payload.writes(), name))
    }

    ghost goes_by_sight = { commute_goes_by_sight };

    ghost counts_written = { λ no. absurd (false≢true no) };
}

/// Whether `writer` writes an object that `reader` truly saw at a version below that of the write.
fn writes_truly_past(writer: &Payload, reader: &Payload) -> bool
    ensures { result ≡ writes_truly_past writer.now reader.now }
{
    let version = writer.version();
    writer
        .writes()
        .iter()
        .any(|w| is_below(truly_seen(reader, &w.name), version))
}

/// Whether `writer` writes an object that `reader` truly saw.
fn writes_truly_seen(writer: &Payload, reader: &Payload) -> bool
    ensures { result ≡ writes_truly_seen writer.now reader.now }
{
    writer
        .writes()
        .iter()
        .any(|w| truly_seen(reader, &w.name).is_some())
}

/// The version at which a payload saw an object, but nothing of a counter that it adds to.
fn truly_seen(payload: &Payload, name: &Name) -> Option<u64>
    ensures { result ≡ truly_seen payload.now name.now }
{
    if is_counter(name) && writes(payload.writes(), name) {
        None
    } else {
        version_seen(payload, name)
    }
}

/// Whether an object is a counter: its name begins with `n_`.
fn is_counter(name: &Name) -> bool
    ensures { result ≡ is_counter name.now }
{
    name.bytes().starts_with(b"n_")
}
