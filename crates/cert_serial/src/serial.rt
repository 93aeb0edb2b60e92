//! The certifier of the serial rule.
ghost use Rattle.std.specs.Prelude.{◌≡◌, true};
ghost use Rattle.std.proofs.lemmas.Bool.{false≢true};
ghost use Rattle.cert_serial.specs.Serial.{serial, writes_seen, writes_past};
ghost use Rattle.cert_serial.specs.SerialLaws.{serial_lawful, serial_orders_writes, serial_checks_reads, counts_all, serial_goes_by_sight};

use tcs_laws::{BySight, Certifier, is_below, version_seen};
use tcs_terms::{Name, Payload};

/// Serial certification: of two transactions none may commit beside the other that wrote what the other one read.
#[derive(Clone, Copy, Debug, PartialEq, Eq)]
pub struct Serial;

impl Certifier for Serial {
    ghost tests = { serial };

    ghost ORDERS_WRITES = { true };

    ghost CHECKS_READS = { true };

    const ORDERS_WRITES: bool = true;

    const CHECKS_READS: bool = true;

    fn committed_ok(old: &Payload, new: &Payload) -> bool {
        !writes_past(old, new)
    }

    fn prepared_ok(old: &Payload, new: &Payload) -> bool {
        !(writes_seen(old, new) || writes_seen(new, old))
    }

    ghost lawful = { serial_lawful };

    ghost orders_writes = { λ _. serial_orders_writes };

    ghost checks_reads = { λ _. serial_checks_reads };
}

impl BySight for Serial {
    ghost counts = { counts_all };

    ghost COUNTS_UNWRITTEN = { true };

    const COUNTS_UNWRITTEN: bool = true;

    fn sight_counts(_payload: &Payload, _name: &Name) -> bool {
        true
    }

    ghost goes_by_sight = { serial_goes_by_sight };

    ghost counts_written = { λ no. absurd (false≢true no) };
}

/// Whether `writer` writes an object that `reader` saw at a version below that of the write.
fn writes_past(writer: &Payload, reader: &Payload) -> bool
    ensures { result ≡ writes_past writer.now reader.now }
{
    let version = writer.version();
    writer
        .writes()
        .iter()
        .any(|w| is_below(version_seen(reader, &w.name), version))
}

/// Whether `writer` writes an object that `reader` saw, by name or in a range.
fn writes_seen(writer: &Payload, reader: &Payload) -> bool
    ensures { result ≡ writes_seen writer.now reader.now }
{
    writer
        .writes()
        .iter()
        .any(|w| version_seen(reader, &w.name).is_some())
}
