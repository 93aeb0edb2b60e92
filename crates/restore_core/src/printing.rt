//! The schedule that puts objects back, as text.
ghost use Rattle.std.specs.Prelude.{◌≡◌, ◌+◌, ◌*◌, ◌<◌, ◌^◌, ◌≤◌, ◌++◌, ◌∷◌, [], IsTrue, IfOk, OnOk};
ghost use Rattle.schedule_text.specs.Text.{event_line, schedule_text, with_feed};
ghost use Rattle.schedule_text.specs.Printable.{has_line};
ghost use Rattle.protocol.specs.Worked.Words.{certify, deliver};
ghost use Rattle.restore_laws.specs.Schedules.{events_of, payload_of, restored_events, restored_setup};
ghost use Rattle.restore_core.specs.Files.{AreRestored, IsPut};
ghost use Rattle.restore_core.specs.Printed.{events_text, header_text};

use backup_machine::Kept;
use schedule_text::print_event;
use std::alloc::Global;
use tcs_terms::{Event, Input, OutOfMemory, Payload, ReadPart, WritePart};
use text_words::put;

/// The lines before the events: version 2, serial certification, and node 1 alone in shard 1.
const HEADER: &[u8] = b"tcs 2\ncertifier serial\nshards 1\nnode 1 1\nconfig 1 1 1\nevents\n";

/// What an object is put back by: it is read as absent, and written with the version and the value that were kept.
fn payload_of(alloc: Global, object: &Kept) -> Result<Payload, OutOfMemory>
    requires { IsPut object.now }
    ensures { IfOk result (λ payload. payload ≡ payload_of object.now) }
{
    let mut reads = Vec::new(alloc);
    reads.push(ReadPart {
        name: object.name.again(),
        version: 0,
    })?;
    let mut writes = Vec::new(alloc);
    writes.push(WritePart {
        name: object.name.again(),
        value: object.value.copy(alloc)?,
    })?;
    Payload::of(reads, Vec::new(alloc), writes, object.version)
}

fn put_certify(alloc: Global, object: &Kept, out: &mut Vec<u8>) -> Result<(), OutOfMemory>
    requires { IsPut object.now }
    ensures { OnOk result (out.new.items ≡ out.old.items ++ with_feed (event_line (certify 1 (payload_of object.now)))) }
{
    let payload = payload_of(alloc, object)?;
    let event = Event::Call {
        node: 1,
        input: Input::Certify(payload),
    };
    print_event(&event, out)
}

fn put_delivery(number: u32, out: &mut Vec<u8>) -> Result<(), OutOfMemory>
    ensures { OnOk result (out.new.items ≡ out.old.items ++ with_feed (event_line (deliver number))) }
{
    print_event(&Event::DeliverNumber(number), out)
}

/// The lines of an object, before which so many others are put back.
fn put_object(
    alloc: Global,
    before: u32,
    object: &Kept,
    out: &mut Vec<u8>,
) -> Result<(), OutOfMemory>
    requires few { before < 4096 }
    requires put { IsPut object.now }
    ensures { OnOk result (out.new.items ≡ out.old.items ++ events_text (events_of before object.now)) }
{
    put_certify(alloc, object, out)?;
    put_delivery(4 * before + 1, out)?;
    put_delivery(4 * before + 2, out)
}

fn put_objects(alloc: Global, kept: &[Kept], out: &mut Vec<u8>) -> Result<(), OutOfMemory>
    requires { AreRestored kept.now }
    ensures { OnOk result (out.new.items ≡ out.old.items ++ events_text (restored_events kept.now)) }
{
    let mut before = 0;
    'objects: for object in kept {
        put_object(alloc, before, object, out)?;
        before += 1;
    }
    Ok(())
}

fn put_header(out: &mut Vec<u8>) -> Result<(), OutOfMemory>
    ensures { OnOk result (out.new.items ≡ out.old.items ++ header_text) }
{
    put(out, HEADER)
}

/// Appends the text of the schedule that puts these objects back.
pub(crate) fn print_schedule(
    alloc: Global,
    kept: &[Kept],
    out: &mut Vec<u8>,
) -> Result<(), OutOfMemory>
    requires { AreRestored kept.now }
    ensures { OnOk result (out.new.items ≡ out.old.items ++ schedule_text restored_setup (restored_events kept.now)) }
{
    put_header(out)?;
    put_objects(alloc, kept, out)?;
    put(out, b"end\n")
}
