//! The printers of a trace. Each appends to a buffer; after want of memory the buffer begins with what it held.
ghost use Rattle.std.specs.Prelude.{◌≡◌, ◌++◌, ◌&&◌, nat_le, codes, decimal, slice_index, IsTrue, OnOk, OnErr};
ghost use Rattle.std.specs.List.{flat_map};
ghost use Rattle.hex.specs.Hex.{encode_lower};
ghost use Rattle.tcs_terms.specs.declared.limits.TheConstants.{MAX_KIND};
ghost use Rattle.tcs_terms.specs.Appends.{Begins};
ghost use Rattle.tcs_terms.specs.declared.inputs.Note.TheVariants.{ReadValue};
ghost use Rattle.text_words.specs.PayloadText.{value_text};
ghost use Rattle.trace_text.specs.Texts.{result_text, note_text, kind_text};
ghost use Rattle.trace_text.specs.Lines.{HeadLine, EventLine, NoteLine, MessageLine, OrderLine, EndLine, printed};

use crate::printing::{put_decision, put_field, put_handled, put_order};
use tcs_terms::{Kind, Name, NodeId, Note, OutOfMemory, Result1, Setup, TxId, Value};
use text_words::{print_payload, put, put_byte, put_hex, put_number, put_txn, put_value};

/// The first line: the version, the rule and the number of shards.
pub fn print_head(setup: &Setup, out: &mut Vec<u8>) -> Result<(), OutOfMemory>
    ensures ok { OnOk result (out.new.items ≡ out.old.items ++ printed (HeadLine setup.now.version setup.now.rule setup.now.shards)) }
    ensures err { OnErr result (Begins out.old.items out.new.items) }
{
    put(out, b"trace")?;
    put_field(out, u64::from(setup.version()))?;
    put_byte(out, b' ')?;
    put(out, setup.rule().word().as_bytes())?;
    put_field(out, u64::from(setup.shards()))?;
    put_byte(out, b'\n')
}

/// The words of a result.
pub fn print_result(result1: &Result1, out: &mut Vec<u8>) -> Result<(), OutOfMemory>
    ensures ok { OnOk result (out.new.items ≡ out.old.items ++ result_text result1.now) }
    ensures err { OnErr result (Begins out.old.items out.new.items) }
{
    match result1 {
        Result1::Node(handled) => put_handled(out, *handled),
        Result1::Gone => put(out, b"gone"),
        Result1::Unsent => put(out, b"unsent"),
    }
}

/// A version, a space and the value of that version.
fn put_versioned(version: u64, value: &Value, out: &mut Vec<u8>) -> Result<(), OutOfMemory>
    ensures ok { OnOk result (out.new.items ≡ out.old.items ++ (decimal version ++ codes " " ++ value_text value.now)) }
    ensures err { OnErr result (Begins out.old.items out.new.items) }
{
    put_number(out, version)?;
    put_byte(out, b' ')?;
    put_value(out, value.bytes())
}

fn put_read_value(
    name: &Name,
    version: u64,
    value: &Value,
    out: &mut Vec<u8>,
) -> Result<(), OutOfMemory>
    ensures ok { OnOk result (out.new.items ≡ out.old.items ++ note_text (ReadValue name.now version value.now)) }
    ensures err { OnErr result (Begins out.old.items out.new.items) }
{
    put(out, b"read ")?;
    put(out, name.bytes())?;
    put_byte(out, b' ')?;
    put_versioned(version, value, out)
}

fn put_note(note: &Note, out: &mut Vec<u8>) -> Result<(), OutOfMemory>
    ensures ok { OnOk result (out.new.items ≡ out.old.items ++ note_text note.now) }
    ensures err { OnErr result (Begins out.old.items out.new.items) }
{
    match note {
        Note::Begin { txn, payload } => {
            put(out, b"begin ")?;
            put_txn(out, *txn)?;
            put_byte(out, b' ')?;
            print_payload(payload, out)
        }
        Note::Take { txn } => {
            put(out, b"take ")?;
            put_txn(out, *txn)
        }
        Note::ReadValue {
            name,
            version,
            value,
        } => put_read_value(name, *version, value, out),
        Note::Decide { txn, decision } => {
            put(out, b"decide ")?;
            put_txn(out, *txn)?;
            put_byte(out, b' ')?;
            put_decision(out, *decision)
        }
    }
}

/// The line of a note.
pub fn print_note(note: &Note, out: &mut Vec<u8>) -> Result<(), OutOfMemory>
    ensures ok { OnOk result (out.new.items ≡ out.old.items ++ printed (NoteLine note.now)) }
    ensures err { OnErr result (Begins out.old.items out.new.items) }
{
    put_note(note, out)?;
    put_byte(out, b'\n')
}

/// The name of a kind of message, 1 to 17.
pub fn print_kind(kind: u8, out: &mut Vec<u8>) -> Result<(), OutOfMemory>
    requires { IsTrue (nat_le 1 kind && nat_le kind MAX_KIND) }
    ensures ok { OnOk result (out.new.items ≡ out.old.items ++ kind_text kind) }
    ensures err { OnErr result (Begins out.old.items out.new.items) }
{
    match Kind::numbered(kind) {
        Some(kind) => put(out, kind.word().as_bytes()),
        None => Ok(()),
    }
}

/// The line of an event.
fn put_event(k: u32, result1: &Result1, out: &mut Vec<u8>) -> Result<(), OutOfMemory>
    ensures ok { OnOk result (out.new.items ≡ out.old.items ++ printed (EventLine k result1.now)) }
    ensures err { OnErr result (Begins out.old.items out.new.items) }
{
    put_byte(out, b'e')?;
    put_field(out, u64::from(k))?;
    put_byte(out, b' ')?;
    print_result(result1, out)?;
    put_byte(out, b'\n')
}

/// The line of an event, numbered from 1, with its result, and the lines of its notes.
pub fn print_happening(
    k: u32,
    result1: &Result1,
    notes: &[Note],
    out: &mut Vec<u8>,
) -> Result<(), OutOfMemory>
    ensures ok { OnOk result (out.new.items ≡ out.old.items ++ printed (EventLine k result1.now) ++ flat_map (λ note. printed (NoteLine note)) notes.now) }
    ensures err { OnErr result (Begins out.old.items out.new.items) }
{
    put_event(k, result1, out)?;
    print_notes(notes, out)
}

fn print_notes(notes: &[Note], out: &mut Vec<u8>) -> Result<(), OutOfMemory>
    ensures ok { OnOk result (out.new.items ≡ out.old.items ++ flat_map (λ note. printed (NoteLine note)) notes.now) }
    ensures err { OnErr result (Begins out.old.items out.new.items) }
{
    for note in notes {
        print_note(note, out)?;
    }
    Ok(())
}

/// The number and the ends of a message.
fn put_ends(number: u32, from: NodeId, to: NodeId, out: &mut Vec<u8>) -> Result<(), OutOfMemory>
    ensures ok { OnOk result (out.new.items ≡ out.old.items ++ (codes "m " ++ decimal number ++ codes " " ++ decimal from ++ codes " " ++ decimal to)) }
    ensures err { OnErr result (Begins out.old.items out.new.items) }
{
    put_byte(out, b'm')?;
    put_field(out, u64::from(number))?;
    put_field(out, u64::from(from))?;
    put_field(out, u64::from(to))
}

/// The kind of a frame, and the frame in hex.
fn put_frame(frame: &[u8], out: &mut Vec<u8>) -> Result<(), OutOfMemory>
    requires { IsTrue (nat_le 1 (slice_index frame.now 0) && nat_le (slice_index frame.now 0) MAX_KIND) }
    ensures ok { OnOk result (out.new.items ≡ out.old.items ++ (kind_text (slice_index frame.now 0) ++ codes " " ++ encode_lower frame.now)) }
    ensures err { OnErr result (Begins out.old.items out.new.items) }
{
    print_kind(first_byte(frame), out)?;
    put_byte(out, b' ')?;
    put_hex(out, frame)
}

/// The line of a message, numbered from 1, from one node to another, whose frame begins with its kind, 1 to 17.
pub fn print_message(
    number: u32,
    from: NodeId,
    to: NodeId,
    frame: &[u8],
    out: &mut Vec<u8>,
) -> Result<(), OutOfMemory>
    requires { IsTrue (nat_le 1 (slice_index frame.now 0) && nat_le (slice_index frame.now 0) MAX_KIND) }
    ensures ok { OnOk result (out.new.items ≡ out.old.items ++ printed (MessageLine number from to frame.now)) }
    ensures err { OnErr result (Begins out.old.items out.new.items) }
{
    put_ends(number, from, to, out)?;
    put_byte(out, b' ')?;
    put_frame(frame, out)?;
    put_byte(out, b'\n')
}

fn first_byte(frame: &[u8]) -> u8
    ensures { result ≡ slice_index frame.now 0 }
{
    match frame {
        [] => 0,
        [first, ..] => *first,
    }
}

/// The last two lines: the order of the transactions with a decision to commit, and the numbers of events and messages.
pub fn print_tail(
    order: &[TxId],
    events: u32,
    messages: u32,
    out: &mut Vec<u8>,
) -> Result<(), OutOfMemory>
    ensures ok { OnOk result (out.new.items ≡ out.old.items ++ printed (OrderLine order.now) ++ printed (EndLine events messages)) }
    ensures err { OnErr result (Begins out.old.items out.new.items) }
{
    put(out, b"order ")?;
    put_order(out, order)?;
    put(out, b"\nend")?;
    put_field(out, u64::from(events))?;
    put_field(out, u64::from(messages))?;
    put_byte(out, b'\n')
}
