//! The text of a payload.
ghost use Rattle.std.specs.Prelude.{◌≡◌, ◌++◌, codes, OnOk, OnErr};
ghost use Rattle.std.specs.List.{flat_map};
ghost use Rattle.tcs_terms.specs.Appends.{Begins};
ghost use Rattle.text_words.specs.PayloadText.{read_text, range_text, write_text, payload_text};

use crate::hex_words::put_value;
use crate::texts::{put, put_byte, put_number};
use tcs_terms::{OutOfMemory, Payload, RangePart, ReadPart, WritePart};

fn put_read(out: &mut Vec<u8>, read: &ReadPart) -> Result<(), OutOfMemory>
    ensures ok { OnOk result (out.new.items ≡ out.old.items ++ read_text read.now) }
    ensures err { OnErr result (Begins out.old.items out.new.items) }
{
    put(out, b" r ")?;
    put(out, read.name.bytes())?;
    put_byte(out, b' ')?;
    put_number(out, read.version)
}

fn put_ends(out: &mut Vec<u8>, range: &RangePart) -> Result<(), OutOfMemory>
    ensures ok { OnOk result (out.new.items ≡ out.old.items ++ (range.now.from ++ codes " " ++ range.now.upto)) }
    ensures err { OnErr result (Begins out.old.items out.new.items) }
{
    put(out, range.from.bytes())?;
    put_byte(out, b' ')?;
    put(out, range.upto.bytes())
}

fn put_range(out: &mut Vec<u8>, range: &RangePart) -> Result<(), OutOfMemory>
    ensures ok { OnOk result (out.new.items ≡ out.old.items ++ range_text range.now) }
    ensures err { OnErr result (Begins out.old.items out.new.items) }
{
    put(out, b" q ")?;
    put_ends(out, range)?;
    put_byte(out, b' ')?;
    put_number(out, range.version)
}

fn put_write(out: &mut Vec<u8>, write: &WritePart) -> Result<(), OutOfMemory>
    ensures ok { OnOk result (out.new.items ≡ out.old.items ++ write_text write.now) }
    ensures err { OnErr result (Begins out.old.items out.new.items) }
{
    put(out, b" w ")?;
    put(out, write.name.bytes())?;
    put_byte(out, b' ')?;
    put_value(out, write.value.bytes())
}

fn put_reads(out: &mut Vec<u8>, reads: &[ReadPart]) -> Result<(), OutOfMemory>
    ensures ok { OnOk result (out.new.items ≡ out.old.items ++ flat_map read_text reads.now) }
    ensures err { OnErr result (Begins out.old.items out.new.items) }
{
    for read in reads {
        put_read(out, read)?;
    }
    Ok(())
}

fn put_ranges(out: &mut Vec<u8>, ranges: &[RangePart]) -> Result<(), OutOfMemory>
    ensures ok { OnOk result (out.new.items ≡ out.old.items ++ flat_map range_text ranges.now) }
    ensures err { OnErr result (Begins out.old.items out.new.items) }
{
    for range in ranges {
        put_range(out, range)?;
    }
    Ok(())
}

fn put_writes(out: &mut Vec<u8>, writes: &[WritePart]) -> Result<(), OutOfMemory>
    ensures ok { OnOk result (out.new.items ≡ out.old.items ++ flat_map write_text writes.now) }
    ensures err { OnErr result (Begins out.old.items out.new.items) }
{
    for write in writes {
        put_write(out, write)?;
    }
    Ok(())
}

/// Appends the words of a payload, one space between them. After want of memory the buffer begins with what it held.
#[tactic(auto, unfolding(crate::specs::PayloadText::payload_text))]
fn put_payload(out: &mut Vec<u8>, payload: &Payload) -> Result<(), OutOfMemory>
    ensures ok { OnOk result (out.new.items ≡ out.old.items ++ payload_text payload.now) }
    ensures err { OnErr result (Begins out.old.items out.new.items) }
{
    put(out, b"v ")?;
    put_number(out, payload.version())?;
    put_reads(out, payload.reads())?;
    put_ranges(out, payload.ranges())?;
    put_writes(out, payload.writes())
}

/// Appends the one text of a payload: `v VERSION`, then `r NAME VERSION` for each read, `q FROM UPTO VERSION` for each
/// range and `w NAME HEX` for each write, where the empty value is `-`. Where memory runs out nothing is appended.
pub fn print_payload(payload: &Payload, out: &mut Vec<u8>) -> Result<(), OutOfMemory>
    ensures ok { OnOk result (out.new.items ≡ out.old.items ++ payload_text payload.now) }
    ensures err { OnErr result (out.new.items ≡ out.old.items) }
{
    let before = out.len();
    let answer = put_payload(out, payload);
    if answer.is_err() {
        out.truncate(before);
    }
    answer
}
