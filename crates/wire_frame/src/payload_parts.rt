//! Writes a payload at the end of a buffer, part by part.
ghost use Rattle.std.specs.Prelude.{◌≡◌, ◌<◌, ◌≤◌, ◌++◌, length, OnOk, OnErr};
ghost use Rattle.std.specs.List.{flat_map};
ghost use Rattle.tcs_terms.specs.Appends.{Begins};
ghost use Rattle.wire_frame.specs.Spelling.{counted, spell_read, spell_range, spell_ranges, spell_write, reads_byte, spell_payload};

use crate::buffer::{put_byte, put_counted, put_u64};
use tcs_terms::{Name, OutOfMemory, Payload, RangePart, ReadPart, Value, WritePart};

fn put_name(out: &mut Vec<u8>, name: &Name) -> Result<(), OutOfMemory>
    ensures ok { OnOk result (out.new.items ≡ out.old.items ++ counted name.now) }
    ensures err { OnErr result (Begins out.old.items out.new.items) }
{
    put_counted(out, name.bytes())
}

fn put_value(out: &mut Vec<u8>, value: &Value) -> Result<(), OutOfMemory>
    ensures ok { OnOk result (out.new.items ≡ out.old.items ++ counted value.now) }
    ensures err { OnErr result (Begins out.old.items out.new.items) }
{
    put_counted(out, value.bytes())
}

fn put_read(out: &mut Vec<u8>, read: &ReadPart) -> Result<(), OutOfMemory>
    ensures ok { OnOk result (out.new.items ≡ out.old.items ++ spell_read read.now) }
    ensures err { OnErr result (Begins out.old.items out.new.items) }
{
    put_name(out, &read.name)?;
    put_u64(out, read.version)
}

fn put_range(out: &mut Vec<u8>, range: &RangePart) -> Result<(), OutOfMemory>
    ensures ok { OnOk result (out.new.items ≡ out.old.items ++ spell_range range.now) }
    ensures err { OnErr result (Begins out.old.items out.new.items) }
{
    put_name(out, &range.from)?;
    put_name(out, &range.upto)?;
    put_u64(out, range.version)
}

fn put_write(out: &mut Vec<u8>, write: &WritePart) -> Result<(), OutOfMemory>
    ensures ok { OnOk result (out.new.items ≡ out.old.items ++ spell_write write.now) }
    ensures err { OnErr result (Begins out.old.items out.new.items) }
{
    put_name(out, &write.name)?;
    put_value(out, &write.value)
}

fn put_reads(out: &mut Vec<u8>, reads: &[ReadPart]) -> Result<(), OutOfMemory>
    ensures ok { OnOk result (out.new.items ≡ out.old.items ++ flat_map spell_read reads.now) }
    ensures err { OnErr result (Begins out.old.items out.new.items) }
{
    for read in reads {
        put_read(out, read)?;
    }
    Ok(())
}

fn put_each_range(out: &mut Vec<u8>, ranges: &[RangePart]) -> Result<(), OutOfMemory>
    ensures ok { OnOk result (out.new.items ≡ out.old.items ++ flat_map spell_range ranges.now) }
    ensures err { OnErr result (Begins out.old.items out.new.items) }
{
    for range in ranges {
        put_range(out, range)?;
    }
    Ok(())
}

fn put_ranges(out: &mut Vec<u8>, ranges: &[RangePart]) -> Result<(), OutOfMemory>
    requires { length ranges.now < 256 }
    ensures ok { OnOk result (out.new.items ≡ out.old.items ++ spell_ranges ranges.now) }
    ensures err { OnErr result (Begins out.old.items out.new.items) }
{
    match ranges {
        [] => Ok(()),
        [_, ..] => {
            put_byte(out, ranges.len() as u8)?;
            put_each_range(out, ranges)
        }
    }
}

fn put_writes(out: &mut Vec<u8>, writes: &[WritePart]) -> Result<(), OutOfMemory>
    ensures ok { OnOk result (out.new.items ≡ out.old.items ++ flat_map spell_write writes.now) }
    ensures err { OnErr result (Begins out.old.items out.new.items) }
{
    for write in writes {
        put_write(out, write)?;
    }
    Ok(())
}

fn reads_byte(reads: &[ReadPart], ranges: &[RangePart]) -> u8
    requires { length reads.now ≤ 16 }
    ensures { result ≡ reads_byte reads.now ranges.now }
{
    match ranges {
        [] => reads.len() as u8,
        [_, ..] => 32 + reads.len() as u8,
    }
}

#[tactic(auto, unfolding(crate::specs::Spelling::spell_payload))]
pub fn put_payload(out: &mut Vec<u8>, payload: &Payload) -> Result<(), OutOfMemory>
    ensures ok { OnOk result (out.new.items ≡ out.old.items ++ spell_payload payload.now) }
    ensures err { OnErr result (Begins out.old.items out.new.items) }
{
    put_u64(out, payload.version())?;
    put_byte(out, reads_byte(payload.reads(), payload.ranges()))?;
    put_reads(out, payload.reads())?;
    put_ranges(out, payload.ranges())?;
    put_byte(out, payload.writes().len() as u8)?;
    put_writes(out, payload.writes())
}
