//! Reads payloads.
ghost use Rattle.std.specs.Prelude.{◌≡◌, nat_le, [], IfOk};
ghost use Rattle.tcs_terms.specs.Payloads.{reads_name};
ghost use Rattle.std.specs.Int.{w64};
ghost use Rattle.wire_frame.specs.declared.faults.FrameReason.TheVariants.{Range};
ghost use Rattle.wire_frame.specs.Reading.{Gives, byte_at, number_at, tested, each_at};
ghost use Rattle.wire_frame.specs.Parts.{seen_at, read_at, range_at, write_at, is_reads_byte, reads_count, has_ranges, reads_at, ranges_at, writes_at, payload_at, maybe_at};

use crate::faults::{FrameReason, ReadError};
use crate::names::{name_after, name_of, value_of};
use crate::numbers::{bad_at, byte_of, is_up_to, u64_of};
use crate::sets::up_to;
use std::alloc::Global;
use tcs_terms::limits::{MAX_RANGES, MAX_READS, MAX_WRITES};
use tcs_terms::{Name, Payload, RangePart, ReadPart, WritePart, name_before, same_name};

/// A version that was read, below the commit version.
#[tactic(auto, unfolding(crate::specs::Parts::seen_at))]
fn seen_of(version: u64, bytes: &[u8]) -> Result<(u64, &[u8]), ReadError>
    ensures { Gives (λ x. (x.0, x.1.now)) result (seen_at version bytes.now) }
{
    let (seen, rest) = u64_of(bytes)?;
    if seen >= version {
        return Err(bad_at(FrameReason::Range, bytes));
    }
    Ok((seen, rest))
}

/// A read, the bytes of its name, and what follows.
#[tactic(auto, unfolding(crate::specs::Parts::read_at))]
fn read_of<'a>(
    version: u64,
    last: &[u8],
    bytes: &'a [u8],
) -> Result<(ReadPart, &'a [u8], &'a [u8]), ReadError>
    ensures read { Gives (λ x. (x.0, x.2.now)) result (read_at version last.now bytes.now) }
    ensures name { IfOk result (λ x. x.1.now ≡ x.0.name) }
{
    let (name, rest) = name_after(last, bytes)?;
    let (seen, rest) = seen_of(version, rest)?;
    let read = ReadPart {
        name: Name::of(name),
        version: seen,
    };
    Ok((read, name, rest))
}

/// A range, the bytes of its end, and what follows.
#[tactic(auto, unfolding(crate::specs::Parts::range_at))]
fn range_of<'a>(
    version: u64,
    last: &[u8],
    bytes: &'a [u8],
) -> Result<(RangePart, &'a [u8], &'a [u8]), ReadError>
    ensures range { Gives (λ x. (x.0, x.2.now)) result (range_at version last.now bytes.now) }
    ensures name { IfOk result (λ x. x.1.now ≡ x.0.upto) }
{
    let (from, rest) = name_of(bytes)?;
    if name_before(from, last) {
        return Err(bad_at(FrameReason::Order, bytes));
    }
    let (upto, rest) = name_after(from, rest)?;
    let (seen, rest) = seen_of(version, rest)?;
    let range = RangePart {
        from: Name::of(from),
        upto: Name::of(upto),
        version: seen,
    };
    Ok((range, upto, rest))
}

/// Whether an object is read by name.
fn reads_name(reads: &[ReadPart], name: &[u8]) -> bool
    ensures { result ≡ reads_name reads.now name.now }
{
    reads.iter().any(|read| same_name(read.name.bytes(), name))
}

/// A write, the bytes of its name, and what follows.
#[tactic(auto, unfolding(crate::specs::Parts::write_at))]
fn write_of<'a>(
    reads: &[ReadPart],
    last: &[u8],
    bytes: &'a [u8],
) -> Result<(WritePart, &'a [u8], &'a [u8]), ReadError>
    ensures write { Gives (λ x. (x.0, x.2.now)) result (write_at reads.now last.now bytes.now) }
    ensures name { IfOk result (λ x. x.1.now ≡ x.0.name) }
{
    let (name, rest) = name_after(last, bytes)?;
    if !reads_name(reads, name) {
        return Err(bad_at(FrameReason::Unread, bytes));
    }
    let (value, rest) = value_of(rest)?;
    let write = WritePart {
        name: Name::of(name),
        value,
    };
    Ok((write, name, rest))
}

#[tactic(auto, unfolding(crate::specs::Parts::reads_at))]
fn reads_of(
    alloc: Global,
    version: u64,
    count: u8,
    bytes: &[u8],
) -> Result<(Vec<ReadPart>, &[u8]), ReadError>
    ensures { Gives (λ x. (x.0.items, x.1.now)) result (reads_at version count bytes.now) }
{
    let mut reads = Vec::with_capacity(alloc, count as usize)?;
    let mut last: &[u8] = &[];
    let mut rest = bytes;
    for _ in 0..count {
        let (read, name, after) = read_of(version, last, rest)?;
        reads.push(read)?;
        last = name;
        rest = after;
    }
    Ok((reads, rest))
}

fn each_range(
    alloc: Global,
    version: u64,
    count: u8,
    bytes: &[u8],
) -> Result<(Vec<RangePart>, &[u8]), ReadError>
    ensures { Gives (λ x. (x.0.items, x.1.now)) result (each_at (range_at version) (λ last q. q.upto) count [] bytes.now) }
{
    let mut ranges = Vec::with_capacity(alloc, count as usize)?;
    let mut last: &[u8] = &[];
    let mut rest = bytes;
    for _ in 0..count {
        let (range, name, after) = range_of(version, last, rest)?;
        ranges.push(range)?;
        last = name;
        rest = after;
    }
    Ok((ranges, rest))
}

fn each_write<'a>(
    alloc: Global,
    reads: &[ReadPart],
    count: u8,
    bytes: &'a [u8],
) -> Result<(Vec<WritePart>, &'a [u8]), ReadError>
    ensures { Gives (λ x. (x.0.items, x.1.now)) result (each_at (write_at reads.now) (λ last w. w.name) count [] bytes.now) }
{
    let mut writes = Vec::with_capacity(alloc, count as usize)?;
    let mut last: &[u8] = &[];
    let mut rest = bytes;
    for _ in 0..count {
        let (write, name, after) = write_of(reads, last, rest)?;
        writes.push(write)?;
        last = name;
        rest = after;
    }
    Ok((writes, rest))
}

#[tactic(auto, unfolding(crate::specs::Parts::ranges_at))]
fn ranges_of(
    alloc: Global,
    version: u64,
    there: bool,
    bytes: &[u8],
) -> Result<(Vec<RangePart>, &[u8]), ReadError>
    ensures { Gives (λ x. (x.0.items, x.1.now)) result (ranges_at version there bytes.now) }
{
    if there {
        let (count, rest) = up_to(MAX_RANGES as u8, bytes)?;
        each_range(alloc, version, count, rest)
    } else {
        Ok((Vec::new(alloc), bytes))
    }
}

#[tactic(auto, unfolding(crate::specs::Parts::writes_at))]
fn writes_of<'a>(
    alloc: Global,
    reads: &[ReadPart],
    bytes: &'a [u8],
) -> Result<(Vec<WritePart>, &'a [u8]), ReadError>
    ensures { Gives (λ x. (x.0.items, x.1.now)) result (writes_at reads.now bytes.now) }
{
    let (count, rest) = byte_of(bytes)?;
    if count as usize > MAX_WRITES {
        return Err(bad_at(FrameReason::Range, bytes));
    }
    each_write(alloc, reads, count, rest)
}

/// The commit version: at least 1.
fn version_of(bytes: &[u8]) -> Result<(u64, &[u8]), ReadError>
    ensures { Gives (λ x. (x.0, x.1.now)) result (tested Range (nat_le 1) (number_at w64) bytes.now) }
{
    let (version, rest) = u64_of(bytes)?;
    if version < 1 {
        return Err(bad_at(FrameReason::Range, bytes));
    }
    Ok((version, rest))
}

/// Whether a byte may say how many reads there are.
fn is_reads_byte(byte: u8) -> bool
    ensures { result ≡ is_reads_byte byte }
{
    is_up_to(MAX_READS as u32, byte as u32) || (32 <= byte && byte <= 32 + MAX_READS as u8)
}

fn reads_byte_of(bytes: &[u8]) -> Result<(u8, &[u8]), ReadError>
    ensures { Gives (λ x. (x.0, x.1.now)) result (tested Range is_reads_byte byte_at bytes.now) }
{
    let (byte, rest) = byte_of(bytes)?;
    if !is_reads_byte(byte) {
        return Err(bad_at(FrameReason::Range, bytes));
    }
    Ok((byte, rest))
}

fn has_ranges(byte: u8) -> bool
    ensures { result ≡ has_ranges byte }
{
    32 <= byte
}

fn reads_count(byte: u8) -> u8
    ensures { result ≡ reads_count byte }
{
    if has_ranges(byte) { byte - 32 } else { byte }
}

#[tactic(auto, unfolding(crate::specs::Parts::payload_at))]
pub fn payload_of(alloc: Global, bytes: &[u8]) -> Result<(Payload, &[u8]), ReadError>
    ensures { Gives (λ x. (x.0, x.1.now)) result (payload_at bytes.now) }
{
    let (version, rest) = version_of(bytes)?;
    let (byte, rest) = reads_byte_of(rest)?;
    let (reads, rest) = reads_of(alloc, version, reads_count(byte), rest)?;
    let (ranges, rest) = ranges_of(alloc, version, has_ranges(byte), rest)?;
    let (writes, rest) = writes_of(alloc, &reads, rest)?;
    Ok((Payload::of(reads, ranges, writes, version)?, rest))
}

#[tactic(auto, unfolding(crate::specs::Parts::maybe_at))]
pub fn maybe_of(alloc: Global, bytes: &[u8]) -> Result<(Option<Payload>, &[u8]), ReadError>
    ensures { Gives (λ x. (x.0, x.1.now)) result (maybe_at bytes.now) }
{
    match bytes {
        [] => Err(bad_at(FrameReason::Short, bytes)),
        [0, rest @ ..] => Ok((None, rest)),
        [1, rest @ ..] => {
            let (payload, rest) = payload_of(alloc, rest)?;
            Ok((Some(payload), rest))
        }
        [_, ..] => Err(bad_at(FrameReason::Range, bytes)),
    }
}
