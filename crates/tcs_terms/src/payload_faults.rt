//! What is wrong with the parts of a payload, from the first to the last.
ghost use Rattle.std.specs.Prelude.{◌≡◌, ◌==◌, ◌&&◌, ◌+◌, ◌<◌, ◌≤◌, [], length, All, IfNone, IsNone};
ghost use Rattle.tcs_terms.specs.Payloads.{IsReadPart, IsRangePart, IsWritePart, IsPayload, reads_name};
ghost use Rattle.tcs_terms.specs.PayloadFaults.{reads_fault, ranges_fault, writes_fault, payload_fault};

use crate::faults::BadPayload;
use crate::limits::{MAX_RANGES, MAX_READS, MAX_WRITES};
use crate::order::{name_before, same_name};
use crate::payloads::{RangePart, ReadPart, WritePart};

/// Whether nothing is read.
pub fn reads_nothing(reads: &[ReadPart], ranges: &[RangePart]) -> bool
    ensures { result ≡ ((length reads.now == 0) && (length ranges.now == 0)) }
{
    reads.is_empty() && ranges.is_empty()
}

/// The first fault of the reads, of which there are few enough that a place fits.
fn reads_fault(reads: &[ReadPart], version: u64) -> Option<BadPayload>
    requires { length reads.now < 100 }
    ensures fault { result ≡ reads_fault version 1 [] reads.now }
    ensures parts { IfNone result (All IsReadPart reads.now) }
{
    let mut place = 1;
    let mut before: &[u8] = &[];
    for read in reads {
        let name = read.name.bytes();
        if !name_before(before, name) {
            return Some(BadPayload::Order(place));
        }
        if read.version >= version {
            return Some(BadPayload::Version(place));
        }
        place += 1;
        before = name;
    }
    None
}

/// The first fault of the ranges, numbered from a place.
fn ranges_fault(ranges: &[RangePart], version: u64, first: u8) -> Option<BadPayload>
    requires { first + length ranges.now < 256 }
    ensures fault { result ≡ ranges_fault version first [] ranges.now }
    ensures parts { IfNone result (All IsRangePart ranges.now) }
{
    let mut place = first;
    let mut end: &[u8] = &[];
    for range in ranges {
        let from = range.from.bytes();
        let upto = range.upto.bytes();
        if !name_before(from, upto) || name_before(from, end) {
            return Some(BadPayload::Order(place));
        }
        if range.version >= version {
            return Some(BadPayload::Version(place));
        }
        place += 1;
        end = upto;
    }
    None
}

/// Whether an object is read by name.
pub fn reads_name(reads: &[ReadPart], name: &[u8]) -> bool
    ensures { result ≡ reads_name reads.now name.now }
{
    reads.iter().any(|read| same_name(read.name.bytes(), name))
}

/// The first fault of the writes, numbered from a place.
fn writes_fault(reads: &[ReadPart], writes: &[WritePart], first: u8) -> Option<BadPayload>
    requires { first + length writes.now < 256 }
    ensures fault { result ≡ writes_fault reads.now first [] writes.now }
    ensures parts { IfNone result (All IsWritePart writes.now) }
{
    let mut place = first;
    let mut before: &[u8] = &[];
    for write in writes {
        let name = write.name.bytes();
        if !name_before(before, name) {
            return Some(BadPayload::Order(place));
        }
        if !reads_name(reads, name) {
            return Some(BadPayload::Unread(place));
        }
        let _value = write.value.bytes();
        place += 1;
        before = name;
    }
    None
}

/// The first fault of the parts of a payload.
pub fn payload_fault(
    reads: &[ReadPart],
    ranges: &[RangePart],
    writes: &[WritePart],
    version: u64,
) -> Option<BadPayload>
    ensures fault { result ≡ payload_fault (record {
      reads = reads.now;
      ranges = ranges.now;
      writes = writes.now;
      version = version;
    }) }
    ensures reads { IfNone result (All IsReadPart reads.now) }
    ensures ranges { IfNone result (All IsRangePart ranges.now) }
    ensures writes { IfNone result (All IsWritePart writes.now) }
{
    if reads_nothing(reads, ranges) {
        return Some(BadPayload::Empty);
    }
    if reads.len() > MAX_READS || ranges.len() > MAX_RANGES || writes.len() > MAX_WRITES {
        return Some(BadPayload::TooMany);
    }
    if version == 0 {
        return Some(BadPayload::Version(0));
    }
    if let Some(fault) = reads_fault(reads, version) {
        return Some(fault);
    }
    let place = reads.len() as u8 + 1;
    if let Some(fault) = ranges_fault(ranges, version, place) {
        return Some(fault);
    }
    writes_fault(reads, writes, place + ranges.len() as u8)
}
