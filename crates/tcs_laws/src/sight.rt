//! What a payload saw of an object, and which objects it writes.
ghost use Rattle.std.specs.Prelude.{◌≡◌, find, None};
ghost use Rattle.std.specs.Option.{option_copied};
ghost use Rattle.tcs_terms.specs.Payloads.{same_name};
ghost use Rattle.tcs_terms.specs.Order.{name_before};
ghost use Rattle.tcs_terms.specs.Shards.{seen, version_seen, range_version, in_range_part};
ghost use Rattle.tcs_laws.specs.Writing.{writes_name, seen_below};

use tcs_terms::{Name, Payload, RangePart, ReadPart, WritePart};

/// The version at which a payload saw an object: that of its read by name, else that of the range in which the object
/// lies. `None` where it saw nothing of it.
pub fn version_seen(payload: &Payload, name: &Name) -> Option<u64>
    ensures { result ≡ seen payload.now name.now }
{
    match version_read(payload.reads(), name) {
        Some(version) => Some(version),
        None => version_in_range(payload.ranges(), name),
    }
}

/// Whether an object is among those that are written.
pub fn writes(parts: &[WritePart], name: &Name) -> bool
    ensures { result ≡ writes_name parts.now name.now }
{
    parts.iter().any(|w| is_same(&w.name, name))
}

/// Whether a version at which an object was seen, if it was seen, is below `version`.
pub fn is_below(seen: Option<u64>, version: u64) -> bool
    ensures { result ≡ seen_below seen version }
{
    match seen {
        Some(v) => v < version,
        None => false,
    }
}

fn version_read(reads: &[ReadPart], name: &Name) -> Option<u64>
    ensures { result ≡ version_seen (find (λ r. same_name r.name name.now) reads.now) None }
{
    match read_of(reads, name) {
        Some(read) => Some(read.version),
        None => None,
    }
}

fn version_in_range(ranges: &[RangePart], name: &Name) -> Option<u64>
    ensures { result ≡ range_version (find (in_range_part name.now) ranges.now) }
{
    match range_of(ranges, name) {
        Some(range) => Some(range.version),
        None => None,
    }
}

fn read_of<'a>(reads: &'a [ReadPart], name: &Name) -> Option<&'a ReadPart>
    ensures { option_copied result ≡ find (λ r. same_name r.name name.now) reads.now }
{
    reads.iter().find(|r| is_same(&r.name, name))
}

fn range_of<'a>(ranges: &'a [RangePart], name: &Name) -> Option<&'a RangePart>
    ensures { option_copied result ≡ find (in_range_part name.now) ranges.now }
{
    ranges.iter().find(|q| is_in(q, name))
}

fn is_same(a: &Name, b: &Name) -> bool
    ensures { result ≡ same_name a.now b.now }
{
    a.bytes() == b.bytes()
}

fn is_before(a: &Name, b: &Name) -> bool
    ensures { result ≡ name_before a.now b.now }
{
    a.bytes().cmp(b.bytes()).is_lt()
}

fn is_in(range: &RangePart, name: &Name) -> bool
    ensures { result ≡ in_range_part name.now range.now }
{
    !is_before(name, &range.from) && is_before(name, &range.upto)
}
