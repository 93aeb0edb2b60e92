//! The slices of a backup, and the payload of each.
ghost use Rattle.std.specs.Prelude.{◌≡◌, ◌+◌, ◌≤◌, [], ◌∷◌, length, All, map, IfOk};
ghost use Rattle.tcs_terms.specs.Payloads.{IsReadPart, IsRangePart};
ghost use Rattle.backup_machine.specs.Objects.{AreOf};
ghost use Rattle.backup_machine.specs.Slices.{read_of, range_of, greatest, slice_payload, all_slices};

use crate::objects::Kept;
use std::alloc::Global;
use tcs_terms::{Name, OutOfMemory, Payload, RangePart, ReadPart};

/// What a slice reads of an object.
fn read_of(name: &Name, version: u64) -> ReadPart
    ensures read { result ≡ record { name = name.now; version = version } }
    ensures part { IsReadPart result }
{
    let _name = name.bytes();
    ReadPart {
        name: name.again(),
        version,
    }
}

/// What a slice reads of its range.
fn range_of(from: &Name, upto: &Name) -> RangePart
    ensures range { result ≡ range_of from.now upto.now }
    ensures part { IsRangePart result }
{
    let _from = from.bytes();
    let _upto = upto.bytes();
    RangePart {
        from: from.again(),
        upto: upto.again(),
        version: 0,
    }
}

/// What a slice reads of its objects.
fn reads(alloc: Global, kept: &[Kept]) -> Result<Vec<ReadPart>, OutOfMemory>
    ensures reads { IfOk result (λ list. list.items ≡ map read_of kept.now) }
    ensures parts { IfOk result (λ list. All IsReadPart list.items) }
{
    let mut list = Vec::new(alloc);
    for object in kept {
        list.push(read_of(&object.name, object.version))?;
    }
    Ok(list)
}

/// The range of a slice.
fn ranges(alloc: Global, from: &Name, upto: &Name) -> Result<Vec<RangePart>, OutOfMemory>
    ensures ranges { IfOk result (λ list. list.items ≡ range_of from.now upto.now ∷ []) }
    ensures parts { IfOk result (λ list. All IsRangePart list.items) }
{
    let mut list = Vec::new(alloc);
    list.push(range_of(from, upto))?;
    Ok(list)
}

/// The greatest version, 0 where nothing is kept.
fn greatest(kept: &[Kept]) -> u64
    ensures { result ≡ greatest kept.now }
{
    let mut most = 0;
    for object in kept {
        most = object.version.max(most);
    }
    most
}

/// The payload of a slice: it reads its objects at their versions, and its range at 0.
#[tactic(auto, using(crate::proofs::Slicing::slice_is_a_payload))]
fn slice_payload(
    alloc: Global,
    from: &Name,
    upto: &Name,
    kept: &[Kept],
) -> Result<Payload, OutOfMemory>
    requires are { AreOf from.now upto.now kept.now }
    requires few { length kept.now ≤ 16 }
    ensures { IfOk result (λ payload. payload ≡ slice_payload from.now upto.now kept.now) }
{
    let reads = reads(alloc, kept)?;
    let ranges = ranges(alloc, from, upto)?;
    let version = greatest(kept) + 1;
    Payload::of(reads, ranges, Vec::new(alloc), version)
}

/// The payloads of the slices, each of so many objects and the last one of what is left: each begins at its first name,
/// but the first one where the range does, and ends where the next one begins.
pub(crate) fn all_slices(
    alloc: Global,
    width: usize,
    from: &Name,
    upto: &Name,
    kept: &[Kept],
) -> Result<Vec<Payload>, OutOfMemory>
    requires least { 1 ≤ width }
    requires most { width ≤ 16 }
    requires are { AreOf from.now upto.now kept.now }
    ensures { IfOk result (λ payloads. payloads.items ≡ all_slices width from.now upto.now kept.now) }
{
    let mut payloads = Vec::new(alloc);
    let mut from = from;
    let mut rest = kept;
    while rest.len() > width {
        let (slice, others) = rest.split_at(width);
        let next = &others[0].name;
        payloads.push(slice_payload(alloc, from, next, slice)?)?;
        from = next;
        rest = others;
    }
    payloads.push(slice_payload(alloc, from, upto, rest)?)?;
    Ok(payloads)
}
