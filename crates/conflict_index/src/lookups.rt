//! The lowest slot that clashes among the rows in a payload's way.
ghost use Rattle.std.specs.Prelude.{◌≡◌, ◌^◌, ◌-◌, IsTrue, fold, if◌then◌else◌};
ghost use Rattle.tcs_terms.specs.Payloads.{IsPayload};
ghost use Rattle.tcs_terms.specs.Order.{name_before};
ghost use Rattle.conflict_index.specs.Candidates.{lowest_at, lowest_by_read, lowest_by_range, lowest_by_reads, lowest_by_ranges, lowest_by_writes, lowest_ranged, lowest_in_way, places_of, places_above, places_in};
ghost use Rattle.conflict_index.specs.Keeping.{place, slots_rise};

use crate::candidates::{Query, lower, lowest_before, lowest_to};
use crate::kept::Kept;
use crate::places::{Place, place_of};
use std::collections::BTreeSet;
use tcs_laws::{BySight, Certifier};
use tcs_terms::{Name, Payload, RangePart, ReadPart, Row, Slot, WritePart};

/// With the rows at the places of one object looked at.
#[tactic(auto, using(crate::proofs::Naming::own_forward))]
fn lowest_of<C: Certifier>(
    query: Query<'_>,
    places: &BTreeSet<Place>,
    name: &Name,
    best: Option<Slot>,
) -> Option<Slot>
    requires { IsTrue (slots_rise query.rows.now) }
    ensures { result ≡ lowest_at C.tests query.entry.rows.now query.entry.new.now (places_of places.now name.now) best }
{
    lowest_to::<C>(query, places, place_of(name, 0, 0), last_of(name), best)
}

/// With those at the places of one object above a version.
#[tactic(auto, using(crate::proofs::Naming::above_forward))]
fn lowest_above<C: Certifier>(
    query: Query<'_>,
    places: &BTreeSet<Place>,
    object: &Name,
    version: u64,
    best: Option<Slot>,
) -> Option<Slot>
    requires { IsTrue (slots_rise query.rows.now) }
    ensures { result ≡ lowest_at C.tests query.entry.rows.now query.entry.new.now (places_above places.now object.now version) best }
{
    let from = place_of(object, version, Slot::MAX);
    lowest_to::<C>(query, places, from, last_of(object), best)
}

/// The greatest place of an object.
fn last_of(object: &Name) -> Place
    ensures { result ≡ place object.now (2 ^ 64 - 1) 65535 }
{
    place_of(object, u64::MAX, Slot::MAX)
}

/// With those at the places of the objects of a range.
#[tactic(auto, using(crate::proofs::Naming::range_forward))]
fn lowest_in<C: Certifier>(
    query: Query<'_>,
    places: &BTreeSet<Place>,
    range: &RangePart,
    best: Option<Slot>,
) -> Option<Slot>
    requires rise { IsTrue (slots_rise query.rows.now) }
    requires whole { IsTrue (name_before range.now.from range.now.upto) }
    ensures { result ≡ lowest_at C.tests query.entry.rows.now query.entry.new.now (places_in places.now range.now) best }
{
    let from = place_of(&range.from, 0, 0);
    let upto = place_of(&range.upto, 0, 0);
    lowest_before::<C>(query, places, from, upto, best)
}

/// With the rows looked at that write what was read by name: live ones, and all above the version that was seen.
fn lowest_by_read<C: Certifier>(
    query: Query<'_>,
    kept: &Kept,
    read: &ReadPart,
    best: Option<Slot>,
) -> Option<Slot>
    requires { IsTrue (slots_rise query.rows.now) }
    ensures { result ≡ lowest_by_read C.tests query.entry.rows.now query.entry.new.now kept.now read.now best }
{
    let live = lowest_of::<C>(query, &kept.writers, &read.name, best);
    lowest_above::<C>(query, &kept.writes, &read.name, read.version, live)
}

/// With those that write what was read by a range.
#[tactic(auto, using(crate::proofs::Naming::objects_forward))]
fn lowest_by_range<C: Certifier>(
    query: Query<'_>,
    kept: &Kept,
    range: &RangePart,
    best: Option<Slot>,
) -> Option<Slot>
    requires rise { IsTrue (slots_rise query.rows.now) }
    requires whole { IsTrue (name_before range.now.from range.now.upto) }
    ensures { result ≡ lowest_by_range C.tests query.entry.rows.now query.entry.new.now kept.now range.now best }
{
    let live = lowest_in::<C>(query, &kept.writers, range, best);
    let version = range.version;
    kept.objects
        .range(range.from.again()..range.upto.again())
        .fold(
            live,
            |best, object| lowest_above::<C>(query, &kept.writes, object, version, best),
        )
}

fn lowest_by_counted_read<C: BySight>(
    query: Query<'_>,
    kept: &Kept,
    read: &ReadPart,
    best: Option<Slot>,
) -> Option<Slot>
    requires { IsTrue (slots_rise query.rows.now) }
    ensures { result ≡ if C.counts query.entry.new.now read.now.name
        then lowest_by_read C.tests query.entry.rows.now query.entry.new.now kept.now read.now best else best }
{
    if C::sight_counts(query.new, &read.name) {
        lowest_by_read::<C>(query, kept, read, best)
    } else {
        best
    }
}

fn lowest_by_reads<C: BySight>(query: Query<'_>, kept: &Kept, best: Option<Slot>) -> Option<Slot>
    requires { IsTrue (slots_rise query.rows.now) }
    ensures { result ≡ lowest_by_reads C.tests query.entry.rows.now query.entry.new.now C.counts C.COUNTS_UNWRITTEN kept.now best }
{
    query.new.reads().iter().fold(
        best,
        |best, read| lowest_by_counted_read::<C>(query, kept, read, best),
    )
}

fn lowest_by_all_ranges<C: Certifier>(
    query: Query<'_>,
    kept: &Kept,
    best: Option<Slot>,
) -> Option<Slot>
    requires { IsTrue (slots_rise query.rows.now) }
    ensures { result ≡ fold (λ b q. lowest_by_range C.tests query.entry.rows.now query.entry.new.now kept.now q b) best query.entry.new.now.ranges }
{
    let ranges = query.new.ranges();
    let mut lowest = best;
    for range in ranges {
        lowest = lowest_by_range::<C>(query, kept, range, lowest);
    }
    lowest
}

fn lowest_by_ranges<C: BySight>(query: Query<'_>, kept: &Kept, best: Option<Slot>) -> Option<Slot>
    requires { IsTrue (slots_rise query.rows.now) }
    ensures { result ≡ lowest_by_ranges C.tests query.entry.rows.now query.entry.new.now C.counts C.COUNTS_UNWRITTEN kept.now best }
{
    if C::COUNTS_UNWRITTEN {
        lowest_by_all_ranges::<C>(query, kept, best)
    } else {
        best
    }
}

fn lowest_by_writes<C: BySight>(query: Query<'_>, kept: &Kept, best: Option<Slot>) -> Option<Slot>
    requires { IsTrue (slots_rise query.rows.now) }
    ensures { result ≡ lowest_by_writes C.tests query.entry.rows.now query.entry.new.now C.counts C.COUNTS_UNWRITTEN kept.now best }
{
    query.new.writes().iter().fold(
        best,
        |best, write| lowest_of::<C>(query, &kept.readers, &write.name, best),
    )
}

/// With the live rows that read a range looked at, where something is written.
fn lowest_ranged<C: Certifier>(
    query: Query<'_>,
    ranged: &BTreeSet<Slot>,
    parts: &[WritePart],
    best: Option<Slot>,
) -> Option<Slot>
    requires { IsTrue (slots_rise query.rows.now) }
    ensures { result ≡ lowest_ranged C.tests query.entry.rows.now query.entry.new.now ranged.now parts.now best }
{
    match parts {
        [] => best,
        [_, ..] => ranged
            .iter()
            .fold(best, |best, slot| lower::<C>(query, best, *slot)),
    }
}

/// The lowest slot that clashes among the rows in a payload's way.
pub fn lowest_in_way<C: BySight>(kept: &Kept, rows: &[Row], new: &Payload) -> Option<Slot>
    requires { IsTrue (slots_rise rows.now) }
    ensures lowest { result ≡ lowest_in_way C.tests rows.now new.now C.counts C.COUNTS_UNWRITTEN kept.now }
    ensures formed { IsPayload new.now }
{
    let query = Query { rows, new };
    let by_reads = lowest_by_reads::<C>(query, kept, None);
    let by_ranges = lowest_by_ranges::<C>(query, kept, by_reads);
    let by_writes = lowest_by_writes::<C>(query, kept, by_ranges);
    lowest_ranged::<C>(query, &kept.ranged, new.writes(), by_writes)
}
