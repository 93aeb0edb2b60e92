//! The lowest slot that clashes, among those of some places.
ghost use Rattle.std.specs.Prelude.{◌≡◌, IsTrue};
ghost use Rattle.std.specs.BTreeMap.Range.{IsLeBy};
ghost use Rattle.std.specs.BTreeSet.{keys_between};
ghost use Rattle.std.specs.declared.ops.Bound.TheVariants.{Included, Excluded};
ghost use Rattle.conflict_index.specs.Candidates.{clashes_at, is_lower, lower, lowest_at};
ghost use Rattle.conflict_index.specs.Keeping.{place_cmp, slots_rise};

use crate::places::Place;
use crate::row_search::row_at;
use std::collections::BTreeSet;
use tcs_laws::{Certifier, clashes};
use tcs_terms::{Payload, Row, Slot};

/// A payload that is voted on, and the rows over which.
#[derive(Clone, Copy)]
pub struct Query<'a> {
    pub rows: &'a [Row],
    pub new: &'a Payload,
}

/// Whether the row of a slot clashes with the payload.
#[tactic(auto, using(crate::proofs::Rising::clash_of_found))]
fn clashes_at<C: Certifier>(query: Query<'_>, slot: Slot) -> bool
    requires { IsTrue (slots_rise query.rows.now) }
    ensures { result ≡ clashes_at C.tests query.entry.rows.now query.entry.new.now slot }
{
    match row_at(query.rows, slot) {
        Some(row) => clashes::<C>(row, query.new),
        None => false,
    }
}

/// Whether a slot is below the lowest one so far.
fn is_lower(slot: Slot, best: Option<Slot>) -> bool
    ensures { result ≡ is_lower slot best }
{
    match best {
        Some(best) => slot < best,
        None => true,
    }
}

/// The lowest slot that clashes, with one slot more looked at.
pub fn lower<C: Certifier>(query: Query<'_>, best: Option<Slot>, slot: Slot) -> Option<Slot>
    requires { IsTrue (slots_rise query.rows.now) }
    ensures { result ≡ lower C.tests query.entry.rows.now query.entry.new.now best slot }
{
    if is_lower(slot, best) && clashes_at::<C>(query, slot) {
        Some(slot)
    } else {
        best
    }
}

/// The lowest slot that clashes, with the slots of all places from one to another looked at.
pub fn lowest_to<C: Certifier>(
    query: Query<'_>,
    places: &BTreeSet<Place>,
    from: Place,
    last: Place,
    best: Option<Slot>,
) -> Option<Slot>
    requires rise { IsTrue (slots_rise query.rows.now) }
    requires forward { IsLeBy place_cmp from last }
    ensures { result ≡ lowest_at C.tests query.entry.rows.now query.entry.new.now
        (keys_between place_cmp (Included from) (Included last) places.now) best }
{
    let mut lowest = best;
    for place in places.range(from..=last) {
        lowest = lower::<C>(query, lowest, place.slot);
    }
    lowest
}

/// The lowest slot that clashes, with the slots of all places from one on and before another looked at.
pub fn lowest_before<C: Certifier>(
    query: Query<'_>,
    places: &BTreeSet<Place>,
    from: Place,
    upto: Place,
    best: Option<Slot>,
) -> Option<Slot>
    requires rise { IsTrue (slots_rise query.rows.now) }
    requires forward { IsLeBy place_cmp from upto }
    ensures { result ≡ lowest_at C.tests query.entry.rows.now query.entry.new.now
        (keys_between place_cmp (Included from) (Excluded upto) places.now) best }
{
    let mut lowest = best;
    for place in places.range(from..upto) {
        lowest = lower::<C>(query, lowest, place.slot);
    }
    lowest
}
