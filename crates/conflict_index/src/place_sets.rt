//! Sets of places: what a row accesses is kept and forgotten.
ghost use Rattle.std.specs.Prelude.{◌≡◌, false, not, ◌||◌, IsTrue, OnOk};
ghost use Rattle.std.specs.List.{list_all};
ghost use Rattle.std.specs.BTreeSet.{contains};
ghost use Rattle.conflict_index.specs.Change.{Grows, Gains, ChangesSlot};
ghost use Rattle.conflict_index.specs.Keeping.{place, place_cmp, object_cmp, all_kept, AreObjectsOf};

use crate::places::{Place, place_of};
use std::collections::BTreeSet;
use tcs_laws::BySight;
use tcs_terms::{Name, OutOfMemory, Payload, ReadPart, Slot, WritePart};

/// Keeps the place of each object that a row writes.
pub fn keep_writes(
    places: &mut BTreeSet<Place>,
    parts: &[WritePart],
    version: u64,
    slot: Slot,
) -> Result<(), OutOfMemory>
    ensures grows { Grows place_cmp places.old places.new }
    ensures kept { OnOk result (IsTrue (all_kept places.new (λ w. place w.name version slot) parts.now)) }
{
    for w in parts {
        keep(places, place_of(&w.name, version, slot))?;
    }
    Ok(())
}

/// Keeps the place of each object that a row writes, and the object.
pub fn keep_written(
    objects: &mut BTreeSet<Name>,
    places: &mut BTreeSet<Place>,
    parts: &[WritePart],
    version: u64,
    slot: Slot,
) -> Result<(), OutOfMemory>
    ensures objects { AreObjectsOf objects.old places.old → AreObjectsOf objects.new places.new }
    ensures grows { Grows place_cmp places.old places.new }
    ensures kept { OnOk result (IsTrue (all_kept places.new (λ w. place w.name version slot) parts.now)) }
{
    for w in parts {
        keep_with_object(objects, places, place_of(&w.name, version, slot))?;
    }
    Ok(())
}

/// Keeps the place of each object that a row read by name, where that counts.
pub fn keep_reads<C: BySight>(
    places: &mut BTreeSet<Place>,
    payload: &Payload,
    parts: &[ReadPart],
    version: u64,
    slot: Slot,
) -> Result<(), OutOfMemory>
    ensures grows { Grows place_cmp places.old places.new }
    ensures kept { OnOk result (IsTrue (list_all (λ r. not (C.counts payload.now r.name)
        || contains place_cmp places.new (place r.name version slot)) parts.now)) }
{
    for r in parts {
        keep_counted::<C>(places, payload, r, version, slot)?;
    }
    Ok(())
}

fn keep_counted<C: BySight>(
    places: &mut BTreeSet<Place>,
    payload: &Payload,
    read: &ReadPart,
    version: u64,
    slot: Slot,
) -> Result<(), OutOfMemory>
    ensures grows { Grows place_cmp places.old places.new }
    ensures kept { OnOk result (IsTrue (not (C.counts payload.now read.now.name)
        || contains place_cmp places.new (place read.now.name version slot))) }
{
    if C::sight_counts(payload, &read.name) {
        keep(places, place_of(&read.name, version, slot))?;
    }
    Ok(())
}

/// Forgets the place of each object that a row writes.
pub fn forget_writes(places: &mut BTreeSet<Place>, parts: &[WritePart], version: u64, slot: Slot)
    ensures changes { ChangesSlot slot places.old places.new }
    ensures gone { IsTrue (list_all (λ w. not (contains place_cmp places.new (place w.name version slot))) parts.now) }
{
    for w in parts {
        forget(places, place_of(&w.name, version, slot));
    }
}

/// Forgets the place of each object that a row read by name.
pub fn forget_reads(places: &mut BTreeSet<Place>, parts: &[ReadPart], version: u64, slot: Slot)
    ensures changes { ChangesSlot slot places.old places.new }
    ensures gone { IsTrue (list_all (λ r. not (contains place_cmp places.new (place r.name version slot))) parts.now) }
{
    for r in parts {
        forget(places, place_of(&r.name, version, slot));
    }
}

fn keep(places: &mut BTreeSet<Place>, place: Place) -> Result<(), OutOfMemory>
    ensures grows { Grows place_cmp places.old places.new }
    ensures gains { Gains place places.old places.new }
    ensures kept { OnOk result (IsTrue (contains place_cmp places.new place)) }
{
    places.insert(place)?;
    Ok(())
}

fn keep_object(objects: &mut BTreeSet<Name>, object: Name) -> Result<(), OutOfMemory>
    ensures grows { Grows object_cmp objects.old objects.new }
    ensures kept { OnOk result (IsTrue (contains object_cmp objects.new object)) }
{
    objects.insert(object)?;
    Ok(())
}

fn keep_with_object(
    objects: &mut BTreeSet<Name>,
    places: &mut BTreeSet<Place>,
    place: Place,
) -> Result<(), OutOfMemory>
    ensures objects { AreObjectsOf objects.old places.old → AreObjectsOf objects.new places.new }
    ensures grows { Grows place_cmp places.old places.new }
    ensures kept { OnOk result (IsTrue (contains place_cmp places.new place)) }
{
    keep_object(objects, place.object.again())?;
    keep(places, place)
}

fn forget(places: &mut BTreeSet<Place>, place: Place)
    ensures changes { ChangesSlot place.slot places.old places.new }
    ensures gone { contains place_cmp places.new place ≡ false }
{
    places.remove(&place);
}
