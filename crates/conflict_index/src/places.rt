//! Where a row accesses an object, in the order of names.
ghost use Rattle.std.specs.Prelude.{◌≡◌};
ghost use Rattle.conflict_index.specs.Keeping.{place};

use tcs_terms::{Name, Slot};

/// An object that the row of a slot accesses, with the commit version of the row. Places are ordered by name, then by
/// version, and then by slot.
#[derive(Debug, Drop, PartialEq, Eq, PartialOrd, Ord)]
pub struct Place {
    pub object: Name,
    pub version: u64,
    pub slot: Slot,
}

/// The place of an object at a version and a slot.
pub fn place_of(name: &Name, version: u64, slot: Slot) -> Place
    ensures { result ≡ place name.now version slot }
{
    Place {
        object: name.again(),
        version,
        slot,
    }
}
