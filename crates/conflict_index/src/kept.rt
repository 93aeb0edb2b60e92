//! What an index keeps of the rows that it stands for.

use crate::places::Place;
use std::alloc::Global;
use std::collections::BTreeSet;
use tcs_terms::{Name, Slot};

/// What an index keeps of the rows that it stands for. A row is live while it is undecided and may still commit. More
/// may be kept, as what is left of a row for which memory ran out: a vote looks at the row of each slot that it finds.
#[derive(Debug, Drop)]
pub struct Kept {
    /// The objects of `writes`. One stays when no row writes it any more.
    pub objects: BTreeSet<Name>,
    /// What rows write that are not aborted.
    pub writes: BTreeSet<Place>,
    /// What live rows write.
    pub writers: BTreeSet<Place>,
    /// What live rows read by name, where that counts for the rule.
    pub readers: BTreeSet<Place>,
    /// Live rows that read a range, where that counts for the rule.
    pub ranged: BTreeSet<Slot>,
}

impl Kept {
    ghost use Rattle.conflict_index.specs.Keeping.{AreObjectsOf};

    /// Nothing yet.
    #[tactic(auto, using(crate::proofs::Growing::objects_of_none))]
    pub fn new(alloc: Global) -> Kept
        ensures { AreObjectsOf result.objects result.writes }
    {
        Kept {
            objects: BTreeSet::new(alloc),
            writes: BTreeSet::new(alloc),
            writers: BTreeSet::new(alloc),
            readers: BTreeSet::new(alloc),
            ranged: BTreeSet::new(alloc),
        }
    }
}
