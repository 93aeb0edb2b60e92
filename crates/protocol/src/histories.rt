//! Small histories: correct ones, and ones that are correct but for one thing.
#![tactic(auto, unfolding(crate::proofs::OpenAll::open_all))]

ghost use Rattle.protocol.specs.Steps.Histories.{Agreeing, Ordering, Clashing, Losing, Copying, FindingNothing};

/// All decisions of one transaction are equal, and each stands after its beginning.
pub fn agreeing()
    ensures { Agreeing }
{}

/// The committed transactions pass the committed test one after the other.
pub fn ordering()
    ensures { Ordering }
{}

/// An abort by a clash names another transaction, begun before, that truly clashes.
pub fn clashing()
    ensures { Clashing }
{}

/// An abort of a lost transaction stands after a take-over of it.
pub fn losing()
    ensures { Losing }
{}

/// Honest reads, and one copy of the data.
pub fn copying()
    ensures { Copying }
{}

/// A take-over that found a preparation in one shard and none in another.
pub fn finding_nothing()
    ensures { FindingNothing }
{}
