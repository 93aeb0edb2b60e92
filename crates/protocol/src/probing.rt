//! Single steps of a node that promises epochs, and of one that moves a shard.
#![tactic(auto, unfolding(crate::proofs::OpenAll::open_all))]

ghost use Rattle.protocol.specs.Steps.Moving.{Promising, Choosing, Storing};

/// PROBE fences a node that may still promise the epoch.
pub fn promising()
    ensures { Promising }
{}

/// PROBE_ACK chooses a leader, or marks a member low.
pub fn choosing()
    ensures { Choosing }
{}

/// STORED replaces an older view, and takes the prober on where it was awaited.
pub fn storing()
    ensures { Storing }
{}
