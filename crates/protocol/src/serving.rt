//! Single steps of the configuration service, and of a world.
#![tactic(auto, unfolding(crate::proofs::OpenAll::open_all))]

ghost use Rattle.protocol.specs.Steps.Serving.{Answering, Comparing, HoldingBack};
ghost use Rattle.protocol.specs.Steps.Worlds.{Delivering, Filling, OldLeader};

/// LAST and AT are answered by what is stored.
pub fn answering()
    ensures { Answering }
{}

/// CAS stores the next epoch of a shard, once.
pub fn comparing()
    ensures { Comparing }
{}

/// Every other message is held back.
pub fn holding_back()
    ensures { HoldingBack }
{}

/// A message that was sent may be delivered many times, and a stopped node takes nothing.
pub fn delivering()
    ensures { Delivering }
{}

/// A run ends with the event whose sends would bring the frames above 268,435,456 bytes.
pub fn filling()
    ensures { Filling }
{}

/// An old leader that was never probed goes on beside a later epoch.
pub fn old_leader()
    ensures { OldLeader }
{}
