//! Single steps of nodes that become leader or follower of a new configuration.
#![tactic(auto, unfolding(crate::proofs::OpenAll::open_all))]

ghost use Rattle.protocol.specs.Steps.Transferring.{Leading, Following, GatheringPieces};

/// NEW_CONFIG makes a fenced node the leader of the epoch that it promised.
pub fn leading()
    ensures { Leading }
{}

/// NEW_STATE makes a member that does not lead a follower.
pub fn following()
    ensures { Following }
{}

/// STATE_PIECE adds a piece that fits; with the last one the node follows.
pub fn gathering_pieces()
    ensures { GatheringPieces }
{}
