//! Single steps of a node that prepares, accepts and marks.
#![tactic(auto, unfolding(crate::proofs::OpenAll::open_all))]

ghost use Rattle.protocol.specs.Steps.Preparing.{Preparing, Voting, Accepting, Deciding};

/// PREPARE acts at a leader of its epoch.
pub fn preparing()
    ensures { Preparing }
{}

/// A vote names the row of lowest slot that clashes.
pub fn voting()
    ensures { Voting }
{}

/// ACCEPT acts at a follower of its epoch, unless its slot or its transaction is taken.
pub fn accepting()
    ensures { Accepting }
{}

/// DECISION marks a row, once.
pub fn deciding()
    ensures { Deciding }
{}
