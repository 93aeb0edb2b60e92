//! Single steps of a node that a client calls.
#![tactic(auto, unfolding(crate::proofs::OpenAll::open_all))]

ghost use Rattle.protocol.specs.Steps.Clients.{Certifying, TakingOver, Nudging, Asking, Lowering, Reading};

/// A transaction begins while the node has a number for it.
pub fn certifying()
    ensures { Certifying }
{}

/// A transaction is taken over where a row holds it undecided, no case of it is open, and it may exist.
pub fn taking_over()
    ensures { TakingOver }
{}

/// A nudge asks again for all that is waited for, in each stage of a move too.
pub fn nudging()
    ensures { Nudging }
{}

/// A move begins whatever the prober did before; any shard may be asked for.
pub fn asking()
    ensures { Asking }
{}

/// A prober goes down one epoch from probing alone, after a low answer, and not below epoch 1.
pub fn lowering()
    ensures { Lowering }
{}

/// A read tells the committed value of greatest version.
pub fn reading()
    ensures { Reading }
{}
