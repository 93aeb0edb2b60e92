//! What holds of every run, whatever is lost, repeated or delivered late, and whichever acceptors stop.
ghost use Rattle.std.specs.Prelude.{ℕ, List};
ghost use Rattle.quorum_protocol.specs.declared.terms.Event.{Event};
ghost use Rattle.quorum_protocol.specs.World.{history};
ghost use Rattle.quorum_protocol.specs.Theorem.{Agree, WasProposed, IsClimbed};

/// Any two stored notes of one shard and epoch have equal configurations.
pub fn configurations_agree()
    ensures { (acceptors : ℕ) (events : List Event) → Agree (history acceptors events) }
{}

/// The configuration of each stored note stands in a `cas` event of its shard and epoch before it.
pub fn stored_was_proposed()
    ensures { (acceptors : ℕ) (events : List Event) (event : Event) → WasProposed acceptors events event }
{}

/// Before a stored note of a proposer with an epoch above 2 stands one of the same proposer and shard with the epoch
/// below.
pub fn epochs_are_climbed()
    ensures { (acceptors : ℕ) (events : List Event) (event : Event) → IsClimbed acceptors events event }
{}
