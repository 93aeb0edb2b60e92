//! What one event does: each rule of the table read backwards.

ghost use Rattle.std.specs.Prelude.{ℕ};
ghost use Rattle.tcs_terms.specs.declared.inputs.Event.{Event};
ghost use Rattle.tcs_terms.specs.declared.inputs.Input.{Input};
ghost use Rattle.tcs_laws.specs.Certification.{Tests};
ghost use Rattle.protocol.specs.Records.{NodeRecord};
ghost use Rattle.protocol.specs.Table.{step};
ghost use Rattle.protocol.specs.World.{World, world_step};
ghost use Rattle.protocol_laws.specs.Change.{Change};
ghost use Rattle.protocol_laws.specs.Effect.{Effect};

/// Whatever a node does with an input is one of the listed effects.
pub fn effects()
    ensures { (tests : Tests) (version : ℕ) (node : NodeRecord) (input : Input) → Effect tests version node input (step tests version node input) }
{}

/// Whatever an event does to a world is one of the listed changes: a node or the service acts or rests, a node stops, or
/// nothing happens.
pub fn changes()
    ensures { (tests : Tests) (version : ℕ) (w : World) (event : Event) → Change tests version w event (world_step tests version w event) }
{}
