//! What is refused changes nothing.

ghost use Rattle.std.specs.Prelude.{◌≡◌, ℕ, false, List, map, IsTrue};
ghost use Rattle.tcs_terms.specs.declared.inputs.Event.{Event};
ghost use Rattle.tcs_terms.specs.declared.inputs.Input.{Input};
ghost use Rattle.tcs_terms.specs.declared.inputs.Result1.TheVariants.{Node};
ghost use Rattle.tcs_terms.specs.declared.messages.Message.{Message};
ghost use Rattle.tcs_terms.specs.Order.{ascends};
ghost use Rattle.tcs_terms.specs.Places.{Membership};
ghost use Rattle.tcs_laws.specs.Certification.{Tests};
ghost use Rattle.protocol.specs.FoundNothing.{has_acted};
ghost use Rattle.protocol.specs.Records.{NodeRecord};
ghost use Rattle.protocol.specs.Service.{serve};
ghost use Rattle.protocol.specs.Table.{step};
ghost use Rattle.protocol.specs.World.{World, world_step};
ghost use Rattle.protocol_laws.specs.Effect.{notices_for, notices_to};
ghost use Rattle.protocol_laws.specs.Refusals.{ChangesNothing, LeavesWorld};

/// An input that a node does not act on leaves the node as it was, and nothing is noted. Nothing is sent but the notice to
/// the sender of a message of a kind that is answered.
pub fn refused_inputs_change_nothing()
    ensures { (tests : Tests) (version : ℕ) (node : NodeRecord) (input : Input) → has_acted (Node (step tests version node input).answer) ≡ false
        → ChangesNothing node (notices_for input (step tests version node input).answer node.promised) (step tests version node input) }
{}

/// The same of a message that the service holds back.
pub fn held_messages_change_nothing()
    ensures { (nodes : ℕ) (configs : List Membership) (from : ℕ) (message : Message) → has_acted (Node (serve nodes configs from message).answer) ≡ false
        → ChangesNothing configs (notices_to from message (serve nodes configs from message).answer 0) (serve nodes configs from message) }
{}

/// And of an event of a world whose nodes stand in order of their names: one that is not acted on leaves all but a notice
/// as it was, and one that reached nobody all.
pub fn refused_events_change_nothing()
    ensures { (tests : Tests) (version : ℕ) (w : World) (event : Event) → IsTrue (ascends (map (λ (n : NodeRecord). n.name) w.nodes)) → has_acted (world_step tests version w event).result ≡ false
        → LeavesWorld w (world_step tests version w event) }
{}
