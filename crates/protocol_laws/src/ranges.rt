//! Whatever nodes and the configuration service keep, send and note is in range: each message of each run has a spelling
//! in bytes.

ghost use Rattle.std.specs.Prelude.{ℕ, ◌≤◌, List, All, IsTrue};
ghost use Rattle.tcs_terms.specs.declared.inputs.Event.{Event};
ghost use Rattle.tcs_terms.specs.declared.inputs.Input.{Input};
ghost use Rattle.tcs_terms.specs.declared.limits.TheConstants.{MAX_NODES};
ghost use Rattle.tcs_terms.specs.declared.messages.Message.{Message};
ghost use Rattle.tcs_terms.specs.Messages.{InRange};
ghost use Rattle.tcs_terms.specs.Places.{Membership, IsMembership, is_node, is_shard};
ghost use Rattle.tcs_terms.specs.Setups.{Deployment, IsDeployment};
ghost use Rattle.tcs_laws.specs.Certification.{Tests};
ghost use Rattle.protocol.specs.Records.{NodeRecord};
ghost use Rattle.protocol.specs.Run.{run};
ghost use Rattle.protocol.specs.Service.{serve};
ghost use Rattle.protocol.specs.Table.{step};
ghost use Rattle.protocol.specs.World.{World, first_node, first_world, world_step};
ghost use Rattle.protocol_laws.specs.Ranges.{AreViews, ComesFromNode, IsEventInRange, IsHappeningInRange, IsInputInRange, IsNodeInRange, IsOutInRange, IsWorldInRange};
ghost use Rattle.tcs_terms.specs.Runs.{AreEventsOf, MayStand};

/// A node begins in range.
pub fn first_node_in_range()
    ensures { (configs : List Membership) (name shard : ℕ) → AreViews configs → IsTrue (is_node name) → IsTrue (is_shard shard) → IsNodeInRange (first_node configs name shard) }
{}

/// A node in range, whatever it does with an input in range, stays in range, and so is all that it sends and notes, by any
/// two tests.
pub fn step_in_range()
    ensures { (tests : Tests) (version : ℕ) (node : NodeRecord) (input : Input) → IsNodeInRange node → IsInputInRange input → IsOutInRange IsNodeInRange (ComesFromNode input) (step tests version node input) }
{}

/// The service, whatever it does with a message in range, stores configurations and sends messages in range, for at most
/// 64 nodes.
pub fn serve_in_range()
    ensures { (nodes : ℕ) (configs : List Membership) (from : ℕ) (message : Message) → nodes ≤ MAX_NODES → All IsMembership configs → InRange message
        → IsOutInRange (All IsMembership) (from ≤ MAX_NODES) (serve nodes configs from message) }
{}

/// The world of a setup begins in range.
pub fn first_world_in_range()
    ensures { (setup : Deployment) → IsDeployment setup → IsWorldInRange (first_world setup) }
{}

/// An event of a run of a setup is in range.
pub fn events_in_range()
    ensures { (setup : Deployment) (event : Event) → IsDeployment setup → MayStand setup event → IsEventInRange event }
{}

/// One event keeps a world in range.
pub fn world_step_in_range()
    ensures { (tests : Tests) (version : ℕ) (w : World) (event : Event) → IsWorldInRange w → IsEventInRange event → IsHappeningInRange (world_step tests version w event) }
{}

/// So every run of a setup is in range.
pub fn run_in_range()
    ensures { (tests : Tests) (setup : Deployment) (events : List Event) → AreEventsOf setup events → IsWorldInRange (run tests setup events) }
{}
