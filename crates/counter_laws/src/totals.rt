//! What nodes have of counters, and what the order of commits comes to.

ghost use Rattle.std.specs.Prelude.{◌≡◌, ◌≤◌, ℕ, true, List};
ghost use Rattle.tcs_terms.specs.declared.inputs.Event.{Event};
ghost use Rattle.tcs_terms.specs.Runs.{AreEventsOf};
ghost use Rattle.tcs_terms.specs.Setups.{Deployment};
ghost use Rattle.tcs_terms.specs.Shards.{lies_in};
ghost use Rattle.tcs_laws.specs.Certification.{Tests};
ghost use Rattle.protocol.specs.Invariant.Time.{StandsIn};
ghost use Rattle.protocol.specs.Limit.Progress.{Live};
ghost use Rattle.protocol.specs.Records.{NodeRecord};
ghost use Rattle.protocol.specs.World.{World};
ghost use Rattle.protocol_laws.specs.Promises.{KeepsItsPromises};
ghost use Rattle.counters.specs.Amounts.{node_total};
ghost use Rattle.counters.specs.Histories.{total};
ghost use Rattle.counter_laws.specs.Marked.{HasEach};

/// No node has more of a counter than the sum over the order of commits.
pub fn no_node_has_more()
    ensures { (tests : Tests) (setup : Deployment) (events : List Event) (w : World) (count bytes : ℕ)
        → KeepsItsPromises tests setup events (Live w count bytes)
        → (node : NodeRecord) → StandsIn node w.nodes → (name : List ℕ) → node_total node.rows name ≤ total w.history name }
{}

/// A node of a counter's shard that has each committed addition to the counter marked has as much of it as the sum over
/// the order of commits.
pub fn node_that_has_all()
    ensures { (tests : Tests) (setup : Deployment) (events : List Event) (w : World) (count bytes : ℕ)
        → KeepsItsPromises tests setup events (Live w count bytes) → AreEventsOf setup events
        → (node : NodeRecord) → StandsIn node w.nodes → (name : List ℕ) → lies_in setup.shards node.shard name ≡ true
        → HasEach w.history node.rows name → node_total node.rows name ≡ total w.history name }
{}
