//! Moves of a shard go on from what is stored.

ghost use Rattle.std.specs.Prelude.{List};
ghost use Rattle.tcs_terms.specs.declared.inputs.Event.{Event};
ghost use Rattle.tcs_terms.specs.Setups.{Deployment};
ghost use Rattle.tcs_laws.specs.Certification.{Tests};
ghost use Rattle.protocol.specs.Invariant.Time.{StandsIn};
ghost use Rattle.protocol.specs.Records.{NodeRecord};
ghost use Rattle.protocol.specs.Run.{run};
ghost use Rattle.protocol_laws.specs.EpochsBelow.{StandsOnStored};
ghost use Rattle.tcs_terms.specs.Runs.{AreEventsOf};

/// All epochs of a shard below the one that a prober is to make are stored.
pub fn epochs_below_are_stored()
    ensures { (tests : Tests) (setup : Deployment) (events : List Event) → AreEventsOf setup events → (node : NodeRecord) → StandsIn node (run tests setup events).nodes → StandsOnStored (run tests setup events) node.prober }
{}
