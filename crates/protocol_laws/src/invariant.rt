//! What holds at each moment of each run.

ghost use Rattle.std.specs.Prelude.{List};
ghost use Rattle.tcs_terms.specs.declared.inputs.Event.{Event};
ghost use Rattle.tcs_terms.specs.Runs.{AreEventsOf};
ghost use Rattle.tcs_terms.specs.Setups.{Deployment};
ghost use Rattle.tcs_laws.specs.Certification.{Tests};
ghost use Rattle.protocol.specs.Invariant.{InvariantHolds};
ghost use Rattle.protocol.specs.Invariant.Time.{time_after};

/// The whole invariant, after any events, whatever was lost, repeated, reordered or stopped, by any two tests.
pub fn invariant_always()
    ensures { (tests : Tests) (setup : Deployment) (events : List Event) → AreEventsOf setup events → InvariantHolds tests setup (time_after tests setup events) }
{}
