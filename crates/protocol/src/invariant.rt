//! What holds at each moment of each run: as a run begins.

ghost use Rattle.std.specs.Prelude.{◌≡◌, List, []};
ghost use Rattle.tcs_terms.specs.declared.inputs.Event.{Event};
ghost use Rattle.tcs_laws.specs.Certification.{Tests};
ghost use Rattle.tcs_terms.specs.Setups.{Deployment, IsDeployment};
ghost use Rattle.protocol.specs.Run.{run};
ghost use Rattle.protocol.specs.Invariant.{InvariantHolds};
ghost use Rattle.protocol.specs.Invariant.Time.{time_after};

/// The invariant holds as a run begins, for any setup and any certifier. That each event keeps it is not claimed here.
pub fn invariant_at_the_start()
    ensures { (tests : Tests) (setup : Deployment) → IsDeployment setup → InvariantHolds tests setup (time_after tests setup []) }
{}

/// The invariant speaks of a run with all its past; its last world is the run's.
pub fn past_is_remembered()
    ensures { (tests : Tests) (setup : Deployment) (events : List Event) → (time_after tests setup events).now ≡ run tests setup events }
{}
