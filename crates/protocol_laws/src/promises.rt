//! What each run under the limit promises.

ghost use Rattle.std.specs.Prelude.{List};
ghost use Rattle.tcs_terms.specs.declared.inputs.Event.{Event};
ghost use Rattle.tcs_terms.specs.Runs.{AreEventsOf};
ghost use Rattle.tcs_terms.specs.Setups.{Deployment};
ghost use Rattle.tcs_laws.specs.Certification.{Tests};
ghost use Rattle.tcs_laws.specs.Laws.{IsLawful};
ghost use Rattle.protocol.specs.Limit.{limited_run};
ghost use Rattle.protocol_laws.specs.Promises.{KeepsItsPromises};

/// Every run under the limit keeps its promises, by a certifier that obeys the laws, whether it goes on or has ended.
/// A program that runs the steps of `limited_run` cites this law.
pub fn promises_kept()
    ensures { (tests : Tests) (setup : Deployment) (events : List Event) → IsLawful tests → AreEventsOf setup events
        → KeepsItsPromises tests setup events (limited_run tests setup events) }
{}
