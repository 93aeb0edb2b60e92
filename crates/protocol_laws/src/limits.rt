//! Runs under the limit on the bytes of their frames.

ghost use Rattle.std.specs.Prelude.{List};
ghost use Rattle.tcs_terms.specs.declared.inputs.Event.{Event};
ghost use Rattle.tcs_terms.specs.Setups.{Deployment};
ghost use Rattle.tcs_laws.specs.Certification.{Tests};
ghost use Rattle.protocol.specs.Limit.{limited_run};
ghost use Rattle.protocol_laws.specs.Limits.{LimitHolds};

/// A run that keeps within the limit is the run. One that ended at it is the run of the events before the one that
/// would have passed it: what holds of that run holds of its messages, its history and its stopped nodes.
pub fn limit_cuts()
    ensures { (tests : Tests) (setup : Deployment) (events : List Event) → LimitHolds tests setup events (limited_run tests setup events) }
{}
