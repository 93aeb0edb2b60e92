//! The trace of each run, judged.

ghost use Rattle.std.specs.Prelude.{◌≡◌, ◌<◌, ◌^◌, List, length};
ghost use Rattle.tcs_terms.specs.declared.inputs.Event.{Event};
ghost use Rattle.tcs_terms.specs.Runs.{AreEventsOf};
ghost use Rattle.tcs_terms.specs.Setups.{Deployment};
ghost use Rattle.protocol_laws.specs.Promises.{world_of};
ghost use Rattle.judge.specs.Verdicts.{counted};
ghost use Rattle.replay_core.specs.Trace.{run_of, trace};
ghost use Rattle.audit_core.specs.Audits.{Judged, answer_of};
ghost use Rattle.audit_laws.specs.Limits.{IsWithinLimits};

/// The trace of each run of a setup, where it keeps within the limits on a line and on a trace, is judged correct.
pub fn own_traces_are_judged_correct()
    ensures { (d : Deployment) (es : List Event) → AreEventsOf d es → length es < 2 ^ 64 → IsWithinLimits (trace d es)
        → answer_of (trace d es) ≡ Judged (counted (world_of (run_of d es)).history) }
{}
