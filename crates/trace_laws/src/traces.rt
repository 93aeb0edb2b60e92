//! The trace of each run.

ghost use Rattle.std.specs.Prelude.{◌<◌, ◌^◌, List, length};
ghost use Rattle.tcs_terms.specs.declared.inputs.Event.{Event};
ghost use Rattle.tcs_terms.specs.Runs.{AreEventsOf};
ghost use Rattle.tcs_terms.specs.Setups.{Deployment};
ghost use Rattle.trace_text.specs.Traces.{IsTrace};
ghost use Rattle.replay_core.specs.Trace.{run_trace};

/// What each run of a setup shows can stand in a trace.
pub fn runs_have_traces()
    ensures { (d : Deployment) (es : List Event) → AreEventsOf d es → length es < 2 ^ 64 → IsTrace (run_trace d es) }
{}
