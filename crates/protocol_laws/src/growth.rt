//! What one more event adds to a run: the laws of a world that is kept step by step.

ghost use Rattle.std.specs.Prelude.{◌≡◌, ℕ, ◌≤◌, List, [], ◌∷◌, ◌++◌, length};
ghost use Rattle.tcs_terms.specs.declared.inputs.Event.{Event};
ghost use Rattle.tcs_terms.specs.declared.inputs.Note.{Note};
ghost use Rattle.tcs_terms.specs.Setups.{Deployment};
ghost use Rattle.tcs_laws.specs.Certification.{Tests};
ghost use Rattle.protocol.specs.History.{commit_in, order_of};
ghost use Rattle.protocol.specs.Limit.{frame_bytes, limited_run, limited_step};
ghost use Rattle.protocol.specs.Run.{ran, run};
ghost use Rattle.protocol.specs.World.{Sent, World, world_step};
ghost use Rattle.protocol_laws.specs.Growth.{AddsTo, CountsHold, with_commit};

/// The run under the limit over one more event is one more step.
pub fn run_goes_on()
    ensures { (tests : Tests) (setup : Deployment) (events : List Event) (event : Event)
        → limited_run tests setup (events ++ event ∷ []) ≡ (limited_step tests setup.version (limited_run tests setup events) event).after }
{}

/// The run with results comes to the world of the run.
pub fn results_of_run()
    ensures { (tests : Tests) (setup : Deployment) (events : List Event) → (ran tests setup events).world ≡ run tests setup events }
{}

/// An event adds what it sends to the messages, and at most one note to the history.
pub fn event_adds()
    ensures { (tests : Tests) (version : ℕ) (w : World) (event : Event) → AddsTo w (world_step tests version w event) }
{}

/// A decision to commit a transaction that is not in the order puts it at the end; any other note leaves the order.
pub fn order_goes_on()
    ensures { (history : List Note) (note : Note) → order_of (history ++ note ∷ []) ≡ with_commit (order_of history) (commit_in note) }
{}

/// No more messages than bytes in their frames.
pub fn messages_are_few()
    ensures { (messages : List Sent) → length messages ≤ frame_bytes messages }
{}

/// The counts of a live run: its events, the bytes of its frames, at most 268,435,456 messages, and at most one note an
/// event.
pub fn counts_hold()
    ensures { (tests : Tests) (setup : Deployment) (events : List Event) → CountsHold events (limited_run tests setup events) }
{}
