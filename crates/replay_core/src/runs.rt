//! What a replay asks of a run that is kept event by event.
ghost use Rattle.std.specs.Prelude.{◌≡◌, ◌<◌, Bool, false, length, IfOk, OnOk, MatchOption, None};
ghost use Rattle.tcs_terms.specs.Runs.{MayStand};
ghost use Rattle.tcs_terms.specs.Setups.{Deployment};
ghost use Rattle.tcs_laws.specs.Certification.{Tests};
ghost use Rattle.schedule_text.specs.declared.limits.TheConstants.{EVENT_LIMIT};
ghost use Rattle.protocol.specs.History.{order_of};
ghost use Rattle.protocol.specs.Limit.{Progress, limited_step};
ghost use Rattle.protocol.specs.Limit.Progress.{Live};
ghost use Rattle.protocol.specs.World.{first_world, message_of};
ghost use Rattle.protocol_laws.specs.Promises.{world_of};
ghost use Rattle.world.specs.WorldState.{events_of};
ghost use Rattle.replay_core.specs.Steps.{Tells, IsPosted};

use std::alloc::Global;
use tcs_terms::{Event, NodeId, Note, OutOfMemory, Result1, Setup, TxId};

/// Why an event was not taken.
#[derive(Clone, Copy, Debug, PartialEq, Eq)]
pub(crate) enum RunStop {
    /// With it the frames of the run would have this many bytes, which is above the limit.
    Full(u64),
    OutOfMemory,
}

/// A message that was sent, by its frame.
#[derive(Clone, Copy, Debug)]
pub(crate) struct Posted<'a> {
    pub(crate) from: NodeId,
    pub(crate) to: NodeId,
    pub(crate) frame: &'a [u8],
}

/// One run of a setup by one certifier, under the limit on frame bytes, kept event by event.
pub(crate) trait Run: Drop {
    /// The tests of its certifier.
    ghost tests: { Tests };

    ghost setup: { Self → Deployment };

    /// The run so far.
    ghost progress: { Self → Progress };

    /// Whether memory ran out.
    ghost spent: { Self → Bool };

    /// The run before its first event.
    fn first(alloc: Global, deployment: Setup) -> Result<Self, OutOfMemory>
        ensures setup { IfOk result (λ run. setup run ≡ deployment) }
        ensures progress { IfOk result (λ run. progress run ≡ Live (first_world deployment) 0 0) }
        ensures fresh { IfOk result (λ run. spent run ≡ false) };

    /// Takes an event of the setup. After an `Err` the run is not asked again.
    fn step(&mut self, event: Event) -> Result<Result1, RunStop>
        requires may { MayStand (setup self.old) event }
        requires few { events_of (progress self.old) < EVENT_LIMIT }
        ensures answer { Tells result (limited_step tests (setup self.old).version (progress self.old) event).answer }
        ensures record { OnOk result (progress self.new ≡ (limited_step tests (setup self.old).version (progress self.old) event).after) }
        ensures setup { OnOk result (setup self.new ≡ setup self.old) }
        ensures lives { OnOk result (spent self.new ≡ false) };

    /// How many events were taken.
    fn events(&self) -> u32
        ensures { result ≡ events_of (progress self.now) };

    /// How many messages were sent.
    fn messages(&self) -> u32
        ensures sent { result ≡ length (world_of (progress self.now)).messages }
        ensures few { result < 4294967295 };

    /// The message of this number, from 1.
    fn message(&self, number: u32) -> Option<Posted<'_>>
        ensures { MatchOption result (message_of (world_of (progress self.now)).messages number ≡ None)
            (λ p. IsPosted (message_of (world_of (progress self.now)).messages number) p.from p.to p.frame.now) };

    /// All notes so far.
    fn history(&self) -> &[Note]
        ensures { result.now ≡ (world_of (progress self.now)).history };

    /// The transactions with a decision to commit, by their first one.
    fn order(&self) -> &[TxId]
        requires { spent self.now ≡ false }
        ensures { result.now ≡ order_of (world_of (progress self.now)).history };
}
