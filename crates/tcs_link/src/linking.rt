//! What frames are sent and received through.
ghost use Rattle.std.specs.Prelude.{◌≡◌, ℕ, ◌≤◌, Option, None, Some, length, IfOk, OnOk, OnErr, IsErrOf};
ghost use Rattle.tcs_io.specs.Faults.{Rose, last_u64};
ghost use Rattle.tcs_link.specs.declared.linking.LinkStop.TheVariants.{OutOfMemory as no_memory};
ghost use Rattle.tcs_link.specs.Told.{Told, after_attach, after_send, after_poll, arrival_of, IsWithin};

use std::alloc::AllocError;
use tcs_terms::{NodeId, OutOfMemory};

/// Why a link did not do what it was asked.
#[derive(Clone, Copy, Debug, PartialEq, Eq)]
pub enum LinkStop {
    /// It failed. The cause stays with the link, which counts it.
    Failed,
    /// The link keeps frames in memory, and there was no room.
    OutOfMemory,
}

impl From<AllocError> for LinkStop {
    ghost from_gives = { λ _ stop. stop ≡ no_memory };

    fn from(_: AllocError) -> Self {
        LinkStop::OutOfMemory
    }
}

impl From<OutOfMemory> for LinkStop {
    ghost from_gives = { λ _ stop. stop ≡ no_memory };

    fn from(_: OutOfMemory) -> Self {
        LinkStop::OutOfMemory
    }
}

/// What a poll found.
#[derive(Clone, Copy, Debug, PartialEq, Eq)]
pub enum Polled {
    Nothing,
    /// A frame, whose first `len` bytes are at the front of the buffer: all of them, where the buffer had room. The
    /// sender is the one that the network states, which may be false; 255 is a sender that is no node.
    Frame { from: NodeId, len: usize },
}

/// Carries frames among nodes, and may lose, repeat, cut, reorder and forge them. Both counts are numbers of 64 bits that
/// never fall and stay at their last value.
pub trait Link {
    /// How often `attach` and `poll` have failed.
    ghost faults: { Self → ℕ };

    /// How often `send` has failed.
    ghost failed_sends: { Self → ℕ };

    /// What the link tells of its calls, where it tells it: the names and the port that were attached last, every frame
    /// handed to `send`, and every poll that was answered. A call that ran out of memory is not told.
    ghost told: { Self → Option Told };

    /// Begins to take frames for these names. The frames of a name come to this port plus the name.
    /// `Failed` comes only where the count of faults rose.
    fn attach(&mut self, names: &[NodeId], port: u16) -> Result<(), LinkStop>
        ensures attached { (before : Told) → told self.old ≡ Some before
            → OnOk result (told self.new ≡ Some (after_attach before names.now port)) }
        ensures kept { OnErr result (told self.new ≡ told self.old) }
        ensures untold { told self.old ≡ None → told self.new ≡ None }

        ensures count { faults self.old ≤ faults self.new }
        ensures limit { faults self.new ≤ last_u64 }
        ensures sends { failed_sends self.new ≡ failed_sends self.old }
        ensures failed { IsErrOf result LinkStop.Failed → Rose (faults self.old) (faults self.new) }
        ensures memory { IsErrOf result LinkStop.OutOfMemory → faults self.new ≡ faults self.old };

    /// Hands a frame to the network, which may lose it, also with `Ok`. `Failed` comes only where the count of failed
    /// sends rose; the frame counts as handed over then too.
    fn send(&mut self, from: NodeId, to: NodeId, frame: &[u8]) -> Result<(), LinkStop>
        ensures handed { (before : Told) → told self.old ≡ Some before
            → OnOk result (told self.new ≡ Some (after_send before (record { from = from; to = to; bytes = frame.now }))) }
        ensures lost { (before : Told) → told self.old ≡ Some before → IsErrOf result LinkStop.Failed
            → told self.new ≡ Some (after_send before (record { from = from; to = to; bytes = frame.now })) }
        ensures kept { IsErrOf result LinkStop.OutOfMemory → told self.new ≡ told self.old }
        ensures untold { told self.old ≡ None → told self.new ≡ None }

        ensures faults { faults self.new ≡ faults self.old }
        ensures count { failed_sends self.old ≤ failed_sends self.new }
        ensures limit { failed_sends self.new ≤ last_u64 }
        ensures failed { IsErrOf result LinkStop.Failed → Rose (failed_sends self.old) (failed_sends self.new) }
        ensures memory { IsErrOf result LinkStop.OutOfMemory → failed_sends self.new ≡ failed_sends self.old };

    /// Takes the next frame that has come for a node, without waiting; what does not fit the buffer is cut off. `Failed`
    /// comes only where the count of faults rose.
    fn poll(&mut self, node: NodeId, buf: &mut [u8]) -> Result<Polled, LinkStop>
        ensures within { IfOk result (IsWithin (length buf.old)) }
        ensures polled { (before : Told) → told self.old ≡ Some before
            → IfOk result (λ p. told self.new ≡ Some (after_poll before node (arrival_of p buf.new))) }
        ensures kept { OnErr result (told self.new ≡ told self.old) }
        ensures untold { told self.old ≡ None → told self.new ≡ None }

        ensures count { faults self.old ≤ faults self.new }
        ensures limit { faults self.new ≤ last_u64 }
        ensures sends { failed_sends self.new ≡ failed_sends self.old }
        ensures failed { IsErrOf result LinkStop.Failed → Rose (faults self.old) (faults self.new) }
        ensures memory { IsErrOf result LinkStop.OutOfMemory → faults self.new ≡ faults self.old };
}
