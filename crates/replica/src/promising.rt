//! A node promises to reach no lower epoch.
ghost use Rattle.std.specs.Prelude.{◌≡◌, ◌++◌, IsTrue, IsErr, IfOk, OnOk};
ghost use Rattle.std.specs.Result.{is_err};
ghost use Rattle.tcs_terms.specs.Places.{is_epoch};
ghost use Rattle.protocol.specs.Records.{NodeRecord};
ghost use Rattle.protocol.specs.ShardRules.{on_probe};
ghost use Rattle.replica.specs.Duties.{least_of};
ghost use Rattle.replica.specs.Replicas.{duty_in, within};

use crate::replicas::Replica;
use answers::refusal;
use state_transfer::drop_below;
use std::alloc::Global;
use tcs_laws::VoteGuard;
use tcs_terms::{Epoch, Handled, Message, NodeId, OutOfMemory, Outgoing};

impl<G: VoteGuard> Replica<G> {
    /// The least epoch that the node may still promise or reach.
    pub(crate) fn least(&self) -> Epoch
        ensures { result ≡ least_of (duty_in self.now) }
    {
        let role = self.duty.role();
        role.promised().max(role.state() + 1)
    }

    /// PROBE: the node is fenced, and promises to reach no lower epoch. What it gathered for a lower one is dropped.
    pub fn probe(
        &mut self,
        alloc: Global,
        from: NodeId,
        epoch: Epoch,
        out: &mut Vec<Outgoing>,
    ) -> Result<Handled, OutOfMemory>
        requires { IsTrue (is_epoch epoch) }
        ensures answer { (node : NodeRecord) → IfOk result (λ h. h ≡ (on_probe (within node self.old) from epoch).answer) }
        ensures kept { (node : NodeRecord) → OnOk result (within node self.new ≡ (on_probe (within node self.old) from epoch).kept) }
        ensures sends { (node : NodeRecord) → OnOk result (out.new.items ≡ out.old.items ++ (on_probe (within node self.old) from epoch).sends) }
        ensures spent { self.new.spent ≡ is_err result }
        ensures refuses { IsTrue self.old.spent → IsErr result }
    {
        if self.spent {
            return Err(OutOfMemory);
        }
        let least = self.least();
        if epoch < least {
            return Ok(refusal(epoch, least));
        }
        self.spent = true;
        let message = Message::ProbeAck {
            epoch,
            state: self.duty.role().state(),
        };
        out.push(Outgoing { to: from, message })?;
        self.duty.fence(alloc, epoch);
        drop_below(&mut self.gathering, epoch);
        self.spent = false;
        Ok(Handled::Acted)
    }
}
