//! A member learns the decision of a transaction in its log.
ghost use Rattle.std.specs.Prelude.{◌≡◌, ◌&&◌, nat_le, IsTrue, IsErr, IfOk, OnOk};
ghost use Rattle.std.specs.Result.{is_err};
ghost use Rattle.protocol.specs.Log.{has_at};
ghost use Rattle.protocol.specs.Records.{NodeRecord};
ghost use Rattle.protocol.specs.ShardRules.{on_decision};
ghost use Rattle.replica.specs.Replicas.{within};

use crate::replicas::Replica;
use answers::refusal;
use std::alloc::Global;
use tcs_laws::VoteGuard;
use tcs_terms::{Epoch, Handled, OutOfMemory, Slot, TxId};

impl<G: VoteGuard> Replica<G> {
    /// Whether the node reached this epoch, and the slot has the transaction.
    fn may_mark(&self, epoch: Epoch, slot: Slot, txn: TxId) -> bool
        ensures { let s = self.now in result ≡ (nat_le epoch s.state && has_at s.rows slot txn) }
    {
        let role = self.duty.role();
        epoch <= role.state() && role.log().has_at(slot, txn)
    }

    /// DECISION: the row of that slot and transaction is marked, in this epoch or a later one. Nothing is sent.
    pub fn decide(
        &mut self,
        alloc: Global,
        epoch: Epoch,
        slot: Slot,
        txn: TxId,
        commit: bool,
    ) -> Result<Handled, OutOfMemory>
        ensures answer { (node : NodeRecord) → IfOk result (λ h. h ≡ (on_decision (within node self.old) epoch slot txn commit).answer) }
        ensures kept { (node : NodeRecord) → OnOk result (within node self.new ≡ (on_decision (within node self.old) epoch slot txn commit).kept) }
        ensures spent { self.new.spent ≡ is_err result }
        ensures refuses { IsTrue self.old.spent → IsErr result }
    {
        if self.spent {
            return Err(OutOfMemory);
        }
        if !self.may_mark(epoch, slot, txn) {
            return Ok(refusal(epoch, self.duty.role().state()));
        }
        self.spent = true;
        self.duty.decide(alloc, slot, commit)?;
        self.spent = false;
        Ok(Handled::Acted)
    }
}
