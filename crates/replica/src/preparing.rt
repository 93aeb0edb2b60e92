//! A leader prepares a transaction and votes.
ghost use Rattle.std.specs.Prelude.{◌≡◌, ◌++◌, ◌&&◌, ◌==◌, IsTrue, IsErr, IfOk, OnOk};
ghost use Rattle.std.specs.Result.{is_err};
ghost use Rattle.tcs_terms.specs.Places.{is_among};
ghost use Rattle.protocol.specs.Records.{NodeRecord};
ghost use Rattle.protocol.specs.ShardRules.{is_leader, on_prepare};
ghost use Rattle.replica.specs.Replicas.{within};

use crate::replicas::Replica;
use answers::refusal;
use cert_log::PrepareFault;
use std::alloc::Global;
use tcs_laws::VoteGuard;
use tcs_terms::{
    Epoch, Handled, Message, NodeId, OutOfMemory, Outgoing, Payload, ShardSet, TxId, is_among,
};

impl<G: VoteGuard> Replica<G> {
    /// Whether the node leads in this epoch, in one of these shards.
    fn may_prepare(&self, epoch: Epoch, shards: &ShardSet) -> bool
        ensures { let s = self.now in result ≡ (is_leader s.role && (s.state == epoch) && is_among shards.now s.shard) }
    {
        let role = self.duty.role();
        role.is_leader() && role.state() == epoch && is_among(shards.list(), self.shard)
    }

    /// PREPARE: to the leader of that epoch, for a transaction of its shard, with the payload's part in the shard, or
    /// without one. The entry of a known transaction is answered again; a new one is appended with its vote, where a
    /// slot is left.
    pub fn prepare(
        &mut self,
        alloc: Global,
        from: NodeId,
        epoch: Epoch,
        txn: TxId,
        shards: ShardSet,
        part: Option<Payload>,
        out: &mut Vec<Outgoing>,
    ) -> Result<Handled, OutOfMemory>
        ensures answer { (node : NodeRecord) → IfOk result (λ h. h
            ≡ (on_prepare G.Rule.tests (within node self.old) from epoch txn shards part).answer) }
        ensures kept { (node : NodeRecord) → OnOk result (within node self.new
            ≡ (on_prepare G.Rule.tests (within node self.old) from epoch txn shards part).kept) }
        ensures sends { (node : NodeRecord) → OnOk result (out.new.items ≡ out.old.items
            ++ (on_prepare G.Rule.tests (within node self.old) from epoch txn shards part).sends) }
        ensures spent { self.new.spent ≡ is_err result }
        ensures refuses { IsTrue self.old.spent → IsErr result }
    {
        if self.spent {
            return Err(OutOfMemory);
        }
        if !self.may_prepare(epoch, &shards) {
            return Ok(refusal(epoch, self.duty.role().promised()));
        }
        self.spent = true;
        let entry = match self.duty.prepare(alloc, txn, shards, part) {
            Ok(entry) => entry,
            Err(PrepareFault::Full) => {
                self.spent = false;
                return Ok(Handled::Full);
            }
            Err(PrepareFault::OutOfMemory) => return Err(OutOfMemory),
        };
        let message = Message::PrepareAck {
            shard: self.shard,
            epoch,
            entry,
        };
        out.push(Outgoing { to: from, message })?;
        self.spent = false;
        Ok(Handled::Acted)
    }
}
