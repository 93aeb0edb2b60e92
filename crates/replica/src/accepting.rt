//! A follower accepts an entry.
ghost use Rattle.std.specs.Prelude.{◌≡◌, ◌++◌, ◌&&◌, ◌==◌, not, IsTrue, IsErr, IfOk, OnOk};
ghost use Rattle.std.specs.Result.{is_err};
ghost use Rattle.tcs_terms.specs.Messages.{is_slot};
ghost use Rattle.protocol.specs.Log.{is_taken};
ghost use Rattle.protocol.specs.Records.{NodeRecord};
ghost use Rattle.protocol.specs.ShardRules.{is_following, on_accept};
ghost use Rattle.replica.specs.Replicas.{within};

use crate::replicas::Replica;
use answers::refusal;
use tcs_laws::VoteGuard;
use tcs_terms::{Entry, Epoch, Handled, Message, NodeId, OutOfMemory, Outgoing};

impl<G: VoteGuard> Replica<G> {
    /// Whether the node follows in this epoch, and neither the slot nor the transaction is taken.
    fn may_accept(&self, epoch: Epoch, entry: &Entry) -> bool
        ensures { let s = self.now in result ≡ (is_following s.role && (s.state == epoch) && not (is_taken s.rows entry.now)) }
    {
        let role = self.duty.role();
        role.is_following() && role.state() == epoch && !role.log().is_taken(entry)
    }

    /// ACCEPT: to a follower of that epoch, unless the slot or the transaction is taken. An entry that is there already
    /// is acknowledged again.
    pub fn accept(
        &mut self,
        from: NodeId,
        epoch: Epoch,
        entry: Entry,
        out: &mut Vec<Outgoing>,
    ) -> Result<Handled, OutOfMemory>
        requires { IsTrue (is_slot entry.slot) }
        ensures answer { (node : NodeRecord) → IfOk result (λ h. h ≡ (on_accept (within node self.old) from epoch entry).answer) }
        ensures kept { (node : NodeRecord) → OnOk result (within node self.new ≡ (on_accept (within node self.old) from epoch entry).kept) }
        ensures sends { (node : NodeRecord) → OnOk result (out.new.items ≡ out.old.items ++ (on_accept (within node self.old) from epoch entry).sends) }
        ensures spent { self.new.spent ≡ is_err result }
        ensures refuses { IsTrue self.old.spent → IsErr result }
    {
        if self.spent {
            return Err(OutOfMemory);
        }
        if !self.may_accept(epoch, &entry) {
            return Ok(refusal(epoch, self.duty.role().promised()));
        }
        self.spent = true;
        let message = Message::AcceptAck {
            shard: self.shard,
            epoch,
            slot: entry.slot,
            txn: entry.txn,
        };
        self.duty.accept(entry)?;
        out.push(Outgoing { to: from, message })?;
        self.spent = false;
        Ok(Handled::Acted)
    }
}
