//! A node makes transactions, and takes others over.
ghost use Rattle.std.specs.Prelude.{◌≡◌, ◌++◌, ◌&&◌, None, is_none, IfOk, OnOk};
ghost use Rattle.protocol.specs.Coordination.{case_of};
ghost use Rattle.protocol.specs.ClientRules.{next_txn, certify, is_undecided, may_exist, take};

use crate::parts::Parts;
use std::alloc::Global;
use tcs_laws::VoteGuard;
use tcs_terms::limits::MAX_SEQUENCE;
use tcs_terms::{Handled, Mark, Note, OutOfMemory, Outgoing, Payload, Row, TxId};

impl<G: VoteGuard> Parts<G> {
    /// A new transaction with this payload, while numbers are left.
    #[tactic(auto, unfolding(protocol::specs::ClientRules::certify, protocol::specs::Choices::when))]
    pub(crate) fn certify(
        &mut self,
        alloc: Global,
        payload: Payload,
        out: &mut Vec<Outgoing>,
        notes: &mut Vec<Note>,
    ) -> Result<Handled, OutOfMemory>
        requires { case_of self.old.coordinator (next_txn self.old) ≡ None }
        ensures answer { IfOk result (λ h. h ≡ (certify self.old payload).answer) }
        ensures kept { OnOk result (self.new ≡ (certify self.old payload).kept) }
        ensures sends { OnOk result (out.new.items ≡ out.old.items ++ (certify self.old payload).sends) }
        ensures notes { OnOk result (notes.new.items ≡ notes.old.items ++ (certify self.old payload).notes) }
    {
        if self.next > MAX_SEQUENCE {
            return Ok(Handled::Full);
        }
        let txn = TxId {
            home: self.replica.name(),
            seq: self.next,
        };
        self.coordinator.begin_case(txn, payload.copy(alloc)?, out)?;
        notes.push(Note::Begin { txn, payload })?;
        self.next += 1;
        Ok(Handled::Acted)
    }

    /// Whether a transaction may exist as far as the node knows: it is another node's, or the node gave its number.
    fn may_exist(&self, txn: TxId) -> bool
        ensures { result ≡ may_exist self.now txn }
    {
        txn.home != self.replica.name() || txn.seq < self.next
    }

    /// Whether the transaction of this row may be taken over.
    fn may_take(&self, row: &Row, txn: TxId) -> bool
        ensures { result ≡ (is_undecided row.now.mark && is_none (case_of self.now.coordinator txn) && may_exist self.now txn) }
    {
        matches!(row.mark, Mark::Undecided)
            && !self.coordinator.has_case(txn)
            && self.may_exist(txn)
    }

    /// A transaction that a row holds undecided, and of which the node has no case, is taken over.
    #[tactic(auto, unfolding(protocol::specs::ClientRules::take, protocol::specs::Choices::when))]
    pub(crate) fn take(
        &mut self,
        alloc: Global,
        txn: TxId,
        out: &mut Vec<Outgoing>,
        notes: &mut Vec<Note>,
    ) -> Result<Handled, OutOfMemory>
        ensures answer { IfOk result (λ h. h ≡ (take self.old txn).answer) }
        ensures kept { OnOk result (self.new ≡ (take self.old txn).kept) }
        ensures sends { OnOk result (out.new.items ≡ out.old.items ++ (take self.old txn).sends) }
        ensures notes { OnOk result (notes.new.items ≡ notes.old.items ++ (take self.old txn).notes) }
    {
        let shards = match self.replica.row_of(txn) {
            Some(row) if self.may_take(row, txn) => row.entry.shards.copy(alloc)?,
            _ => return Ok(Handled::Held(self.replica.state())),
        };
        self.coordinator.take_over(txn, shards, out)?;
        notes.push(Note::Take { txn })?;
        Ok(Handled::Acted)
    }
}
