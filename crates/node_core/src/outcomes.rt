//! A node hears the outcomes of its own transactions.
ghost use Rattle.std.specs.Prelude.{◌≡◌, ◌&&◌, ◌==◌, nat_lt, IfOk, OnOk};
ghost use Rattle.protocol.specs.Table.{on_outcome, with_outcome};

use crate::parts::Parts;
use indexmap::IndexMap;
use tcs_laws::VoteGuard;
use tcs_terms::{Decision, Handled, OutOfMemory, TxId};

/// Keeps an outcome, unless one of the transaction is kept.
fn keep_first(
    outcomes: &mut IndexMap<TxId, Decision>,
    txn: TxId,
    decision: Decision,
) -> Result<(), OutOfMemory>
    ensures { OnOk result (outcomes.new.entries ≡ with_outcome outcomes.old.entries txn decision) }
{
    if !outcomes.contains_key(&txn) {
        outcomes.insert(txn, decision)?;
    }
    Ok(())
}

impl<G: VoteGuard> Parts<G> {
    /// Whether the node made this transaction.
    fn made(&self, txn: TxId) -> bool
        ensures { result ≡ ((txn.home == self.now.name) && nat_lt txn.seq self.now.next) }
    {
        txn.home == self.replica.name() && txn.seq < self.next
    }

    /// OUTCOME: the first one of a transaction that the node made is kept.
    #[tactic(auto, unfolding(protocol::specs::Table::on_outcome, protocol::specs::Choices::when))]
    pub(crate) fn hear_outcome(
        &mut self,
        txn: TxId,
        decision: Decision,
    ) -> Result<Handled, OutOfMemory>
        ensures answer { IfOk result (λ h. h ≡ (on_outcome self.old txn decision).answer) }
        ensures kept { OnOk result (self.new ≡ (on_outcome self.old txn decision).kept) }
    {
        if !self.made(txn) {
            return Ok(Handled::Held(0));
        }
        keep_first(&mut self.outcomes, txn, decision)?;
        Ok(Handled::Acted)
    }
}
