//! What a case makes of the answers of its shards.
ghost use Rattle.std.specs.Prelude.{◌≡◌, ◌++◌, [], IfOk, OnOk, if◌then◌else◌};
ghost use Rattle.protocol.specs.Cases.{part_of, is_complete};
ghost use Rattle.protocol.specs.Views.{view_of};
ghost use Rattle.coordinator.specs.Acknowledged.{both_pass, takes_vote, takes_ack, voted_case, acknowledged_case, send_one, told, noted};

use crate::cases::Case;
use crate::deciding::{decision_of, is_complete, tell_decision};
use crate::sending::send_part;
use crate::views::{Views, is_follower};
use std::alloc::Global;
use tcs_terms::{Entry, Epoch, NodeId, Note, OutOfMemory, Outgoing, ShardId, Slot, TxId};

impl Case {
    /// Whether an answer to PREPARE acts: it is of the leader of the shard's view, at its epoch, and its slot fits.
    fn takes_vote(
        &self,
        views: &Views,
        from: NodeId,
        shard: ShardId,
        epoch: Epoch,
        slot: Slot,
    ) -> bool
        ensures { result ≡ both_pass (takes_vote from epoch slot) (part_of self.now.parts shard) (view_of views.now shard) }
    {
        match (self.part_of(shard), views.of(shard)) {
            (Some(part), Some(view)) => {
                view.epoch() == epoch && view.leader() == from && part.fits_slot(slot)
            }
            _ => false,
        }
    }

    /// Whether an answer to ACCEPT acts: it is of a follower of the shard's view, at its epoch, and of the voted entry's
    /// slot.
    fn takes_ack(
        &self,
        views: &Views,
        from: NodeId,
        shard: ShardId,
        epoch: Epoch,
        slot: Slot,
    ) -> bool
        ensures { result ≡ both_pass (takes_ack from epoch slot) (part_of self.now.parts shard) (view_of views.now shard) }
    {
        match (self.part_of(shard), views.of(shard)) {
            (Some(part), Some(view)) => {
                view.epoch() == epoch && is_follower(view, from) && part.is_voted_at(slot)
            }
            _ => false,
        }
    }

    /// What a shard of the case still waits for is sent again.
    fn send_one(
        &self,
        alloc: Global,
        views: &Views,
        txn: TxId,
        shard: ShardId,
        out: &mut Vec<Outgoing>,
    ) -> Result<(), OutOfMemory>
        ensures { OnOk result (out.new.items ≡ out.old.items ++ send_one views.now txn self.now (part_of self.now.parts shard)) }
    {
        match self.part_of(shard) {
            None => Ok(()),
            Some(part) => send_part(alloc, views, txn, self, part, out),
        }
    }

    /// PREPARE_ACK: whether it acts. Then its entry is kept, and ACCEPT of the kept one goes to each follower that has
    /// not acknowledged it.
    pub(crate) fn hear_vote(
        &mut self,
        alloc: Global,
        views: &Views,
        from: NodeId,
        shard: ShardId,
        epoch: Epoch,
        entry: Entry,
        out: &mut Vec<Outgoing>,
    ) -> Result<bool, OutOfMemory>
        ensures acts { IfOk result (λ b. b ≡ both_pass (takes_vote from epoch entry.slot) (part_of self.old.parts shard) (view_of views.now shard)) }
        ensures case { IfOk result (λ b. self.new ≡ (if b then voted_case shard entry self.old else self.old)) }
        ensures sends { IfOk result (λ b. let case = voted_case shard entry self.old in
            out.new.items ≡ out.old.items ++ (if b then send_one views.now entry.txn case (part_of case.parts shard) else [])) }
    {
        if !self.takes_vote(views, from, shard, epoch, entry.slot) {
            return Ok(false);
        }
        let txn = entry.txn;
        self.vote(shard, entry);
        self.send_one(alloc, views, txn, shard, out)?;
        Ok(true)
    }

    /// ACCEPT_ACK: whether it acts. Then it is kept.
    pub(crate) fn hear_acceptance(
        &mut self,
        views: &Views,
        from: NodeId,
        shard: ShardId,
        epoch: Epoch,
        slot: Slot,
    ) -> Result<bool, OutOfMemory>
        ensures acts { IfOk result (λ b. b ≡ both_pass (takes_ack from epoch slot) (part_of self.old.parts shard) (view_of views.now shard)) }
        ensures case { IfOk result (λ b. self.new ≡ (if b then acknowledged_case shard from self.old else self.old)) }
    {
        if !self.takes_ack(views, from, shard, epoch, slot) {
            return Ok(false);
        }
        self.acknowledge(shard, from)?;
        Ok(true)
    }

    /// Whether the case is complete. Then its decision is told and noted.
    #[tactic(auto, unfolding(crate::specs::Acknowledged::told, crate::specs::Acknowledged::noted, protocol::specs::Choices::when))]
    pub(crate) fn decide(
        &self,
        views: &Views,
        txn: TxId,
        out: &mut Vec<Outgoing>,
        notes: &mut Vec<Note>,
    ) -> Result<bool, OutOfMemory>
        ensures complete { IfOk result (λ b. b ≡ is_complete views.now self.now) }
        ensures sends { OnOk result (out.new.items ≡ out.old.items ++ told views.now txn self.now) }
        ensures notes { OnOk result (notes.new.items ≡ notes.old.items ++ noted views.now txn self.now) }
    {
        if !is_complete(views, self) {
            return Ok(false);
        }
        let decision = decision_of(&self.parts);
        tell_decision(views, txn, &self.parts, decision, out)?;
        notes.push(Note::Decide { txn, decision })?;
        Ok(true)
    }
}
