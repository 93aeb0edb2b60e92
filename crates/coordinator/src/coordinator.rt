//! The coordinator: its rules.
ghost use Rattle.std.specs.Prelude.{◌≡◌, ◌++◌, [], None, false, length, is_some, option_copied, IsTrue, is_err, IfOk, OnOk, IsErr};
ghost use Rattle.protocol.specs.Cases.{new_case, send_case};
ghost use Rattle.protocol.specs.Coordination.{case_of, begins, begin_case, take_over, resend, on_prepare_ack, on_accept_ack, is_newer, on_config};
ghost use Rattle.protocol.specs.Views.{view_of, view_epoch};
ghost use Rattle.coordinator.specs.InOrder.{AreViews};

use crate::cases::Case;
use crate::open_cases::OpenCases;
use crate::sending::send_case;
use crate::views::Views;
use std::alloc::Global;
use std::marker::Model;
use tcs_terms::{
    Config, Entry, Epoch, Handled, NodeId, Note, OutOfMemory, Outgoing, Payload, ShardId, ShardSet,
    Slot, TxId,
};

/// A node's coordinator: the last configuration that it saw of each shard, and its open cases. Seen as these, and
/// whether it is spent.
///
/// Each rule appends what it sends and notes to what it is given. Once a rule ran out of memory the coordinator is spent:
/// each further rule runs out of memory too.
#[derive(Debug, Drop)]
pub struct Coordinator {
    alloc: Global,
    views: Views,
    cases: OpenCases,
    spent: bool,
}

impl Model for Coordinator {
    ghost use Rattle.coordinator.specs.State.{CoordinatorState};

    ghost Value = { CoordinatorState };

    ghost view = { λ c. record { kept = record { views = c.views; cases = c.cases }; spent = c.spent } };
}

impl Coordinator {
    /// A coordinator without cases that has seen these configurations: one for each of 1 to 16 shards, shard 1 first.
    pub fn new(alloc: Global, views: Vec<Config>) -> Coordinator
        requires { AreViews views.items }
        ensures kept { result.kept ≡ record { views = views.items; cases = [] } }
        ensures live { result.spent ≡ false }
    {
        Coordinator {
            alloc,
            views: Views::new(views),
            cases: OpenCases::new(alloc),
            spent: false,
        }
    }

    /// How many shards there are: 1 to 16.
    pub fn shards(&self) -> u8
        ensures { result ≡ length self.now.kept.views }
    {
        self.views.count()
    }

    /// The last configuration that was seen of a shard, if the run has that shard.
    pub fn view(&self, shard: ShardId) -> Option<&Config>
        ensures { option_copied result ≡ view_of self.now.kept.views shard }
    {
        self.views.of(shard)
    }

    /// The epoch of a shard's view, 0 where the run does not have the shard.
    pub fn view_epoch(&self, shard: ShardId) -> Epoch
        ensures { result ≡ view_epoch self.now.kept.views shard }
    {
        self.views.epoch(shard)
    }

    /// Whether a configuration is newer than the view of its shard.
    pub fn is_newer(&self, config: &Config) -> bool
        ensures { result ≡ is_newer self.now.kept config.now }
    {
        self.views.is_older_than(config)
    }

    /// How many cases are open.
    pub fn open_cases(&self) -> usize
        ensures { result ≡ length self.now.kept.cases }
    {
        self.cases.len()
    }

    /// Whether a case of the transaction is open.
    pub fn has_case(&self, txn: TxId) -> bool
        ensures { result ≡ is_some (case_of self.now.kept txn) }
    {
        self.cases.has(txn)
    }

    /// A case of a new transaction: PREPARE to the leader of each of its shards. No case of it is open (`has_case`).
    #[tactic(auto, unfolding(protocol::specs::Coordination::begin_case))]
    pub fn begin_case(
        &mut self,
        txn: TxId,
        payload: Payload,
        out: &mut Vec<Outgoing>,
    ) -> Result<(), OutOfMemory>
        requires { case_of self.old.kept txn ≡ None }
        ensures kept { OnOk result (self.new.kept ≡ (begin_case self.old.kept txn payload).kept) }
        ensures sends { OnOk result (out.new.items ≡ out.old.items ++ (begin_case self.old.kept txn payload).sends) }
        ensures spent { self.new.spent ≡ is_err result }
        ensures refuses { IsTrue self.old.spent → IsErr result }
    {
        self.start()?;
        let shards = payload.shards(self.alloc, self.views.count())?;
        self.open(txn, shards, Some(payload), out)?;
        self.spent = false;
        Ok(())
    }

    /// A case of a transaction that is taken over: PREPARE without payload to the leader of each of its shards. No case of
    /// it is open.
    #[tactic(auto, unfolding(protocol::specs::Coordination::take_over))]
    pub fn take_over(
        &mut self,
        txn: TxId,
        shards: ShardSet,
        out: &mut Vec<Outgoing>,
    ) -> Result<(), OutOfMemory>
        requires { case_of self.old.kept txn ≡ None }
        ensures kept { OnOk result (self.new.kept ≡ (take_over self.old.kept txn shards).kept) }
        ensures sends { OnOk result (out.new.items ≡ out.old.items ++ (take_over self.old.kept txn shards).sends) }
        ensures spent { self.new.spent ≡ is_err result }
        ensures refuses { IsTrue self.old.spent → IsErr result }
    {
        self.start()?;
        self.open(txn, shards, None, out)?;
        self.spent = false;
        Ok(())
    }

    /// What is still waited for is sent again, case by case in order of opening.
    #[tactic(auto, unfolding(protocol::specs::Coordination::resend))]
    pub fn resend(&mut self, out: &mut Vec<Outgoing>) -> Result<(), OutOfMemory>
        ensures kept { self.new.kept ≡ self.old.kept }
        ensures sends { OnOk result (out.new.items ≡ out.old.items ++ resend self.old.kept) }
        ensures spent { self.new.spent ≡ is_err result }
        ensures refuses { IsTrue self.old.spent → IsErr result }
    {
        self.start()?;
        self.cases.resend(&self.views, out)?;
        self.spent = false;
        Ok(())
    }

    /// PREPARE_ACK: an asked shard becomes voted; ACCEPT of its entry goes to each follower that has not acknowledged it.
    pub fn on_prepare_ack(
        &mut self,
        from: NodeId,
        shard: ShardId,
        epoch: Epoch,
        entry: Entry,
        out: &mut Vec<Outgoing>,
        notes: &mut Vec<Note>,
    ) -> Result<Handled, OutOfMemory>
        ensures answer { IfOk result (λ h. h ≡ (on_prepare_ack self.old.kept from shard epoch entry).answer) }
        ensures kept { OnOk result (self.new.kept ≡ (on_prepare_ack self.old.kept from shard epoch entry).kept) }
        ensures sends { OnOk result (out.new.items ≡ out.old.items ++ (on_prepare_ack self.old.kept from shard epoch entry).sends) }
        ensures notes { OnOk result (notes.new.items ≡ notes.old.items ++ (on_prepare_ack self.old.kept from shard epoch entry).notes) }
        ensures spent { self.new.spent ≡ is_err result }
        ensures refuses { IsTrue self.old.spent → IsErr result }
    {
        self.start()?;
        let handled = self
            .cases
            .hear_vote(&self.views, from, shard, epoch, entry, out, notes)?;
        self.spent = false;
        Ok(handled)
    }

    /// ACCEPT_ACK: the acknowledgement of a follower is kept.
    pub fn on_accept_ack(
        &mut self,
        from: NodeId,
        shard: ShardId,
        epoch: Epoch,
        slot: Slot,
        txn: TxId,
        out: &mut Vec<Outgoing>,
        notes: &mut Vec<Note>,
    ) -> Result<Handled, OutOfMemory>
        ensures answer { IfOk result (λ h. h ≡ (on_accept_ack self.old.kept from shard epoch slot txn).answer) }
        ensures kept { OnOk result (self.new.kept ≡ (on_accept_ack self.old.kept from shard epoch slot txn).kept) }
        ensures sends { OnOk result (out.new.items ≡ out.old.items ++ (on_accept_ack self.old.kept from shard epoch slot txn).sends) }
        ensures notes { OnOk result (notes.new.items ≡ notes.old.items ++ (on_accept_ack self.old.kept from shard epoch slot txn).notes) }
        ensures spent { self.new.spent ≡ is_err result }
        ensures refuses { IsTrue self.old.spent → IsErr result }
    {
        self.start()?;
        let handled = self
            .cases
            .hear_acceptance(&self.views, from, shard, epoch, slot, txn, out, notes)?;
        self.spent = false;
        Ok(handled)
    }

    /// CONFIG_CHANGE: a newer configuration replaces the view of its shard; each case that has the shard asks the new
    /// leader, and forgets what the shard answered.
    pub fn on_config(
        &mut self,
        config: Config,
        out: &mut Vec<Outgoing>,
    ) -> Result<Handled, OutOfMemory>
        ensures answer { IfOk result (λ h. h ≡ (on_config self.old.kept config).answer) }
        ensures kept { OnOk result (self.new.kept ≡ (on_config self.old.kept config).kept) }
        ensures sends { OnOk result (out.new.items ≡ out.old.items ++ (on_config self.old.kept config).sends) }
        ensures spent { self.new.spent ≡ is_err result }
        ensures refuses { IsTrue self.old.spent → IsErr result }
    {
        self.start()?;
        let handled = self.change_view(config, out)?;
        self.spent = false;
        Ok(handled)
    }

    /// A rule begins: refused where the coordinator is spent. It is spent until the rule is through.
    fn start(&mut self) -> Result<(), OutOfMemory>
        ensures kept { self.new.kept ≡ self.old.kept }
        ensures spent { IsTrue self.new.spent }
        ensures live { OnOk result (self.old.spent ≡ false) }
    {
        if self.spent {
            return Err(OutOfMemory);
        }
        self.spent = true;
        Ok(())
    }

    /// Opens a case, and sends what it asks.
    fn open(
        &mut self,
        txn: TxId,
        shards: ShardSet,
        payload: Option<Payload>,
        out: &mut Vec<Outgoing>,
    ) -> Result<(), OutOfMemory>
        requires { case_of self.old.kept txn ≡ None }
        ensures kept { OnOk result (self.new.kept ≡ begins self.old.kept txn (new_case shards payload)) }
        ensures sends { OnOk result (out.new.items ≡ out.old.items ++ send_case self.old.kept.views txn (new_case shards payload)) }
        ensures spent { self.new.spent ≡ self.old.spent }
    {
        let case = Case::new(self.alloc, shards, payload)?;
        send_case(self.alloc, &self.views, txn, &case, out)?;
        self.cases.open(txn, case)
    }

    /// A configuration takes the place of an older view.
    #[tactic(auto, unfolding(protocol::specs::Coordination::on_config, protocol::specs::Coordination::change_view, protocol::specs::Coordination::ask_leader, protocol::specs::Choices::when))]
    fn change_view(
        &mut self,
        config: Config,
        out: &mut Vec<Outgoing>,
    ) -> Result<Handled, OutOfMemory>
        ensures answer { IfOk result (λ h. h ≡ (on_config self.old.kept config).answer) }
        ensures kept { OnOk result (self.new.kept ≡ (on_config self.old.kept config).kept) }
        ensures sends { OnOk result (out.new.items ≡ out.old.items ++ (on_config self.old.kept config).sends) }
        ensures spent { self.new.spent ≡ self.old.spent }
    {
        if !self.views.is_older_than(&config) {
            return Ok(self.views.refusal(config.shard(), config.epoch()));
        }
        self.cases.change_view(&self.views, &config, out)?;
        self.views.replace(config);
        Ok(Handled::Acted)
    }
}
