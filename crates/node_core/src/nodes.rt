//! One node of the service.
ghost use Rattle.std.specs.Prelude.{◌≡◌, ◌==◌, ◌++◌, false, All, length, is_some, is_err, option_copied, IsTrue, IfOk, OnOk, IsErr};
ghost use Rattle.std.specs.List.{list_all};
ghost use Rattle.std.specs.Map.{lookup};
ghost use Rattle.coordinator.specs.InOrder.{AreViews};
ghost use Rattle.tcs_terms.specs.declared.inputs.Result1.TheVariants as results;
ghost use Rattle.tcs_terms.specs.Events.{InputInRange};
ghost use Rattle.tcs_terms.specs.Logs.{same_txn};
ghost use Rattle.tcs_terms.specs.Places.{IsMembership, is_node, is_shard};
ghost use Rattle.tcs_terms.specs.Versions.{version_number};
ghost use Rattle.protocol.specs.Coordination.{case_of};
ghost use Rattle.protocol.specs.FoundNothing.{has_acted};
ghost use Rattle.protocol.specs.Table.{step};
ghost use Rattle.protocol.specs.Views.{view_of};
ghost use Rattle.protocol.specs.World.{first_node};
ghost use Rattle.protocol_laws.specs.Ranges.{AreInRange};

use crate::parts::Parts;
use std::alloc::Global;
use std::marker::Model;
use tcs_laws::VoteGuard;
use tcs_terms::{
    Config, Decision, Epoch, Handled, Input, NodeId, Note, OutOfMemory, Outgoing, Row, ShardId,
    TxId, Version,
};

/// A node, whose votes are given by a guard `G`. Seen as the version of the protocol that it follows, what it keeps in
/// the words of the rules, and whether it is spent. Once memory ran out in a step the node is spent: each further step
/// runs out of memory too.
#[derive(Drop)]
pub struct Node<G: VoteGuard> {
    alloc: Global,
    version: Version,
    parts: Parts<G>,
    spent: bool,
}

impl<G: VoteGuard> Model for Node<G> {
    ghost use Rattle.node_core.specs.Soundness.{IsKeptUnless};
    ghost use Rattle.node_core.specs.State.{NodeState};
    ghost use Rattle.tcs_terms.specs.Versions.{version_number};

    ghost Value = { NodeState };

    ghost view = { λ n. record { version = version_number n.version; kept = n.parts; spent = n.spent } };

    ghost invariant = { λ n. IsKeptUnless n.spent n.parts };
}

impl<G: VoteGuard> Node<G> {
    /// The node of that name (1 to 64), of that shard, as it begins under a version of the protocol, given the
    /// first configuration of each shard.
    pub fn first(
        alloc: Global,
        version: Version,
        name: NodeId,
        shard: ShardId,
        configs: Vec<Config>,
    ) -> Result<Node<G>, OutOfMemory>
        requires name { IsTrue (is_node name) }
        requires shard { IsTrue (is_shard shard) }
        requires views { AreViews configs.items }
        requires configs { All IsMembership configs.items }
        requires first { IsTrue (list_all (λ c. c.epoch == 1) configs.items) }
        ensures { IfOk result (λ node. node ≡ record { version = version_number version; kept = first_node configs.items name shard; spent = false }) }
    {
        Ok(Node {
            alloc,
            version,
            parts: Parts::first(alloc, name, shard, configs)?,
            spent: false,
        })
    }

    pub fn name(&self) -> NodeId
        ensures { result ≡ self.now.kept.name }
    {
        self.parts.replica.name()
    }

    pub fn shard(&self) -> ShardId
        ensures { result ≡ self.now.kept.shard }
    {
        self.parts.replica.shard()
    }

    /// The last epoch in which the node was initialised, 0 if never.
    pub fn state_epoch(&self) -> Epoch
        ensures { result ≡ self.now.kept.state }
    {
        self.parts.replica.state()
    }

    /// The greatest epoch that the node promised, 0 if none.
    pub fn promised(&self) -> Epoch
        ensures { result ≡ self.now.kept.promised }
    {
        self.parts.replica.promised()
    }

    /// The rows of the node's log, slots ascending.
    pub fn rows(&self) -> &[Row]
        ensures { result.now ≡ self.now.kept.rows }
    {
        self.parts.replica.rows()
    }

    /// The last configuration that the node saw of a shard, if the run has that shard.
    pub fn view(&self, shard: ShardId) -> Option<&Config>
        ensures { option_copied result ≡ view_of self.now.kept.coordinator.views shard }
    {
        self.parts.coordinator.view(shard)
    }

    /// How many cases the node has open.
    pub fn open_cases(&self) -> usize
        ensures { result ≡ length self.now.kept.coordinator.cases }
    {
        self.parts.coordinator.open_cases()
    }

    /// Whether the node has a case of the transaction open.
    pub fn has_case(&self, txn: TxId) -> bool
        ensures { result ≡ is_some (case_of self.now.kept.coordinator txn) }
    {
        self.parts.coordinator.has_case(txn)
    }

    /// The outcome of a transaction that the node made, once it has heard it.
    pub fn outcome_of(&self, txn: TxId) -> Option<Decision>
        ensures { result ≡ lookup (same_txn txn) self.now.kept.outcomes }
    {
        self.parts.outcomes.get(&txn).copied()
    }

    /// The node takes an input, whose numbers are in range. What it sends and notes is appended. What it sends is in
    /// range. Where it does not act, it stays as it was, and the history learns nothing.
    pub fn step(
        &mut self,
        input: Input,
        out: &mut Vec<Outgoing>,
        notes: &mut Vec<Note>,
    ) -> Result<Handled, OutOfMemory>
        requires { InputInRange input }
        ensures answer { IfOk result (λ h. h ≡ (step G.Rule.tests self.old.version self.old.kept input).answer) }
        ensures kept { OnOk result (self.new.kept ≡ (step G.Rule.tests self.old.version self.old.kept input).kept) }
        ensures sends { OnOk result (out.new.items ≡ out.old.items ++ (step G.Rule.tests self.old.version self.old.kept input).sends) }
        ensures notes { OnOk result (notes.new.items ≡ notes.old.items ++ (step G.Rule.tests self.old.version self.old.kept input).notes) }
        ensures range { OnOk result (AreInRange (step G.Rule.tests self.old.version self.old.kept input).sends) }
        ensures unchanged { IfOk result (λ h. has_acted (results.Node h) ≡ false → self.new.kept ≡ self.old.kept) }
        ensures silent { IfOk result (λ h. has_acted (results.Node h) ≡ false → notes.new.items ≡ notes.old.items) }
        ensures version { self.new.version ≡ self.old.version }
        ensures spent { self.new.spent ≡ is_err result }
        ensures refuses { IsTrue self.old.spent → IsErr result }
    {
        if self.spent {
            return Err(OutOfMemory);
        }
        self.spent = true;
        input.promise();
        let handled = self
            .parts
            .take_input(self.alloc, self.version, input, out, notes)?;
        self.spent = false;
        Ok(handled)
    }
}
