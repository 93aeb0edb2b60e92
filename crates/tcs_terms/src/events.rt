//! Which events fit a setup, and which inputs are in range.
ghost use Rattle.std.specs.Prelude.{◌≡◌, ◌↔◌, IsTrue};
ghost use Rattle.tcs_terms.specs.Runs.{MayStand};
ghost use Rattle.tcs_terms.specs.Setups.{IsDeployment, has_node, is_node_of};
ghost use Rattle.tcs_terms.specs.Events.{has_shard, may_be_of, input_fits, event_fits, InputInRange};

use crate::ids::{NodeId, ShardId, TxId};
use crate::inputs::{Event, Input};
use crate::limits::{MAX_SEQUENCE, MAX_WANTED};
use crate::order::ascends;
use crate::places::{are_nodes, is_shard};
use crate::setup_faults::{are_nodes_of, has_node, is_node_of};
use crate::setups::Setup;

impl Setup {
    /// Whether a number names a node of the setup.
    pub fn has_node(&self, node: NodeId) -> bool
        ensures { result ≡ has_node self.now.nodes node }
    {
        has_node(self.nodes(), u64::from(node))
    }

    /// Whether a number names a node of that shard of the setup.
    pub fn has_node_of(&self, shard: ShardId, node: NodeId) -> bool
        ensures { result ≡ is_node_of self.now.nodes shard node }
    {
        is_node_of(self.nodes(), shard, u64::from(node))
    }

    /// Whether a number names a shard of the setup.
    pub fn has_shard(&self, shard: ShardId) -> bool
        ensures { result ≡ has_shard self.now shard }
    {
        1 <= shard && shard <= self.shards()
    }

    /// Whether a transaction may be one of a run of the setup.
    pub fn may_have(&self, txn: &TxId) -> bool
        ensures { result ≡ may_be_of self.now txn.now }
    {
        self.has_node(txn.home) && 1 <= txn.seq && txn.seq <= MAX_SEQUENCE
    }

    fn fits_input(&self, input: &Input) -> bool
        ensures { result ≡ input_fits self.now input.now }
    {
        match input {
            Input::Certify(payload) => payload.ranges().is_empty() || self.version() == 2,
            Input::Take(txn) => self.may_have(txn),
            Input::Move { shard, want } => {
                self.has_shard(*shard)
                    && want.list().len() <= MAX_WANTED
                    && ascends(want.list())
                    && are_nodes_of(self.nodes(), *shard, want.list())
            }
            Input::Ask(shard) => self.has_shard(*shard),
            Input::Nudge | Input::Lower | Input::ReadName(_) => true,
            Input::Deliver { .. } => false,
        }
    }

    /// Whether an event may happen in a run of this setup: its nodes and shards are the setup's, the wanted nodes of a
    /// move ascend, are at most 6 and belong to its shard, a transaction has a node of the setup as home and a number
    /// from 1 to 1,000,000, a message number is at least 1, a payload with ranges is for version 2, and the input of a
    /// call is not `Deliver`.
    pub fn fits(&self, event: &Event) -> bool
        ensures fits { result ≡ event_fits self.now event.now }
        ensures stands { IsTrue result → MayStand self.now event.now }
        ensures setup { IsDeployment self.now }
    {
        let _shards = self.shards();
        event.promise();
        match event {
            Event::Call { node, input } => self.has_node(*node) && self.fits_input(input),
            Event::DeliverNumber(number) => *number >= 1,
            Event::Stop(node) => self.has_node(*node),
        }
    }
}

impl Input {
    /// Whether each number of the input is in range: of a delivery the message's, of a move the shard is 1 to 16 and
    /// the wanted nodes ascend within 1 to 64, at most 6 of them, and of a question the shard is 1 to 16.
    pub fn in_range(&self) -> bool
        ensures { IsTrue result ↔ InputInRange self.now }
    {
        match self {
            Input::Move { shard, want } => {
                is_shard(*shard)
                    && want.list().len() <= MAX_WANTED
                    && are_nodes(want.list())
                    && ascends(want.list())
            }
            Input::Ask(shard) => is_shard(*shard),
            Input::Deliver { message, .. } => message.in_range(),
            _ => true,
        }
    }
}
