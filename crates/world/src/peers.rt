//! The nodes of a run. The one place where the world calls a node.
ghost use Rattle.std.specs.Prelude.{◌≡◌, ◌-◌, ◌≤◌, ◌++◌, length, Some, IfOk, OnOk, option_copied, slice_get};
ghost use Rattle.tcs_terms.specs.declared.limits.TheConstants.{MAX_NODES};
ghost use Rattle.tcs_terms.specs.Events.{InputInRange};
ghost use Rattle.protocol.specs.Records.{NodeRecord};
ghost use Rattle.protocol.specs.Table.{step};
ghost use Rattle.protocol.specs.World.{first_nodes};
ghost use Rattle.std.specs.Option.{option_map};

use node_core::Node;
use std::alloc::Global;
use std::marker::Model;
use tcs_laws::VoteGuard;
use tcs_terms::{Handled, Input, NodeId, Note, OutOfMemory, Outgoing, Setup, Version};

/// The nodes of a run, 1 to 64 of them, node 1 first. Seen as what they keep, and the version that they follow.
#[derive(Drop)]
pub(crate) struct Peers<G: VoteGuard> {
    version: Version,
    nodes: Vec<Node<G>>,
}

impl<G: VoteGuard> Model for Peers<G> {
    ghost use Rattle.std.specs.Prelude.{map};
    ghost use Rattle.tcs_terms.specs.Versions.{version_number};
    ghost use Rattle.world.specs.Casts.{Peers};
    ghost use Rattle.world.specs.Nodes.{ArePeers};

    ghost Value = { Peers };

    ghost view = { λ p. record {
      version = version_number p.version;
      nodes = map (λ n. n.kept) p.nodes.items;
    } };

    ghost invariant = { λ p. ArePeers (version_number p.version) p.nodes.items };
}

/// The node in a place, from 0.
fn node_at<G: VoteGuard>(nodes: &[Node<G>], place: usize) -> Option<&Node<G>>
    ensures { option_copied result ≡ slice_get nodes.now place }
{
    nodes.get(place)
}

impl<G: VoteGuard> Peers<G> {
    ghost use Rattle.world.specs.Casts.{peer_of, with_node};

    /// The nodes of a setup, as they begin.
    pub(crate) fn first(alloc: Global, setup: &Setup) -> Result<Peers<G>, OutOfMemory>
        ensures { IfOk result (λ peers. peers ≡ record {
          version = setup.now.version;
          nodes = first_nodes setup.now.configs 1 setup.now.nodes;
        }) }
    {
        let version = setup.protocol();
        let mut nodes = Vec::with_capacity(alloc, setup.nodes().len())?;
        let mut name = 1;
        let shards = setup.nodes();
        for shard in shards {
            let configs = setup.copy_configs(alloc)?;
            nodes.push(Node::first(alloc, version, name, *shard, configs)?)?;
            name += 1;
        }
        Ok(Peers { version, nodes })
    }

    /// How many nodes there are: at most 64.
    pub(crate) fn len(&self) -> NodeId
        ensures count { result ≡ length self.now.nodes }
        ensures few { result ≤ MAX_NODES }
    {
        self.nodes.len() as u8
    }

    /// The node of a name, from 1.
    pub(crate) fn node(&self, name: NodeId) -> Option<&Node<G>>
        requires { 1 ≤ name }
        ensures { option_map (λ n. n.kept) (option_copied result) ≡ peer_of self.now name }
    {
        node_at(&self.nodes, usize::from(name) - 1)
    }

    /// The node of that name takes an input. What it sends and notes is appended.
    pub(crate) fn step(
        &mut self,
        name: NodeId,
        input: Input,
        out: &mut Vec<Outgoing>,
        notes: &mut Vec<Note>,
    ) -> Result<Handled, OutOfMemory>
        requires from_one { 1 ≤ name }
        requires to_last { name ≤ length self.old.nodes }
        requires range { InputInRange input }
        ensures answer { (node : NodeRecord) → peer_of self.old name ≡ Some node
            → IfOk result (λ h. h ≡ (step G.Rule.tests self.old.version node input).answer) }
        ensures kept { (node : NodeRecord) → peer_of self.old name ≡ Some node
            → OnOk result (self.new ≡ with_node self.old name (step G.Rule.tests self.old.version node input).kept) }
        ensures sends { (node : NodeRecord) → peer_of self.old name ≡ Some node
            → OnOk result (out.new.items ≡ out.old.items ++ (step G.Rule.tests self.old.version node input).sends) }
        ensures notes { (node : NodeRecord) → peer_of self.old name ≡ Some node
            → OnOk result (notes.new.items ≡ notes.old.items ++ (step G.Rule.tests self.old.version node input).notes) }
    {
        self.nodes[usize::from(name) - 1].step(input, out, notes)
    }
}
