//! Which numbers name shards, nodes and epochs.
ghost use Rattle.std.specs.Prelude.{◌≡◌};
ghost use Rattle.std.specs.List.{list_all};
ghost use Rattle.tcs_terms.specs.Places.{is_shard, is_node, is_epoch, is_among};
ghost use Rattle.tcs_terms.specs.ConfigFaults.{may_be_members};

use crate::ids::{Epoch, NodeId, ShardId};
use crate::limits::{MAX_EPOCH, MAX_MEMBERS, MAX_NODES, MAX_SHARDS};
use crate::order::ascends;

pub(crate) fn is_shard(shard: ShardId) -> bool
    ensures { result ≡ is_shard shard }
{
    1 <= shard && shard <= MAX_SHARDS
}

pub(crate) fn is_node(node: NodeId) -> bool
    ensures { result ≡ is_node node }
{
    1 <= node && node <= MAX_NODES
}

pub(crate) fn is_epoch(epoch: Epoch) -> bool
    ensures { result ≡ is_epoch epoch }
{
    1 <= epoch && epoch <= MAX_EPOCH
}

pub(crate) fn are_shards(list: &[ShardId]) -> bool
    ensures { result ≡ list_all is_shard list.now }
{
    list.iter().all(|shard| is_shard(*shard))
}

pub(crate) fn are_nodes(list: &[NodeId]) -> bool
    ensures { result ≡ list_all is_node list.now }
{
    list.iter().all(|node| is_node(*node))
}

/// Whether a node is one of these.
pub fn is_among(nodes: &[NodeId], node: NodeId) -> bool
    ensures { result ≡ is_among nodes.now node }
{
    nodes.contains(&node)
}

/// Whether these may be the members of a configuration: 1 to 7 nodes, ascending.
pub(crate) fn may_be_members(members: &[NodeId]) -> bool
    ensures { result ≡ may_be_members members.now }
{
    !members.is_empty() && members.len() <= MAX_MEMBERS && are_nodes(members) && ascends(members)
}
