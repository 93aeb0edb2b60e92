//! The configuration that a prober proposes.
ghost use Rattle.std.specs.Prelude.{◌≡◌, ◌≤◌, IsTrue, IfOk};
ghost use Rattle.tcs_terms.specs.declared.limits.TheConstants.{MAX_NODES};
ghost use Rattle.tcs_terms.specs.declared.inputs.Input.TheVariants.{Move};
ghost use Rattle.tcs_terms.specs.Places.{is_node, is_epoch};
ghost use Rattle.tcs_terms.specs.Events.{InputInRange};
ghost use Rattle.protocol.specs.Probing.{joined, proposed};

use std::alloc::Global;
use tcs_terms::{Config, Epoch, NodeId, OutOfMemory, ShardId, Wanted};

/// These nodes, which ascend, and one more in its place.
fn joined(alloc: Global, node: NodeId, nodes: &[NodeId]) -> Result<Vec<NodeId>, OutOfMemory>
    ensures { IfOk result (λ list. list.items ≡ joined node nodes.now) }
{
    let below = nodes.iter().copied().filter(|other| *other < node);
    let mut list: Vec<NodeId> = below.collect(alloc)?;
    list.push(node)?;
    'above: for other in nodes {
        if node < *other {
            list.push(*other)?;
        }
    }
    Ok(list)
}

/// The configuration in which a node leads, with the wanted nodes beside it; `me` proposes it.
pub(crate) fn proposed(
    alloc: Global,
    me: NodeId,
    shard: ShardId,
    epoch: Epoch,
    want: &Wanted,
    leader: NodeId,
) -> Result<Config, OutOfMemory>
    requires me { me ≤ MAX_NODES }
    requires movable { InputInRange (Move shard want.now) }
    requires epoch { IsTrue (is_epoch epoch) }
    requires leader { IsTrue (is_node leader) }
    ensures { IfOk result (λ config. config ≡ proposed me shard epoch want.now leader) }
{
    let members = joined(alloc, leader, want.list())?;
    match Config::build(shard, epoch, members, leader, me) {
        Ok(config) => Ok(config),
        Err(_) => unreachable!(),
    }
}
