//! What the nodes of a world have of counters.
ghost use Rattle.std.specs.Prelude.{◌≡◌, ◌≤◌, ◌+◌, false, IfOk, OnOk};
ghost use Rattle.protocol_laws.specs.Promises.{world_of};
ghost use Rattle.totals_core.specs.Holdings.{AreBelow, AreHoldings, IsCountable, held_by, holding_of};

use counters::{Sums, sums_of_rows};
use std::alloc::Global;
use tcs_laws::VoteGuard;
use tcs_terms::limits::MAX_NODES;
use tcs_terms::{Name, NodeId, OutOfMemory, ShardId, shard_of};
use world::World;

/// The sums of the committed rows of a node, and its shard.
#[derive(Debug, Drop)]
pub(crate) struct Holding {
    shard: ShardId,
    sums: Sums,
}

/// The holdings of all nodes: each log is gone through once.
pub(crate) fn holdings<G: VoteGuard>(
    alloc: Global,
    world: &World<G>,
) -> Result<Vec<Holding>, OutOfMemory>
    requires lives { world.now.spent ≡ false }
    requires countable { IsCountable (world_of world.now.progress) }
    ensures { IfOk result (λ all. AreHoldings all.items (world_of world.now.progress).nodes) }
{
    let mut all = Vec::new(alloc);
    for name in 1..MAX_NODES + 1 {
        hold(alloc, world, name, &mut all)?;
    }
    Ok(all)
}

/// Appends the holding of the node of this name, where there is one.
fn hold<G: VoteGuard>(
    alloc: Global,
    world: &World<G>,
    name: NodeId,
    all: &mut Vec<Holding>,
) -> Result<(), OutOfMemory>
    requires lives { world.now.spent ≡ false }
    requires countable { IsCountable (world_of world.now.progress) }
    ensures { OnOk result (AreBelow all.old.items (world_of world.now.progress).nodes name
        → AreBelow all.new.items (world_of world.now.progress).nodes (name + 1)) }
{
    match world.node(name) {
        Some(node) => {
            all.push(Holding {
                shard: node.shard(),
                sums: sums_of_rows(alloc, node.rows())?,
            })?;
            Ok(())
        }
        None => Ok(()),
    }
}

/// What a holding has of a counter, 0 where the counter lies in another shard than the node, among so many shards.
fn has(holding: &Holding, shards: u8, name: &Name) -> u64
    requires some { 1 ≤ shards }
    ensures { result ≡ holding_of shards name.now holding.now }
{
    if shard_of(name.bytes(), shards) != holding.shard {
        return 0;
    }
    match holding.sums.get(name) {
        Some(sum) => *sum,
        None => 0,
    }
}

/// The greatest that a node of the counter's shard has of it, among so many shards.
pub(crate) fn greatest(holdings: &[Holding], shards: u8, name: &Name) -> u64
    requires some { 1 ≤ shards }
    ensures { result ≡ held_by shards holdings.now name.now }
{
    let mut most = 0;
    for holding in holdings {
        most = most.max(has(holding, shards, name));
    }
    most
}
