//! What a node keeps.
ghost use Rattle.std.specs.Prelude.{◌≡◌, ◌==◌, IsTrue, IfOk, option_copied};
ghost use Rattle.std.specs.List.{list_all};
ghost use Rattle.coordinator.specs.InOrder.{AreViews};
ghost use Rattle.protocol.specs.Views.{view_of};
ghost use Rattle.protocol.specs.World.{first_node};

use coordinator::Coordinator;
use indexmap::IndexMap;
use prober::Prober;
use replica::Replica;
use std::alloc::Global;
use std::marker::Model;
use tcs_laws::VoteGuard;
use tcs_terms::{Config, Decision, NodeId, OutOfMemory, ShardId, TxId};

/// The parts of a node: its replica in its shard, its coordinator, its prober, the number of the next transaction that
/// it makes, and the outcomes of its own transactions. Each rule appends what it sends and notes to what it is given.
#[derive(Drop)]
pub(crate) struct Parts<G: VoteGuard> {
    pub(crate) replica: Replica<G>,
    pub(crate) coordinator: Coordinator,
    pub(crate) prober: Prober,
    pub(crate) next: u32,
    pub(crate) outcomes: IndexMap<TxId, Decision>,
}

impl<G: VoteGuard> Model for Parts<G> {
    ghost use Rattle.protocol.specs.Records.{NodeRecord};
    ghost use Rattle.node_core.specs.Parts.{node_of};

    ghost Value = { NodeRecord };

    ghost view = { λ n. node_of n.replica n.next n.coordinator.kept n.prober n.outcomes.entries };
}

/// The configuration of a shard, if there is one.
fn config_of(configs: &[Config], shard: ShardId) -> Option<&Config>
    ensures { option_copied result ≡ view_of configs.now shard }
{
    configs.iter().find(|config| config.shard() == shard)
}

impl<G: VoteGuard> Parts<G> {
    /// A node as it begins, given the first configuration of each shard.
    #[tactic(auto, unfolding(protocol::specs::World::first_node))]
    pub(crate) fn first(
        alloc: Global,
        name: NodeId,
        shard: ShardId,
        configs: Vec<Config>,
    ) -> Result<Parts<G>, OutOfMemory>
        requires views { AreViews configs.items }
        requires first { IsTrue (list_all (λ c. c.epoch == 1) configs.items) }
        ensures { IfOk result (λ node. node ≡ first_node configs.items name shard) }
    {
        let replica = Replica::first(alloc, name, shard, config_of(&configs, shard))?;
        Ok(Parts {
            replica,
            coordinator: Coordinator::new(alloc, configs),
            prober: Prober::new(),
            next: 1,
            outcomes: IndexMap::new(alloc),
        })
    }
}
