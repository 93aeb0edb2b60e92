//! What is wrong with the parts of a setup, and which nodes and shards it has.
ghost use Rattle.std.specs.Prelude.{◌≡◌, ◌+◌, ◌<◌, ◌&&◌, nat_le, length, All, IsTrue, IfNone};
ghost use Rattle.std.specs.List.{list_all};
ghost use Rattle.tcs_terms.specs.Places.{IsMembership};
ghost use Rattle.tcs_terms.specs.Setups.{has_node, is_node_of, is_first};
ghost use Rattle.tcs_terms.specs.SetupFaults.{firsts_from, may_be_nodes, setup_fault};

use crate::configurations::Config;
use crate::faults::BadSetup;
use crate::ids::{NodeId, ShardId};
use crate::limits::{MAX_NODES, MAX_SHARDS};
use crate::setups::Rule;

/// Whether a number names a node, where these are the shards of the nodes.
pub fn has_node(nodes: &[ShardId], node: u64) -> bool
    ensures { result ≡ has_node nodes.now node }
{
    1 <= node && node <= nodes.len() as u64
}

/// Whether a number names a node of the shard, where these are the shards of the nodes.
pub fn is_node_of(nodes: &[ShardId], shard: ShardId, node: u64) -> bool
    ensures { result ≡ is_node_of nodes.now shard node }
{
    has_node(nodes, node) && nodes[node as usize - 1] == shard
}

/// Whether these numbers name nodes of the shard.
pub(crate) fn are_nodes_of(nodes: &[ShardId], shard: ShardId, list: &[NodeId]) -> bool
    ensures { result ≡ list_all (is_node_of nodes.now shard) list.now }
{
    list.iter()
        .all(|node| is_node_of(nodes, shard, u64::from(*node)))
}

/// Whether a configuration is a first one.
fn is_first(nodes: &[ShardId], config: &Config) -> bool
    ensures first { result ≡ is_first nodes.now config.now }
    ensures config { IsMembership config.now }
{
    config.epoch() == 1 && config.by() == 0 && are_nodes_of(nodes, config.shard(), config.members())
}

/// Whether these are first configurations of the shards from 1 on.
fn are_firsts(nodes: &[ShardId], configs: &[Config]) -> bool
    requires { length configs.now < 100 }
    ensures firsts { result ≡ firsts_from nodes.now 1 configs.now }
    ensures configs { IsTrue result → All IsMembership configs.now }
{
    let mut shard = 1;
    for config in configs {
        if config.shard() != shard || !is_first(nodes, config) {
            return false;
        }
        shard += 1;
    }
    true
}

fn are_in(shards: u8, nodes: &[ShardId]) -> bool
    ensures { result ≡ list_all (λ s. nat_le 1 s && nat_le s shards) nodes.now }
{
    nodes.iter().all(|shard| 1 <= *shard && *shard <= shards)
}

/// Whether these are the shards of 1 to 64 nodes.
fn may_be_nodes(shards: u8, nodes: &[ShardId]) -> bool
    ensures { result ≡ may_be_nodes shards nodes.now }
{
    !nodes.is_empty() && nodes.len() <= MAX_NODES as usize && are_in(shards, nodes)
}

/// What is wrong first with the parts of a setup.
pub(crate) fn setup_fault(
    version: u8,
    rule: Rule,
    shards: u8,
    nodes: &[ShardId],
    configs: &[Config],
) -> Option<BadSetup>
    ensures fault { result ≡ setup_fault (record {
      version = version;
      rule = rule;
      shards = shards;
      nodes = nodes.now;
      configs = configs.now;
    }) }
    ensures configs { IfNone result (All IsMembership configs.now) }
{
    if version != 1 && version != 2 {
        return Some(BadSetup::Version);
    }
    if shards < 1 || shards > MAX_SHARDS {
        return Some(BadSetup::Shards);
    }
    if !may_be_nodes(shards, nodes) {
        return Some(BadSetup::Nodes);
    }
    if configs.len() != shards as usize || !are_firsts(nodes, configs) {
        return Some(BadSetup::Configs);
    }
    None
}
