//! The move that is proposed of a configuration.
ghost use Rattle.std.specs.Prelude.{◌≡◌, ◌≤◌, ◌&&◌, ◌==◌, not, length, IfOk, count_by};
ghost use Rattle.tcs_terms.specs.Setups.{is_node_of};
ghost use Rattle.monitor.specs.Moves.{others, before, first_of, first_ones, wanted, move_to};

use crate::tally::count_of;
use std::alloc::Global;
use tcs_terms::limits::MAX_WANTED;
use tcs_terms::{Config, Event, Input, NodeId, OutOfMemory, ShardId, Wanted, is_node_of};

/// A move that is proposed: the event, the member that is missed, and its count.
#[derive(Debug, Drop)]
pub struct Proposal {
    pub event: Event,
    pub missed: NodeId,
    pub count: u32,
}

/// Whether a node is one of the shard other than the one that is missed.
pub(crate) fn is_spare(nodes: &[ShardId], shard: ShardId, missed: NodeId, node: u64) -> bool
    ensures { result ≡ (is_node_of nodes.now shard node && not (node == missed)) }
{
    is_node_of(nodes, shard, node) && node != u64::from(missed)
}

/// The nodes of a shard other than this one.
pub(crate) fn others(
    alloc: Global,
    nodes: &[ShardId],
    shard: ShardId,
    missed: NodeId,
) -> Result<Vec<NodeId>, OutOfMemory>
    requires { length nodes.now ≤ 64 }
    ensures { IfOk result (λ list. list.items ≡ others nodes.now shard missed) }
{
    let mut list = Vec::new(alloc);
    for node in 1..nodes.len() as u8 + 1 {
        if is_spare(nodes, shard, missed, u64::from(node)) {
            list.push(node)?;
        }
    }
    Ok(list)
}

/// Whether the first node stands before the second: by count, then by number.
fn is_before(counts: &[u32], first: NodeId, second: NodeId) -> bool
    ensures { result ≡ before counts.now first second }
{
    let (one, other) = (count_of(counts, first), count_of(counts, second));
    one < other || (one == other && first < second)
}

/// The one of these that stands before all others.
fn first_of(counts: &[u32], node: NodeId, nodes: &[NodeId]) -> NodeId
    ensures { result ≡ first_of counts.now node nodes.now }
{
    let mut best = node;
    for node in nodes {
        if is_before(counts, *node, best) {
            best = *node;
        }
    }
    best
}

/// How many of these stand before a node.
fn place_among(counts: &[u32], nodes: &[NodeId], node: NodeId) -> usize
    ensures { result ≡ count_by (λ m. before counts.now m node) nodes.now }
{
    nodes
        .iter()
        .filter(|other| is_before(counts, **other, node))
        .count()
}

/// Those of these nodes before which fewer than so many stand.
fn first_ones(
    alloc: Global,
    counts: &[u32],
    most: usize,
    nodes: &[NodeId],
) -> Result<Vec<NodeId>, OutOfMemory>
    ensures { IfOk result (λ list. list.items ≡ first_ones counts.now most nodes.now) }
{
    let mut list = Vec::new(alloc);
    for node in nodes {
        if place_among(counts, nodes, *node) < most {
            list.push(*node)?;
        }
    }
    list.truncate(most);
    Ok(list)
}

/// The move of a configuration with this missing member to these other nodes of its shard.
pub(crate) fn move_to(
    alloc: Global,
    counts: &[u32],
    config: &Config,
    missed: NodeId,
    spares: &[NodeId],
) -> Result<Option<Proposal>, OutOfMemory>
    ensures { IfOk result (λ answer. answer ≡ move_to counts.now config.now missed spares.now) }
{
    match spares {
        [] => Ok(None),
        [first, rest @ ..] => {
            let most = MAX_WANTED.min(config.members().len().min(spares.len()));
            let want = Wanted::build(first_ones(alloc, counts, most, spares)?);
            let input = Input::Move {
                shard: config.shard(),
                want,
            };
            Ok(Some(Proposal {
                event: Event::Call {
                    node: first_of(counts, *first, rest),
                    input,
                },
                missed,
                count: count_of(counts, missed),
            }))
        }
    }
}
