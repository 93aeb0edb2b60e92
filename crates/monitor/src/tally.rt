//! How many messages each node left without any of its own.
ghost use Rattle.std.specs.Prelude.{◌≡◌, ◌≤◌, if◌then◌else◌, length};
ghost use Rattle.tcs_terms.specs.Setups.{has_node, is_node_of};
ghost use Rattle.monitor.specs.Tally.{count_of, cleared, raised, heard, owes, counted, shard_cleared};

use tcs_terms::{NodeId, Outgoing, ShardId, is_node_of};

/// No count rises above this.
const MOST: u32 = 1_000_000;

/// Whether there is a count of the node; those of nodes 1, 2 and so on are kept.
fn has_count(counts: &[u32], node: NodeId) -> bool
    ensures { result ≡ has_node counts.now node }
{
    1 <= node && usize::from(node) <= counts.len()
}

/// The count of a node, 0 where none is kept.
pub(crate) fn count_of(counts: &[u32], node: NodeId) -> u32
    ensures { result ≡ count_of counts.now node }
{
    if has_count(counts, node) {
        counts[usize::from(node) - 1]
    } else {
        0
    }
}

/// Sets the count of a node back.
fn clear(counts: &mut [u32], node: NodeId)
    ensures { counts.new ≡ cleared counts.old node }
{
    if has_count(counts, node) {
        counts[usize::from(node) - 1] = 0;
    }
}

/// Raises the count of a node.
fn raise(counts: &mut [u32], node: NodeId)
    ensures { counts.new ≡ raised counts.old node }
{
    if has_count(counts, node) {
        let place = usize::from(node) - 1;
        counts[place] = counts[place].saturating_add(1).min(MOST);
    }
}

/// Sets the count of every sender back.
fn hear_senders(counts: &mut [u32], sent: &[(NodeId, Outgoing)])
    ensures { counts.new ≡ heard counts.old sent.now }
{
    for letter in sent {
        clear(counts, letter.0);
    }
}

/// Counts a message, given its sender.
fn count_message(counts: &mut [u32], letter: &(NodeId, Outgoing))
    ensures { counts.new ≡ owes counts.old letter.now }
{
    let to = letter.1.to;
    if to != letter.0 && to != 0 {
        raise(counts, to);
    }
}

/// Counts messages that were sent at once, each with its sender.
pub(crate) fn count(counts: &mut [u32], sent: &[(NodeId, Outgoing)])
    ensures { counts.new ≡ counted counts.old sent.now }
{
    hear_senders(counts, sent);
    for letter in sent {
        count_message(counts, letter);
    }
}

/// Sets the count of a node back, where it is one of the shard.
fn clear_of(nodes: &[ShardId], shard: ShardId, counts: &mut [u32], node: NodeId)
    ensures { counts.new ≡ (if is_node_of nodes.now shard node then cleared counts.old node else counts.old) }
{
    if is_node_of(nodes, shard, u64::from(node)) {
        clear(counts, node);
    }
}

/// Sets the counts of the nodes of a shard back.
pub(crate) fn clear_shard(nodes: &[ShardId], shard: ShardId, counts: &mut [u32])
    requires { length nodes.now ≤ 64 }
    ensures { counts.new ≡ shard_cleared nodes.now shard counts.old }
{
    for node in 1..nodes.len() as u8 + 1 {
        clear_of(nodes, shard, counts, node);
    }
}
