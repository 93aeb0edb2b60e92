//! What the generator looks up in the world of its run.
ghost use Rattle.std.specs.Prelude.{◌≡◌, ◌&&◌, false, Some, find, is_none, option_copied};
ghost use Rattle.std.specs.Option.{option_map};
ghost use Rattle.protocol.specs.ClientRules.{is_undecided};
ghost use Rattle.protocol.specs.World.{node_of};
ghost use Rattle.protocol_laws.specs.Promises.{world_of};
ghost use Rattle.generated_runs.specs.Sights.{waits_in, reader_in, orphan_of, is_orphan, known_leader, has_open_case};

use node_core::Node;
use tcs_laws::VoteGuard;
use tcs_terms::{Mark, Name, NodeId, Row, ShardId, TxId, shard_of};
use world::World;

/// The node that hands in the payloads, and that is nudged.
pub(crate) const CLIENT: NodeId = 9;
/// The node that takes over.
pub(crate) const TAKER: NodeId = 5;

/// Whether node 9 has an open case.
pub(crate) fn waits_in<G: VoteGuard>(world: &World<G>) -> bool
    requires { world.now.spent ≡ false }
    ensures { result ≡ waits_in (world_of world.now.progress) }
{
    match world.node(CLIENT) {
        None => false,
        Some(node) => node.open_cases() != 0,
    }
}

/// The leader that a node knows of a shard.
fn known_leader<G: VoteGuard>(node: &Node<G>, shard: ShardId) -> NodeId
    ensures { result ≡ known_leader (Some node.now.kept) shard }
{
    match node.view(shard) {
        None => CLIENT,
        Some(config) => config.leader(),
    }
}

/// The leader that node 9 knows of an object's shard.
pub(crate) fn reader_in<G: VoteGuard>(world: &World<G>, name: &Name) -> NodeId
    requires { world.now.spent ≡ false }
    ensures { result ≡ reader_in (world_of world.now.progress) name.now }
{
    match world.node(CLIENT) {
        None => CLIENT,
        Some(node) => known_leader(node, shard_of(name.bytes(), 3)),
    }
}

/// Whether a row is undecided, and the node has no case of its transaction.
fn is_orphan<G: VoteGuard>(node: &Node<G>, row: &Row) -> bool
    ensures { result ≡ is_orphan node.now.kept.coordinator row.now }
{
    matches!(row.mark, Mark::Undecided) && !node.has_case(row.entry.txn)
}

/// The transaction of the lowest such row.
fn first_orphan<G: VoteGuard>(node: &Node<G>) -> Option<TxId>
    ensures { result ≡ orphan_of (Some node.now.kept) }
{
    match node.rows().iter().find(|row| is_orphan(node, row)) {
        None => None,
        Some(row) => Some(row.entry.txn),
    }
}

/// The transaction that node 5 may take over.
pub(crate) fn orphan_in<G: VoteGuard>(world: &World<G>) -> Option<TxId>
    requires { world.now.spent ≡ false }
    ensures { result ≡ orphan_of (node_of (world_of world.now.progress).nodes 5) }
{
    match world.node(TAKER) {
        None => None,
        Some(node) => first_orphan(node),
    }
}
