//! The numbers by which nodes, shards, epochs, slots and transactions are known.

/// A node: 1 to 64. In a message's ends 0 is the configuration service and 255 a sender that is no node.
pub type NodeId = u8;
/// A shard: 1 to 16.
pub type ShardId = u8;
/// An epoch of a shard: 1 to 1,000,000, and 0 for none.
pub type Epoch = u32;
/// A slot of a log: 1 to 4,096.
pub type Slot = u16;

/// A transaction: the node that made it, and its number there, from 1 to 1,000,000.
#[derive(Clone, Copy, Debug, PartialEq, Eq, Hash)]
pub struct TxId {
    pub home: NodeId,
    pub seq: u32,
}
