//! Votes of shards, and decisions made of them.

use crate::ids::{ShardId, TxId};

/// What a shard's leader thinks of a transaction.
#[derive(Clone, Copy, Debug, PartialEq, Eq, Hash)]
pub enum Vote {
    /// It may commit.
    Commit,
    /// It clashes with this transaction, which is prepared or committed.
    Clash(TxId),
    /// A take-over found no preparation of it here.
    Lost,
}

/// Why a transaction aborts.
#[derive(Clone, Copy, Debug, PartialEq, Eq, Hash)]
pub enum Cause {
    Clash(TxId),
    Lost,
}

/// What a transaction comes to.
#[derive(Clone, Copy, Debug, PartialEq, Eq, Hash)]
pub enum Decision {
    Commit,
    /// The lowest shard whose vote is not to commit, and that vote.
    Abort { shard: ShardId, cause: Cause },
}
