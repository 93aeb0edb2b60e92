//! What is said of a history.

use tcs_terms::TxId;

/// A clause of a correct history, in the order in which they are tried.
#[derive(Clone, Copy, Debug, PartialEq, Eq, Hash)]
pub enum Clause {
    /// Each decision stands after the transaction's beginning, and all decisions of one transaction are equal.
    Agreement,
    /// Each committed transaction passes the committed test against all before it in the order of first commits.
    Legality,
    /// An abort by a clash names another transaction, begun before, that clashes in the named shard.
    Clash,
    /// An abort of a lost transaction stands after a take-over of it.
    Lost,
    /// The order that is told of a history is that of its first commits. It is no clause of the history alone.
    Order,
}

/// The verdict on a history.
#[derive(Clone, Copy, Debug, PartialEq, Eq, Hash)]
pub enum Verdict {
    /// All clauses hold: how many transactions were decided, and of these how many committed and how many aborted.
    Correct {
        decided: u32,
        committed: u32,
        aborted: u32,
    },
    /// The first clause that fails, and the transaction of its first failing decision: for legality of the first
    /// failing place in the order of commits.
    Incorrect {
        clause: Clause,
        txn: TxId,
    },
}
