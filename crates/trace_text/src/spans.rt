//! Which numbers the words of a line may write.

use tcs_terms::limits::{MAX_NODES, MAX_SEQUENCE, MAX_SHARDS};

/// The numbers from one to another, both among them.
#[derive(Clone, Copy, Debug)]
pub(crate) struct Span {
    pub(crate) low: u64,
    pub(crate) high: u64,
}

/// The versions of a trace.
pub(crate) const VERSIONS: Span = Span { low: 1, high: 2 };
/// How many shards there are.
pub(crate) const SHARDS: Span = Span {
    low: 1,
    high: MAX_SHARDS as u64,
};
/// The ends of a message: a node, or the configuration service, which has the number 0.
pub(crate) const ENDS: Span = Span {
    low: 0,
    high: MAX_NODES as u64,
};
/// The node that made a transaction.
pub(crate) const HOMES: Span = Span {
    low: 1,
    high: MAX_NODES as u64,
};
/// The number of a transaction at its home.
pub(crate) const SEQUENCE: Span = Span {
    low: 1,
    high: MAX_SEQUENCE as u64,
};
/// The marks of results.
pub(crate) const MARKS: Span = Span {
    low: 0,
    high: u32::MAX as u64,
};
