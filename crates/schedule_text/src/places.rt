//! Where in a schedule or script a reader stands.

/// What a reader waits for.
#[derive(Clone, Copy, Debug, PartialEq, Eq)]
pub enum Place {
    /// The first line.
    Version,
    /// The line of the rule.
    Certifier,
    /// The line of the number of shards.
    Shards,
    /// A node, a configuration or the line `events`.
    Parts,
    /// A line between `events` and `end`, or `end`.
    Events,
    /// Nothing: `end` was taken.
    Ended,
}
