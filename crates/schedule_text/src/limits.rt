//! Every limit of the text, named once. All of them are this project's own.
ghost use Rattle.std.specs.Prelude.{◌≡◌};

/// A line has at most this many bytes, without its line feed.
pub const LINE_LIMIT: usize = 4096;
/// A schedule has at most this many events.
pub const EVENT_LIMIT: u32 = 1_000_000;
/// A script has at most this many lines that are not `settle`; one for a single node has at most this many lines.
pub const SCRIPT_LINES: u32 = 25_000;
/// One line of a cluster's script lets at most this many turns pass.
pub const MOST_TURNS: u64 = 15_000;
/// One line of a node's script lets at most this many turns pass.
pub const MOST_NODE_TURNS: u64 = 1_000_000_000;

/// Each limit is this number.
pub fn limits_are()
    ensures line { LINE_LIMIT ≡ 4096 }
    ensures events { EVENT_LIMIT ≡ 1000000 }
    ensures script_lines { SCRIPT_LINES ≡ 25000 }
    ensures turns { MOST_TURNS ≡ 15000 }
    ensures node_turns { MOST_NODE_TURNS ≡ 1000000000 }
{}
