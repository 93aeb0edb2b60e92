//! Every limit of the service, named once. All of them are this project's own.
ghost use Rattle.std.specs.Prelude.{◌≡◌};

/// Shards are numbered from 1 to this.
pub const MAX_SHARDS: u8 = 16;
/// Nodes are numbered from 1 to this.
pub const MAX_NODES: u8 = 64;
/// The members of a configuration are at most this many.
pub const MAX_MEMBERS: usize = 7;
/// A move wants at most this many nodes beside the one that becomes leader.
pub const MAX_WANTED: usize = 6;
/// A payload reads at most this many objects by name.
pub const MAX_READS: usize = 16;
/// A payload reads at most this many ranges.
pub const MAX_RANGES: usize = 3;
/// A payload writes at most this many objects.
pub const MAX_WRITES: usize = 16;
/// A name has 1 to this many bytes.
pub const MAX_NAME: usize = 32;
/// A value has at most this many bytes.
pub const MAX_VALUE: usize = 64;
/// The slots of a log are numbered from 1 to this.
pub const MAX_SLOT: u16 = 4096;
/// Epochs are numbered from 1 to this.
pub const MAX_EPOCH: u32 = 1_000_000;
/// One node makes at most this many transactions.
pub const MAX_SEQUENCE: u32 = 1_000_000;
/// A state of one node is sent in at most this many pieces.
pub const MAX_PIECES: u16 = 171;
/// A piece of a state has at most this many rows.
pub const MAX_PIECE_ROWS: usize = 24;
/// The kinds of messages are numbered from 1 to this.
pub const MAX_KIND: u8 = 17;

/// Each limit is this number.
pub fn limits_are()
    ensures shards { MAX_SHARDS ≡ 16 }
    ensures nodes { MAX_NODES ≡ 64 }
    ensures members { MAX_MEMBERS ≡ 7 }
    ensures wanted { MAX_WANTED ≡ 6 }
    ensures reads { MAX_READS ≡ 16 }
    ensures ranges { MAX_RANGES ≡ 3 }
    ensures writes { MAX_WRITES ≡ 16 }
    ensures name { MAX_NAME ≡ 32 }
    ensures value { MAX_VALUE ≡ 64 }
    ensures slot { MAX_SLOT ≡ 4096 }
    ensures epoch { MAX_EPOCH ≡ 1000000 }
    ensures sequence { MAX_SEQUENCE ≡ 1000000 }
    ensures pieces { MAX_PIECES ≡ 171 }
    ensures piece_rows { MAX_PIECE_ROWS ≡ 24 }
    ensures kind { MAX_KIND ≡ 17 }
{}
