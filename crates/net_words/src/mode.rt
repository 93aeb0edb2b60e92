//! What the program runs.
ghost use Rattle.std.specs.Prelude.{◌≡◌, Some};
ghost use Rattle.net_words.specs.Modes.{mode_in, mode_word};

use std::fmt;

/// What the program runs.
#[derive(Clone, Copy, Debug, PartialEq, Eq)]
pub enum Mode {
    /// All nodes and the configuration service, in one process.
    Cluster,
    /// One node, or the configuration service.
    Node,
    /// A cluster, and a monitor that moves shards away from silent nodes.
    Guard,
}

impl Mode {
    /// The mode that a word names.
    pub fn named(word: &str) -> Option<Mode>
        ensures { result ≡ mode_in word.now }
    {
        if word == "cluster" {
            Some(Mode::Cluster)
        } else if word == "node" {
            Some(Mode::Node)
        } else if word == "guard" {
            Some(Mode::Guard)
        } else {
            None
        }
    }
}

impl fmt::Display for Mode {
    ghost output = { λ mode. Some (mode_word mode) };

    fn fmt<W: fmt::Write>(&self, f: &mut fmt::Formatter<W>) -> fmt::Result {
        f.write_str(match self {
            Mode::Cluster => "cluster",
            Mode::Node => "node",
            Mode::Guard => "guard",
        })
    }
}
