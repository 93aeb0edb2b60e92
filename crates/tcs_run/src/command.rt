//! The words of the command line.
ghost use Rattle.std.specs.Prelude.{◌≡◌, map, string_bytes};
ghost use Rattle.tcs_run.specs.Commands.{command_in, in_one, in_three};

use crate::generations::Generation;
use tcs_terms::same_name;

/// What the program is asked to do.
#[derive(Clone, Copy, Debug, PartialEq, Eq)]
pub enum Command {
    /// `replay`: reads a schedule, and writes the trace of its run.
    Replay,
    /// `audit`: reads a trace, and writes the verdict on what it tells.
    Audit,
    /// `quorum`: reads events of a quorum store, and writes the text of their run.
    Quorum,
    /// `totals`: reads a schedule by the rule in which additions commute, and writes what its counters are worth.
    Totals,
    /// `restore`: reads a backup file, and writes the schedule that puts its objects back.
    Restore,
    /// `gen SEED COUNT`: writes a generated schedule.
    Generate(Generation),
    /// `soak SEED COUNT`: runs a generated schedule, and writes what its run comes to.
    Soak(Generation),
}

impl Command {
    /// The command that these words name, which are those behind the program's own name.
    pub fn named(words: &[String]) -> Option<Command>
        ensures { result ≡ command_in (map string_bytes words.now) }
    {
        match words {
            [] => None,
            [word] => in_one(word.as_bytes()),
            [_, _] => None,
            [word, seed, count] => in_three(word.as_bytes(), seed.as_bytes(), count.as_bytes()),
            [_, _, _, _, ..] => None,
        }
    }
}

/// The command that one word names.
fn in_one(word: &[u8]) -> Option<Command>
    ensures { result ≡ in_one word.now }
{
    if same_name(word, b"replay") {
        Some(Command::Replay)
    } else if same_name(word, b"audit") {
        Some(Command::Audit)
    } else if same_name(word, b"quorum") {
        Some(Command::Quorum)
    } else if same_name(word, b"totals") {
        Some(Command::Totals)
    } else if same_name(word, b"restore") {
        Some(Command::Restore)
    } else {
        None
    }
}

/// The command that a word and the two numbers behind it name.
fn in_three(word: &[u8], seed: &[u8], count: &[u8]) -> Option<Command>
    ensures { result ≡ in_three word.now seed.now count.now }
{
    if same_name(word, b"gen") {
        Some(Command::Generate(Generation::named(seed, count)?))
    } else if same_name(word, b"soak") {
        Some(Command::Soak(Generation::named(seed, count)?))
    } else {
        None
    }
}
