//! What the program is asked to do.
ghost use Rattle.std.specs.Prelude.{◌≡◌, ◌≤◌, IsSomeAnd, codes, map, string_bytes};
ghost use Rattle.clap.specs.Words.{found_of, one_text, rows_of};
ghost use Rattle.net_words.specs.Readings.{IsReadable, ReadsIn};
ghost use Rattle.net_words.specs.Requests.{Answers, Holds, IsInRange, TakesPlain, number_or};

use crate::definition::command;
use crate::{Mode, Refusal};
use clap::ArgMatches;
use std::alloc::Global;

/// What the program is asked to do.
#[derive(Clone, Copy, Debug, PartialEq, Eq)]
pub struct Request {
    pub mode: Mode,
    /// Which node runs, 0 to 64: 0 is the configuration service. Read in mode `node` alone.
    pub id: u8,
    /// The port of the configuration service, 1024 to 65000.
    pub port: u16,
    /// How many messages a node may leave unanswered, 1 to 1,000,000. Read in mode `guard` alone.
    pub miss: u32,
}

impl Request {
    /// What the words behind the program's own name ask for.
    pub fn from_words(alloc: Global, words: &[String]) -> Result<Request, Refusal>
        ensures answers { Answers (map string_bytes words.now) result }
        ensures plain { TakesPlain (map string_bytes words.now) result }
    {
        let command = command(alloc)?;
        match command.try_get_matches_from(words) {
            Ok(matches) => asked(&matches).ok_or(Refusal::BadWords),
            Err(error) => Err(Refusal::of(alloc, &error)),
        }
    }
}

/// What the matches of such a command ask for.
fn asked(matches: &ArgMatches<'_>) -> Option<Request>
    ensures { IsReadable (found_of matches.now)
        → IsSomeAnd result (λ r. Holds (rows_of (found_of matches.now)) r × IsInRange r) }
{
    let mode = Mode::named(matches.get_str("mode")?)?;
    Some(Request {
        mode,
        id: id(matches),
        port: port(matches),
        miss: miss(matches),
    })
}

fn id(matches: &ArgMatches<'_>) -> u8
    ensures { ReadsIn (found_of matches.now) (codes "id") 0 64
        → (result ≡ number_or (one_text (found_of matches.now) (codes "id")) 0) × (result ≤ 64) }
{
    matches.get_one::<u8>("id").unwrap_or(0)
}

fn port(matches: &ArgMatches<'_>) -> u16
    ensures { ReadsIn (found_of matches.now) (codes "port") 1024 65000
        → (result ≡ number_or (one_text (found_of matches.now) (codes "port")) 47000)
        × ((1024 ≤ result) × (result ≤ 65000)) }
{
    matches.get_one::<u16>("port").unwrap_or(47_000)
}

fn miss(matches: &ArgMatches<'_>) -> u32
    ensures { ReadsIn (found_of matches.now) (codes "miss") 1 1000000
        → (result ≡ number_or (one_text (found_of matches.now) (codes "miss")) 100)
        × ((1 ≤ result) × (result ≤ 1000000)) }
{
    matches.get_one::<u32>("miss").unwrap_or(100)
}
