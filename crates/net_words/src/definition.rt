//! The command line as `clap` is told it.
ghost use Rattle.std.specs.Prelude.{◌≡◌, IfOk, codes};
ghost use Rattle.clap.specs.Words.{app_of, rule_of};
ghost use Rattle.net_words.specs.Definition.{HasDefinition, IsModeRule, numbers, option};

use clap::builder::ValueParser;
use clap::{Arg, ArgAction, Command};
use std::alloc::{AllocError, Global};

/// The words that name a mode.
static MODES: [&str; 3] = ["cluster", "node", "guard"];

fn mode<'a>(alloc: Global) -> Arg<'a>
    ensures rule { IsModeRule (rule_of result) }
{
    Arg::new(alloc, "mode")
        .required(true)
        .action(ArgAction::Set)
        .value_parser(MODES.as_slice())
        .help("What to run")
}

fn id<'a>(alloc: Global) -> Arg<'a>
    ensures rule { rule_of result ≡ option (codes "id") (numbers 0 64) }
{
    Arg::new(alloc, "id")
        .long("id")
        .value_name("N")
        .action(ArgAction::Set)
        .value_parser(ValueParser::signed(0, 64))
        .help("With node: which node, or 0 for the configuration service [default: 0]")
}

fn port<'a>(alloc: Global) -> Arg<'a>
    ensures rule { rule_of result ≡ option (codes "port") (numbers 1024 65000) }
{
    Arg::new(alloc, "port")
        .long("port")
        .value_name("P")
        .action(ArgAction::Set)
        .value_parser(ValueParser::signed(1024, 65_000))
        .help(
            "The port of the configuration service; node N has the N-th port above it [default: 47000]",
        )
}

fn miss<'a>(alloc: Global) -> Arg<'a>
    ensures rule { rule_of result ≡ option (codes "miss") (numbers 1 1000000) }
{
    Arg::new(alloc, "miss")
        .long("miss")
        .value_name("T")
        .action(ArgAction::Set)
        .value_parser(ValueParser::signed(1, 1_000_000))
        .help("With guard: how many messages a node may leave unanswered [default: 100]")
}

/// The one command of the program.
pub(crate) fn command<'a>(alloc: Global) -> Result<Command<'a>, AllocError>
    ensures { IfOk result (λ command. HasDefinition (app_of command)) }
{
    Command::new(alloc, "tcs_net")
        .version("1.0")
        .no_binary_name(true)
        .about("Runs the nodes of a transaction certification service over datagrams")
        .arg(mode(alloc))?
        .arg(id(alloc))?
        .arg(port(alloc))?
        .arg(miss(alloc))
}
