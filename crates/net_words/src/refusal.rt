//! Why the words ask for no run.
ghost use Rattle.std.specs.Prelude.{◌≡◌};
ghost use Rattle.clap.specs.Words.{kind_of};
ghost use Rattle.net_words.specs.Refusals.{ComesTo, IsShownOrNoMemory};
ghost use Rattle.net_words.specs.declared.refusal.Refusal.TheVariants.{OutOfMemory as no_memory};

use clap::Error;
use clap::error::ErrorKind;
use std::alloc::{AllocError, Global};

/// Why the words ask for no run.
#[derive(Debug, Drop)]
pub enum Refusal {
    /// The words are no command line of the program.
    BadWords,
    /// They ask for this text, which goes to the standard output: the help, or the version.
    Shown(String),
    OutOfMemory,
}

impl Refusal {
    /// What an error of `clap` comes to.
    pub(crate) fn of(alloc: Global, error: &Error) -> Refusal
        ensures { ComesTo (kind_of error.now) result }
    {
        match error.kind() {
            ErrorKind::OutOfMemory => Refusal::OutOfMemory,
            ErrorKind::DisplayHelp | ErrorKind::DisplayVersion => shown(alloc, error),
            _ => Refusal::BadWords,
        }
    }
}

/// The text of an error, to be shown.
fn shown(alloc: Global, error: &Error) -> Refusal
    ensures { IsShownOrNoMemory result }
{
    match format!(in alloc; "{error}") {
        Ok(text) => Refusal::Shown(text),
        Err(_) => Refusal::OutOfMemory,
    }
}

impl From<AllocError> for Refusal {
    ghost from_gives = { λ _ refusal. refusal ≡ no_memory };

    fn from(_: AllocError) -> Self {
        Refusal::OutOfMemory
    }
}
