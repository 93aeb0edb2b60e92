//! Why a word of a text does not fit, and where.
ghost use Rattle.std.specs.Prelude.{◌≡◌, Some};
ghost use Rattle.text_words.specs.Words.{reason_text};

use std::alloc::{AllocError, AllocFailed};
use std::fmt;
use tcs_terms::OutOfMemory;
use thiserror::Error;

/// Why a text is refused.
#[derive(Clone, Copy, Debug, PartialEq, Eq, Hash)]
pub enum Reason {
    /// A byte stands after the end.
    Extra,
    /// The input ends too early.
    Missing,
    /// A line is too long.
    Long,
    /// One more than there may be.
    Many,
    /// Another word is wanted, or a word is missing, left over or of a wrong form.
    Word,
    /// A number's form is wrong, or it exceeds 18,446,744,073,709,551,615.
    Number,
    /// A number is outside its range.
    Range,
    /// Numbers or names do not ascend.
    Order,
    /// The commit version is 0, or a version that was read is not below it.
    Version,
    /// A written object is not read.
    Unread,
}

impl Reason {
    /// The reason's word, as it is printed.
    pub fn word(self) -> &'static str
        ensures { result.now ≡ reason_text self }
    {
        match self {
            Reason::Extra => "extra",
            Reason::Missing => "missing",
            Reason::Long => "long",
            Reason::Many => "many",
            Reason::Word => "word",
            Reason::Number => "number",
            Reason::Range => "range",
            Reason::Order => "order",
            Reason::Version => "version",
            Reason::Unread => "unread",
        }
    }
}

impl fmt::Display for Reason {
    ghost output = { λ reason. Some (reason_text reason) };

    fn fmt<W: fmt::Write>(&self, f: &mut fmt::Formatter<W>) -> fmt::Result {
        f.write_str(self.word())
    }
}

/// Why words are not those of a payload.
#[derive(Clone, Copy, Debug, PartialEq, Eq, Error)]
pub enum WordFault {
    /// The number, from 1, of the first word that does not fit, and the reason. A missing word has the number that it
    /// would have.
    #[error("word {word}: {reason}")]
    Bad { word: usize, reason: Reason },
    #[error("out of memory")]
    OutOfMemory,
}

impl From<AllocError> for WordFault {
    ghost use Rattle.text_words.specs.declared.words.WordFault.TheVariants.{OutOfMemory};

    ghost from_gives = { λ _ e. e ≡ OutOfMemory };

    fn from(_e: AllocError) -> WordFault {
        WordFault::OutOfMemory
    }
}

/// Why a reader of words stops: memory ran out, or a word does not fit. Of a misfit the reader knows how many words
/// there are from that one on; a missing word has none.
#[derive(Clone, Copy, Debug, PartialEq, Eq)]
pub enum Stop {
    OutOfMemory,
    Misfit { left: usize, reason: Reason },
}

impl From<OutOfMemory> for Stop {
    ghost use Rattle.text_words.specs.declared.words.Stop.TheVariants.{OutOfMemory};

    ghost from_gives = { λ _ e. e ≡ OutOfMemory };

    fn from(_: OutOfMemory) -> Stop {
        Stop::OutOfMemory
    }
}

impl From<AllocError> for Stop {
    ghost use Rattle.text_words.specs.declared.words.Stop.TheVariants.{OutOfMemory};

    ghost from_gives = { λ _ e. e ≡ OutOfMemory };

    fn from(_e: AllocError) -> Stop {
        Stop::OutOfMemory
    }
}

impl<T: Drop> From<AllocFailed<T>> for Stop {
    ghost use Rattle.text_words.specs.declared.words.Stop.TheVariants.{OutOfMemory};

    ghost from_gives = { λ _ e. e ≡ OutOfMemory };

    fn from(_e: AllocFailed<T>) -> Stop {
        Stop::OutOfMemory
    }
}
