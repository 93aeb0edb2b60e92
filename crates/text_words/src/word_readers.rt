//! Readers of one word: each takes it from the words that are left, and gives its value.
ghost use Rattle.std.specs.Prelude.{◌≡◌, IfOk};
ghost use Rattle.std.specs.List.{list_all};
ghost use Rattle.text_words.specs.PayloadWords.{Tells, fixed_word, all_read, name_in, is_printable, number_word, name_word, from_word, written_word, value_word, commit_word, version_word};

use crate::cursor::Words;
use crate::hex_words::value_in;
use crate::texts::read_number;
use crate::words::{Reason, Stop};
use std::alloc::Global;
use tcs_terms::{Name, NameFault, OutOfMemory, ReadPart, Value, name_before, reads_name};

/// A word that is fixed.
pub fn fixed_word(word: &[u8], words: &mut Words) -> Result<(), Stop>
    ensures { Tells (λ x. x) result words.new (fixed_word word.now words.old) }
{
    if !words.begins(word) {
        return words.misfit(Reason::Word);
    }
    words.skip();
    Ok(())
}

/// No word may be left over.
pub fn all_read(words: &mut Words) -> Result<(), Stop>
    ensures { Tells (λ x. x) result words.new (all_read words.old) }
{
    if !words.is_empty() {
        return words.misfit(Reason::Word);
    }
    Ok(())
}

fn are_printable(word: &[u8]) -> bool
    ensures { result ≡ list_all is_printable word.now }
{
    word.iter().all(|byte| 32 <= *byte && *byte <= 126)
}

/// A number.
#[tactic(auto, unfolding(crate::specs::PayloadWords::number_word))]
pub fn number_word(words: &mut Words) -> Result<u64, Stop>
    ensures { Tells (λ n. n) result words.new (number_word words.old) }
{
    let start = words.copy();
    let Some(word) = words.take() else {
        return start.misfit(Reason::Word);
    };
    if let Some(number) = read_number(word) {
        return Ok(number);
    }
    if word.is_empty() || !are_printable(word) {
        return start.misfit(Reason::Word);
    }
    start.misfit(Reason::Number)
}

/// The commit version, which is not 0.
#[tactic(auto, unfolding(crate::specs::PayloadWords::commit_word))]
pub(crate) fn commit_word(words: &mut Words) -> Result<u64, Stop>
    ensures { Tells (λ n. n) result words.new (commit_word words.old) }
{
    let start = words.copy();
    let version = number_word(words)?;
    if version == 0 {
        return start.misfit(Reason::Version);
    }
    Ok(version)
}

/// A version that was read, which is below the commit version.
#[tactic(auto, unfolding(crate::specs::PayloadWords::version_word))]
pub(crate) fn version_word(commit: u64, words: &mut Words) -> Result<u64, Stop>
    ensures { Tells (λ n. n) result words.new (version_word commit words.old) }
{
    let start = words.copy();
    let version = number_word(words)?;
    if version >= commit {
        return start.misfit(Reason::Version);
    }
    Ok(version)
}

/// The name that a word is.
#[tactic(auto, unfolding(crate::specs::PayloadWords::name_in))]
pub fn name_in(alloc: Global, word: &[u8]) -> Result<Option<Name>, OutOfMemory>
    ensures { IfOk result (λ name. name ≡ name_in word.now) }
{
    match Name::build(alloc, word) {
        Ok(name) => Ok(Some(name)),
        Err(NameFault::Bad(_)) => Ok(None),
        Err(NameFault::OutOfMemory) => Err(OutOfMemory),
    }
}

/// A name that stands after another one.
#[tactic(auto, unfolding(crate::specs::PayloadWords::name_word))]
pub fn name_word(alloc: Global, before: &[u8], words: &mut Words) -> Result<Name, Stop>
    ensures { Tells (λ n. n) result words.new (name_word before.now words.old) }
{
    let start = words.copy();
    let Some(word) = words.take() else {
        return start.misfit(Reason::Word);
    };
    let Some(name) = name_in(alloc, word)? else {
        return start.misfit(Reason::Word);
    };
    if !name_before(before, word) {
        return start.misfit(Reason::Order);
    }
    Ok(name)
}

/// The beginning of a range, which is not below the end of the one before.
#[tactic(auto, unfolding(crate::specs::PayloadWords::from_word))]
pub(crate) fn from_word(alloc: Global, end: &[u8], words: &mut Words) -> Result<Name, Stop>
    ensures { Tells (λ n. n) result words.new (from_word end.now words.old) }
{
    let start = words.copy();
    let Some(word) = words.take() else {
        return start.misfit(Reason::Word);
    };
    let Some(name) = name_in(alloc, word)? else {
        return start.misfit(Reason::Word);
    };
    if name_before(word, end) {
        return start.misfit(Reason::Order);
    }
    Ok(name)
}

/// A written name, which is also read.
#[tactic(auto, unfolding(crate::specs::PayloadWords::written_word))]
pub(crate) fn written_word(
    alloc: Global,
    reads: &[ReadPart],
    before: &[u8],
    words: &mut Words,
) -> Result<Name, Stop>
    ensures { Tells (λ n. n) result words.new (written_word reads.now before.now words.old) }
{
    let start = words.copy();
    let name = name_word(alloc, before, words)?;
    if !reads_name(reads, name.bytes()) {
        return start.misfit(Reason::Unread);
    }
    Ok(name)
}

/// A value.
#[tactic(auto, unfolding(crate::specs::PayloadWords::value_word))]
pub(crate) fn value_word(alloc: Global, words: &mut Words) -> Result<Value, Stop>
    ensures { Tells (λ v. v) result words.new (value_word words.old) }
{
    let start = words.copy();
    let Some(word) = words.take() else {
        return start.misfit(Reason::Word);
    };
    let Some(value) = value_in(alloc, word)? else {
        return start.misfit(Reason::Word);
    };
    Ok(value)
}
