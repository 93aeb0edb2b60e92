//! The words of notes.
ghost use Rattle.std.specs.Prelude.{◌≡◌, ◌==◌, ◌||◌, IsTrue, IfOk};
ghost use Rattle.std.specs.Result.{result_ok};
ghost use Rattle.text_words.specs.PayloadWords.{reading};
ghost use Rattle.trace_text.specs.Readings.{begin_in, take_in, read_in, decide_in, note_in};

use crate::decisions::decision_in;
use crate::words::{cut, txn_in};
use std::alloc::Global;
use tcs_terms::{Note, OutOfMemory, Payload};
use text_words::{WordFault, name_in, read_number, read_payload, value_in};

/// The payload that a text writes.
fn payload_in(alloc: Global, text: &[u8], version: u8) -> Result<Option<Payload>, OutOfMemory>
    requires { IsTrue ((version == 1) || (version == 2)) }
    ensures { IfOk result (λ payload. payload ≡ result_ok (reading version text.now)) }
{
    match read_payload(alloc, text, version) {
        Ok(payload) => Ok(Some(payload)),
        Err(WordFault::Bad { .. }) => Ok(None),
        Err(WordFault::OutOfMemory) => Err(OutOfMemory),
    }
}

#[tactic(auto, unfolding(crate::specs::Readings::begin_in))]
fn begin_in(alloc: Global, text: &[u8], version: u8) -> Result<Option<Note>, OutOfMemory>
    requires { IsTrue ((version == 1) || (version == 2)) }
    ensures { IfOk result (λ note. note ≡ begin_in version text.now) }
{
    let Some((word, rest)) = cut(text, b' ') else {
        return Ok(None);
    };
    let Some(txn) = txn_in(word) else {
        return Ok(None);
    };
    match payload_in(alloc, rest, version)? {
        Some(payload) => Ok(Some(Note::Begin { txn, payload })),
        None => Ok(None),
    }
}

#[tactic(auto, unfolding(crate::specs::Readings::take_in))]
fn take_in(text: &[u8]) -> Option<Note>
    ensures { result ≡ take_in text.now }
{
    let txn = txn_in(text)?;
    Some(Note::Take { txn })
}

#[tactic(auto, unfolding(crate::specs::Readings::read_in))]
fn read_in(alloc: Global, text: &[u8]) -> Result<Option<Note>, OutOfMemory>
    ensures { IfOk result (λ note. note ≡ read_in text.now) }
{
    let Some((word, rest)) = cut(text, b' ') else {
        return Ok(None);
    };
    let Some((version, value)) = cut(rest, b' ') else {
        return Ok(None);
    };
    let Some(name) = name_in(alloc, word)? else {
        return Ok(None);
    };
    let Some(version) = read_number(version) else {
        return Ok(None);
    };
    match value_in(alloc, value)? {
        Some(value) => Ok(Some(Note::ReadValue {
            name,
            version,
            value,
        })),
        None => Ok(None),
    }
}

#[tactic(auto, unfolding(crate::specs::Readings::decide_in))]
fn decide_in(text: &[u8], shards: u8) -> Option<Note>
    ensures { result ≡ decide_in shards text.now }
{
    let (txn, decision) = cut(text, b' ')?;
    let txn = txn_in(txn)?;
    let decision = decision_in(decision, shards)?;
    Some(Note::Decide { txn, decision })
}

/// The note of a line, by its first word and what follows, in a trace of this version with so many shards.
#[tactic(auto, unfolding(crate::specs::Readings::note_in))]
pub(crate) fn note_in(
    alloc: Global,
    version: u8,
    shards: u8,
    word: &[u8],
    text: &[u8],
) -> Result<Option<Note>, OutOfMemory>
    requires { IsTrue ((version == 1) || (version == 2)) }
    ensures { IfOk result (λ note. note ≡ note_in version shards word.now text.now) }
{
    if word == b"begin".as_slice() {
        begin_in(alloc, text, version)
    } else if word == b"take".as_slice() {
        Ok(take_in(text))
    } else if word == b"read".as_slice() {
        read_in(alloc, text)
    } else if word == b"decide".as_slice() {
        Ok(decide_in(text, shards))
    } else {
        Ok(None)
    }
}
