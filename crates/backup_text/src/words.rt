//! The words of a line.
ghost use Rattle.std.specs.Prelude.{◌≡◌, ◌==◌, ◌≤◌, position, IfSome, IfOk};
ghost use Rattle.std.specs.List.{list_all};
ghost use Rattle.std.specs.Option.{option_map};
ghost use Rattle.text_words.specs.PayloadWords.{is_printable};
ghost use Rattle.backup_text.specs.Lines.{is_call};
ghost use Rattle.backup_text.specs.Readings.{span_in, place_in, object_in};
ghost use Rattle.backup_text.specs.Words.{cut, number_within, txn_in};

use crate::limits::MAX_CALL;
use crate::stages::Span;
use backup_machine::Kept;
use std::alloc::Global;
use tcs_terms::limits::{MAX_NODES, MAX_SEQUENCE};
use tcs_terms::{OutOfMemory, TxId, name_before};
use text_words::{name_in, read_number, value_in};

/// The place of the first of these bytes.
fn place_of(text: &[u8], wanted: u8) -> Option<usize>
    ensures { result ≡ position (λ b. b == wanted) text.now }
{
    text.iter().position(|byte| *byte == wanted)
}

/// What stands before and after the first of these bytes.
#[tactic(auto, unfolding(crate::specs::Words::cut))]
pub(crate) fn cut(text: &[u8], byte: u8) -> Option<(&[u8], &[u8])>
    ensures { option_map (λ parts. (parts.0.now, parts.1.now)) result ≡ cut byte text.now }
{
    let place = place_of(text, byte)?;
    Some((&text[..place], &text[place + 1..]))
}

/// A number from the first one to the last one.
#[tactic(auto, unfolding(crate::specs::Words::number_within))]
fn number_within(word: &[u8], low: u64, high: u64) -> Option<u64>
    ensures value { result ≡ number_within low high word.now }
    ensures range { IfSome result (λ n. (low ≤ n) × (n ≤ high)) }
{
    let number = read_number(word)?;
    if low <= number && number <= high {
        Some(number)
    } else {
        None
    }
}

/// A transaction.
#[tactic(auto, unfolding(crate::specs::Words::txn_in))]
fn txn_in(text: &[u8]) -> Option<TxId>
    ensures { result ≡ txn_in text.now }
{
    let (home, seq) = cut(text, b'.')?;
    let home = number_within(home, 1, u64::from(MAX_NODES))?;
    let seq = number_within(seq, 1, u64::from(MAX_SEQUENCE))?;
    Some(TxId {
        home: home as u8,
        seq: seq as u32,
    })
}

/// A transaction, or none where there is a dash.
#[tactic(auto, unfolding(crate::specs::Readings::place_in))]
pub(crate) fn place_in(text: &[u8]) -> Option<Option<TxId>>
    ensures { result ≡ place_in text.now }
{
    if text == b"-".as_slice() {
        return Some(None);
    }
    let txn = txn_in(text)?;
    Some(Some(txn))
}

fn are_printable(text: &[u8]) -> bool
    ensures { result ≡ list_all is_printable text.now }
{
    text.iter().all(|byte| 32 <= *byte && *byte <= 126)
}

/// Whether this is the text of a call: 1 to 4,096 printable bytes.
pub(crate) fn is_call(text: &[u8]) -> bool
    ensures { result ≡ is_call text.now }
{
    1 <= text.len() && text.len() <= MAX_CALL && are_printable(text)
}

/// Two names, of which the first stands before the second.
#[tactic(auto, unfolding(crate::specs::Readings::span_in))]
pub(crate) fn span_in(alloc: Global, text: &[u8]) -> Result<Option<Span>, OutOfMemory>
    ensures { IfOk result (λ span. span ≡ span_in text.now) }
{
    let Some((from, upto)) = cut(text, b' ') else {
        return Ok(None);
    };
    let Some(from) = name_in(alloc, from)? else {
        return Ok(None);
    };
    let Some(upto) = name_in(alloc, upto)? else {
        return Ok(None);
    };
    if name_before(from.bytes(), upto.bytes()) {
        Ok(Some(Span { from, upto }))
    } else {
        Ok(None)
    }
}

/// A name, a version from 1 on, and a value.
#[tactic(auto, unfolding(crate::specs::Readings::object_in))]
pub(crate) fn object_in(alloc: Global, text: &[u8]) -> Result<Option<Kept>, OutOfMemory>
    ensures { IfOk result (λ object. object ≡ object_in text.now) }
{
    let Some((name, rest)) = cut(text, b' ') else {
        return Ok(None);
    };
    let Some((version, value)) = cut(rest, b' ') else {
        return Ok(None);
    };
    let Some(name) = name_in(alloc, name)? else {
        return Ok(None);
    };
    let Some(version) = read_number(version) else {
        return Ok(None);
    };
    let Some(value) = value_in(alloc, value)? else {
        return Ok(None);
    };
    if version >= 1 {
        Ok(Some(Kept {
            name,
            version,
            value,
        }))
    } else {
        Ok(None)
    }
}
