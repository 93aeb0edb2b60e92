//! The words of a line.
ghost use Rattle.std.specs.Prelude.{◌≡◌, ◌≤◌, ◌==◌, position, IfSome, IfOk};
ghost use Rattle.std.specs.Option.{option_map};
ghost use Rattle.text_words.specs.Words.{words_of};
ghost use Rattle.trace_text.specs.Readings.{order_in};
ghost use Rattle.trace_text.specs.Words.{cut, number_within, next_number, txn_in, each_txn};

use crate::spans::{HOMES, SEQUENCE, Span};
use std::alloc::Global;
use tcs_terms::{OutOfMemory, TxId};
use text_words::read_number;

/// The place of the first of these bytes.
fn place_of(text: &[u8], wanted: u8) -> Option<usize>
    ensures { result ≡ position (λ b. b == wanted) text.now }
{
    text.iter().position(|byte| *byte == wanted)
}

/// What stands before and after the first of these bytes.
#[tactic(auto, unfolding(crate::specs::Words::cut))]
pub(crate) fn cut(text: &[u8], byte: u8) -> Option<(&[u8], &[u8])>
    ensures { option_map (λ parts. (parts.0.now, parts.1.now)) result ≡ cut byte text.now }
{
    let place = place_of(text, byte)?;
    Some((&text[..place], &text[place + 1..]))
}

/// A number in this span.
#[tactic(auto, unfolding(crate::specs::Words::number_within))]
pub(crate) fn number_within(word: &[u8], span: Span) -> Option<u64>
    ensures value { result ≡ number_within span.low span.high word.now }
    ensures range { IfSome result (λ n. (span.low ≤ n) × (n ≤ span.high)) }
{
    let number = read_number(word)?;
    if span.low <= number && number <= span.high {
        Some(number)
    } else {
        None
    }
}

/// The number after this one.
#[tactic(auto, unfolding(crate::specs::Words::next_number))]
pub(crate) fn next_number(word: &[u8], count: u64) -> Option<u64>
    ensures { result ≡ next_number count word.now }
{
    let number = read_number(word)?;
    if count < number && number - count == 1 {
        Some(number)
    } else {
        None
    }
}

/// A transaction.
#[tactic(auto, unfolding(crate::specs::Words::txn_in))]
pub(crate) fn txn_in(text: &[u8]) -> Option<TxId>
    ensures { result ≡ txn_in text.now }
{
    let (home, seq) = cut(text, b'.')?;
    let home = number_within(home, HOMES)?;
    let seq = number_within(seq, SEQUENCE)?;
    Some(TxId {
        home: home as u8,
        seq: seq as u32,
    })
}

/// The transactions that all words of a text write.
fn txns_in(alloc: Global, text: &[u8]) -> Result<Option<Vec<TxId>>, OutOfMemory>
    ensures { IfOk result (λ txns. option_map (λ v. v.items) txns ≡ each_txn (words_of text.now)) }
{
    let mut txns = Vec::new(alloc);
    let mut left = text;
    'words: loop {
        match cut(left, b' ') {
            Some((word, more)) => {
                let Some(txn) = txn_in(word) else {
                    return Ok(None);
                };
                txns.push(txn)?;
                left = more;
            }
            None => {
                let Some(txn) = txn_in(left) else {
                    return Ok(None);
                };
                txns.push(txn)?;
                return Ok(Some(txns));
            }
        }
    }
}

/// The transactions of an order: a dash where there are none.
#[tactic(auto, unfolding(crate::specs::Readings::order_in))]
pub(crate) fn order_in(alloc: Global, text: &[u8]) -> Result<Option<Vec<TxId>>, OutOfMemory>
    ensures { IfOk result (λ order. option_map (λ v. v.items) order ≡ order_in text.now) }
{
    if text == b"-".as_slice() {
        return Ok(Some(Vec::new(alloc)));
    }
    txns_in(alloc, text)
}
