//! The reader of a transaction: the node that made it, a dot, its number there.
ghost use Rattle.std.specs.Prelude.{◌≡◌, ◌≤◌, ◌==◌, length, position};
ghost use Rattle.tcs_terms.specs.declared.limits.TheConstants.{MAX_NODES};
ghost use Rattle.text_words.specs.PayloadWords.{is_numeral, number_in};
ghost use Rattle.schedule_text.specs.Words.{Gives, Tells, txn_numbers, txn_parts, txn_in, txn_at};

use crate::faults::{LineFault, bad};
use tcs_terms::limits::MAX_SEQUENCE;
use tcs_terms::{NodeId, ShardId, TxId, has_node};
use text_words::{Reason, Words, is_numeral, read_number};

/// The numbers are in range.
fn txn_of(nodes: &[ShardId], home: Option<u64>, seq: Option<u64>) -> Result<TxId, LineFault>
    requires { length nodes.now ≤ MAX_NODES }
    ensures { Gives (λ t. t) result (txn_numbers nodes.now home seq) }
{
    let Some(home) = home else {
        return bad(Reason::Number);
    };
    let Some(seq) = seq else {
        return bad(Reason::Number);
    };
    if !(has_node(nodes, home) && 1 <= seq && seq <= u64::from(MAX_SEQUENCE)) {
        return bad(Reason::Range);
    }
    Ok(TxId {
        home: home as NodeId,
        seq: seq as u32,
    })
}

/// Two words have the form of numbers.
fn txn_parts(nodes: &[ShardId], home: &[u8], seq: &[u8]) -> Result<TxId, LineFault>
    requires { length nodes.now ≤ MAX_NODES }
    ensures { Gives (λ t. t) result (txn_parts nodes.now home.now seq.now) }
{
    if !(is_numeral(home) && is_numeral(seq)) {
        return bad(Reason::Word);
    }
    txn_of(nodes, read_number(home), read_number(seq))
}

fn dot_in(word: &[u8]) -> Option<usize>
    ensures { result ≡ position (λ b. b == 46) word.now }
{
    word.iter().position(|byte| *byte == b'.')
}

fn txn_in(nodes: &[ShardId], word: &[u8]) -> Result<TxId, LineFault>
    requires { length nodes.now ≤ MAX_NODES }
    ensures { Gives (λ t. t) result (txn_in nodes.now word.now (position (λ b. b == 46) word.now)) }
{
    match dot_in(word) {
        Some(dot) => txn_parts(nodes, &word[..dot], &word[dot + 1..]),
        None => bad(Reason::Word),
    }
}

/// A transaction of a run of a setup with these nodes.
#[tactic(auto, unfolding(crate::specs::Words::txn_at))]
pub(crate) fn txn(nodes: &[ShardId], words: &mut Words) -> Result<TxId, LineFault>
    requires { length nodes.now ≤ MAX_NODES }
    ensures { Tells (λ t. t) result words.new (txn_at nodes.now words.old) }
{
    let Some(word) = words.take() else {
        return bad(Reason::Word);
    };
    txn_in(nodes, word)
}
