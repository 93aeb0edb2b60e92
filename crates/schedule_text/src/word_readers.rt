//! Readers of one word: each takes it from the words that are left, and gives its value.
ghost use Rattle.std.specs.Prelude.{◌≡◌, ◌+◌, ◌≤◌, ◌==◌, ◌∷◌, length, IsTrue, ◌||◌, IfOk};
ghost use Rattle.tcs_terms.specs.declared.limits.TheConstants.{MAX_NODES};
ghost use Rattle.text_words.specs.PayloadWords.{payload_at};
ghost use Rattle.schedule_text.specs.Words.{Gives, Tells, Fails, fixed_at, end_at, number_at, between_at, is_for, caller_at, node_of_at, name_at, payload_words_at, next_node_at};

use crate::faults::{LineFault, bad};
use std::alloc::Global;
use tcs_terms::{Name, NodeId, Payload, ShardId, has_node, is_node_of};
use text_words::{
    Reason, WordFault, Words, all_read, fixed_word, name_word, number_word, read_payload,
};

/// A word that is fixed.
pub(crate) fn fixed(word: &[u8], words: &mut Words) -> Result<(), LineFault>
    ensures { Tells (λ x. x) result words.new (fixed_at word.now words.old) }
{
    Ok(fixed_word(word, words)?)
}

/// No word may be left over.
pub(crate) fn end(words: &mut Words) -> Result<(), LineFault>
    ensures { Tells (λ x. x) result words.new (end_at words.old) }
{
    Ok(all_read(words)?)
}

/// A number.
pub(crate) fn number(words: &mut Words) -> Result<u64, LineFault>
    ensures { Tells (λ n. n) result words.new (number_at words.old) }
{
    Ok(number_word(words)?)
}

/// A number from the first to the last one.
#[tactic(auto, unfolding(crate::specs::Words::between_at))]
pub(crate) fn between(first: u64, last: u64, words: &mut Words) -> Result<u64, LineFault>
    ensures told { Tells (λ n. n) result words.new (between_at first last words.old) }
    ensures least { IfOk result (λ n. first ≤ n) }
    ensures most { IfOk result (λ n. n ≤ last) }
{
    let number = number(words)?;
    if !(first <= number && number <= last) {
        return bad(Reason::Range);
    }
    Ok(number)
}

fn is_for(only: Option<NodeId>, number: u64) -> bool
    ensures { result ≡ is_for only number }
{
    match only {
        None => true,
        Some(only) => number == u64::from(only),
    }
}

/// The node that a line is for: one of the setup, and only this one, if it is said.
#[tactic(auto, unfolding(crate::specs::Words::caller_at))]
pub(crate) fn caller(
    only: Option<NodeId>,
    nodes: &[ShardId],
    words: &mut Words,
) -> Result<NodeId, LineFault>
    requires { length nodes.now ≤ MAX_NODES }
    ensures { Tells (λ n. n) result words.new (caller_at only nodes.now words.old) }
{
    let number = number(words)?;
    if !has_node(nodes, number) || !is_for(only, number) {
        return bad(Reason::Range);
    }
    Ok(number as NodeId)
}

/// A node of the shard.
#[tactic(auto, unfolding(crate::specs::Words::node_of_at))]
pub(crate) fn node_of(
    nodes: &[ShardId],
    shard: ShardId,
    words: &mut Words,
) -> Result<NodeId, LineFault>
    requires { length nodes.now ≤ MAX_NODES }
    ensures { Tells (λ n. n) result words.new (node_of_at nodes.now shard words.old) }
{
    let number = number(words)?;
    if !is_node_of(nodes, shard, number) {
        return bad(Reason::Range);
    }
    Ok(number as NodeId)
}

/// A node of the shard, above the last one.
#[tactic(auto, unfolding(crate::specs::Words::next_node_at))]
pub(crate) fn next_node(
    nodes: &[ShardId],
    shard: ShardId,
    last: NodeId,
    words: &mut Words,
) -> Result<NodeId, LineFault>
    requires { length nodes.now ≤ MAX_NODES }
    ensures { Tells (λ n. n) result words.new (next_node_at nodes.now shard last words.old) }
{
    let node = node_of(nodes, shard, words)?;
    if node <= last {
        return bad(Reason::Order);
    }
    Ok(node)
}

/// A name.
pub(crate) fn name(alloc: Global, words: &mut Words) -> Result<Name, LineFault>
    ensures { Tells (λ n. n) result words.new (name_at words.old) }
{
    Ok(name_word(alloc, b"", words)?)
}

/// A payload, which is all that is left.
#[tactic(auto, unfolding(text_words::specs::PayloadWords::payload_at))]
pub(crate) fn payload(alloc: Global, version: u8, words: &Words) -> Result<Payload, LineFault>
    requires { IsTrue ((version == 1) || (version == 2)) }
    ensures { Gives (λ p. p) result (payload_words_at version words.now) }
{
    let Some(text) = words.rest() else {
        return bad(Reason::Word);
    };
    match read_payload(alloc, text, version) {
        Ok(payload) => Ok(payload),
        Err(WordFault::Bad { reason, .. }) => bad(reason),
        Err(WordFault::OutOfMemory) => Err(LineFault::OutOfMemory),
    }
}
