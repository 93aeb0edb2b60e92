//! The reader of nodes of a shard, as members or wanted nodes.
ghost use Rattle.std.specs.Prelude.{◌≡◌, ◌≤◌, ◌==◌, false, length};
ghost use Rattle.tcs_terms.specs.declared.limits.TheConstants.{MAX_NODES};
ghost use Rattle.schedule_text.specs.Words.{Gives, Tells, no_room, next_node_at, nodes_at};

use crate::faults::{LineFault, bad};
use crate::word_readers::next_node;
use std::alloc::Global;
use tcs_terms::{NodeId, ShardId};
use text_words::{Reason, Words};

/// There is no room for the next word, of which there is one: it is one too many, unless it is empty.
fn too_many(words: &mut Words) -> Result<Vec<NodeId>, LineFault>
    requires { length words.old == 0 ≡ false }
    ensures { Gives (λ ns. ns.items) result (no_room words.old) }
{
    match words.take() {
        Some(word) => {
            if word.is_empty() {
                bad(Reason::Word)
            } else {
                bad(Reason::Many)
            }
        }
        None => bad(Reason::Many),
    }
}

/// Ascending nodes of the shard, at most so many, as all the words that are left.
pub(crate) fn nodes(
    alloc: Global,
    all: &[ShardId],
    shard: ShardId,
    most: usize,
    words: &mut Words,
) -> Result<Vec<NodeId>, LineFault>
    requires { length all.now ≤ MAX_NODES }
    ensures { Gives (λ ns. ns.items) result (nodes_at all.now shard most 0 words.old) }
{
    let mut list = Vec::new(alloc);
    let mut last = 0;
    'nodes: while !words.is_empty() {
        if list.len() >= most {
            return too_many(words);
        }
        let node = next_node(all, shard, last, words)?;
        list.push(node)?;
        last = node;
    }
    Ok(list)
}
