//! Reads the lines of events, after their first word.
ghost use Rattle.std.specs.Prelude.{◌≡◌};
ghost use Rattle.schedule_text.specs.Words.{Gives};
ghost use Rattle.schedule_text.specs.Events.{alone_at, certify_at, take_at, move_at, read_at, ask_at, input_at, call_at, delivery_at, stop_at, event_at};

use crate::faults::LineFault;
use crate::header::Header;
use crate::node_lists::nodes;
use crate::transactions::txn;
use crate::verbs::{CallVerb, Verb};
use crate::word_readers::{between, caller, end, name, payload};
use std::alloc::Global;
use tcs_terms::limits::MAX_WANTED;
use tcs_terms::{Event, Input, NodeId, ShardId, Wanted};
use text_words::Words;

#[tactic(auto, unfolding(crate::specs::Events::alone_at))]
fn nudge(words: &mut Words) -> Result<Input, LineFault>
    ensures { Gives (λ i. i) result (alone_at Input.Nudge words.old) }
{
    end(words)?;
    Ok(Input::Nudge)
}

#[tactic(auto, unfolding(crate::specs::Events::alone_at))]
fn lower(words: &mut Words) -> Result<Input, LineFault>
    ensures { Gives (λ i. i) result (alone_at Input.Lower words.old) }
{
    end(words)?;
    Ok(Input::Lower)
}

#[tactic(auto, unfolding(crate::specs::Events::certify_at))]
fn certify(alloc: Global, head: &Header, words: &Words) -> Result<Input, LineFault>
    ensures { Gives (λ i. i) result (certify_at head.now.setup words.now) }
{
    let payload = payload(alloc, head.version(), words)?;
    Ok(Input::Certify(payload))
}

#[tactic(auto, unfolding(crate::specs::Events::take_at))]
fn take(head: &Header, words: &mut Words) -> Result<Input, LineFault>
    ensures { Gives (λ i. i) result (take_at head.now.setup words.old) }
{
    let txn = txn(head.nodes(), words)?;
    end(words)?;
    Ok(Input::Take(txn))
}

#[tactic(auto, unfolding(crate::specs::Events::move_at))]
fn move_to(alloc: Global, head: &Header, words: &mut Words) -> Result<Input, LineFault>
    ensures { Gives (λ i. i) result (move_at head.now.setup words.old) }
{
    let shard = between(1, u64::from(head.shards()), words)? as ShardId;
    let want = nodes(alloc, head.nodes(), shard, MAX_WANTED, words)?;
    Ok(Input::Move {
        shard,
        want: Wanted::build(want),
    })
}

#[tactic(auto, unfolding(crate::specs::Events::read_at))]
fn read(alloc: Global, words: &mut Words) -> Result<Input, LineFault>
    ensures { Gives (λ i. i) result (read_at words.old) }
{
    let name = name(alloc, words)?;
    end(words)?;
    Ok(Input::ReadName(name))
}

#[tactic(auto, unfolding(crate::specs::Events::ask_at))]
fn ask(head: &Header, words: &mut Words) -> Result<Input, LineFault>
    ensures { Gives (λ i. i) result (ask_at head.now.setup words.old) }
{
    let shard = between(1, u64::from(head.shards()), words)? as ShardId;
    end(words)?;
    Ok(Input::Ask(shard))
}

fn input(
    alloc: Global,
    head: &Header,
    verb: CallVerb,
    words: &mut Words,
) -> Result<Input, LineFault>
    ensures { Gives (λ i. i) result (input_at head.now.setup verb words.old) }
{
    match verb {
        CallVerb::Certify => certify(alloc, head, words),
        CallVerb::Take => take(head, words),
        CallVerb::Nudge => nudge(words),
        CallVerb::Move => move_to(alloc, head, words),
        CallVerb::Lower => lower(words),
        CallVerb::Read => read(alloc, words),
        CallVerb::Ask => ask(head, words),
    }
}

#[tactic(auto, unfolding(crate::specs::Events::call_at))]
fn call(
    alloc: Global,
    only: Option<NodeId>,
    head: &Header,
    verb: CallVerb,
    words: &mut Words,
) -> Result<Event, LineFault>
    ensures { Gives (λ e. e) result (call_at only head.now.setup verb words.old) }
{
    let node = caller(only, head.nodes(), words)?;
    let input = input(alloc, head, verb, words)?;
    Ok(Event::Call { node, input })
}

#[tactic(auto, unfolding(crate::specs::Events::delivery_at))]
fn delivery(words: &mut Words) -> Result<Event, LineFault>
    ensures { Gives (λ e. e) result (delivery_at words.old) }
{
    let number = between(1, u64::from(u32::MAX), words)?;
    end(words)?;
    Ok(Event::DeliverNumber(number as u32))
}

#[tactic(auto, unfolding(crate::specs::Events::stop_at))]
fn stop(only: Option<NodeId>, head: &Header, words: &mut Words) -> Result<Event, LineFault>
    ensures { Gives (λ e. e) result (stop_at only head.now.setup words.old) }
{
    let node = caller(only, head.nodes(), words)?;
    end(words)?;
    Ok(Event::Stop(node))
}

/// The event of a line whose first word was this. Only this node may be named, if one is given.
pub(crate) fn event(
    alloc: Global,
    only: Option<NodeId>,
    head: &Header,
    verb: Verb,
    words: &mut Words,
) -> Result<Event, LineFault>
    ensures { Gives (λ e. e) result (event_at only head.now.setup verb words.old) }
{
    match verb {
        Verb::Call(verb) => call(alloc, only, head, verb, words),
        Verb::Deliver => delivery(words),
        Verb::Stop => stop(only, head, words),
    }
}
