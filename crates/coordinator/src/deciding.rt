//! When a case is complete, what it decides, and who is told.
ghost use Rattle.std.specs.Prelude.{◌≡◌, ◌==◌, ◌||◌, ◌++◌, map, flat_map, find, is_some, option_copied, OnOk, Some};
ghost use Rattle.std.specs.List.{list_all};
ghost use Rattle.tcs_terms.specs.Places.{is_among};
ghost use Rattle.tcs_terms.specs.declared.messages.Message.TheVariants.{DecisionFor};
ghost use Rattle.protocol.specs.Outcomes.{to};
ghost use Rattle.protocol.specs.Cases.{all_acknowledge, is_complete_by, is_complete, cause_by, cause_of, decision_at, decision_of, tell_members, tell_decision};
ghost use Rattle.protocol.specs.Views.{view_of};

use crate::cases::Case;
use crate::parts::Part;
use crate::views::Views;
use tcs_terms::{
    Cause, Config, Decision, Message, NodeId, OutOfMemory, Outgoing, ShardId, Slot, TxId, Vote,
};

/// Whether each of these nodes leads or has acknowledged.
fn each_leads_or_acknowledges(nodes: &[NodeId], leader: NodeId, acks: &[NodeId]) -> bool
    ensures { result ≡ list_all (λ node. (node == leader) || is_among acks.now node) nodes.now }
{
    nodes
        .iter()
        .all(|node| *node == leader || acks.contains(node))
}

/// Whether each follower has acknowledged.
fn all_acknowledge(view: &Config, acks: &[NodeId]) -> bool
    ensures { result ≡ all_acknowledge (Some view.now) acks.now }
{
    each_leads_or_acknowledges(view.members(), view.leader(), acks)
}

/// Whether a shard is voted, and acknowledged by every follower of its view.
fn is_part_complete(views: &Views, part: &Part) -> bool
    ensures { result ≡ is_complete_by part.now.entry part.now.acks (view_of views.now part.now.shard) }
{
    match (&part.entry, views.of(part.shard)) {
        (Some(_), Some(view)) => all_acknowledge(view, &part.acks),
        _ => false,
    }
}

/// Whether every shard of a case is voted, and acknowledged by every follower of its view.
#[tactic(auto, unfolding(protocol::specs::Cases::is_complete))]
pub(crate) fn is_complete(views: &Views, case: &Case) -> bool
    ensures { result ≡ is_complete views.now case.now }
{
    case.parts.iter().all(|part| is_part_complete(views, part))
}

/// What a vote is the cause of, if it is not to commit.
fn cause_by(vote: Vote) -> Option<Cause>
    ensures { result ≡ cause_by vote }
{
    match vote {
        Vote::Commit => None,
        Vote::Clash(txn) => Some(Cause::Clash(txn)),
        Vote::Lost => Some(Cause::Lost),
    }
}

/// The cause in the entry of a shard.
fn cause_of(part: &Part) -> Option<Cause>
    ensures { result ≡ cause_of part.now.entry }
{
    match &part.entry {
        None => None,
        Some(entry) => cause_by(entry.vote),
    }
}

/// An abort that names the shard and the cause, if there is one.
fn decision_at(shard: ShardId, cause: Option<Cause>) -> Decision
    ensures { result ≡ decision_at shard cause }
{
    match cause {
        None => Decision::Commit,
        Some(cause) => Decision::Abort { shard, cause },
    }
}

/// The first part whose vote is not to commit.
fn first_refusal(parts: &[Part]) -> Option<&Part>
    ensures { option_copied result ≡ find (λ p. is_some (cause_of p.entry)) parts.now }
{
    parts.iter().find(|part| cause_of(part).is_some())
}

/// Commit where all votes are to commit, else an abort that names the lowest shard whose vote is not, and that vote.
#[tactic(auto, unfolding(protocol::specs::Cases::decision_of))]
pub(crate) fn decision_of(parts: &[Part]) -> Decision
    ensures { result ≡ decision_of parts.now }
{
    match first_refusal(parts) {
        None => Decision::Commit,
        Some(part) => decision_at(part.shard, cause_of(part)),
    }
}

/// DECISION of a slot to every member.
fn push_decisions(
    view: &Config,
    slot: Slot,
    txn: TxId,
    commit: bool,
    out: &mut Vec<Outgoing>,
) -> Result<(), OutOfMemory>
    ensures { OnOk result (out.new.items ≡ out.old.items
        ++ map (λ node. to node (DecisionFor view.now.epoch slot txn commit)) view.now.members) }
{
    let epoch = view.epoch();
    for node in view.members() {
        let message = Message::DecisionFor {
            epoch,
            slot,
            txn,
            commit,
        };
        out.push(Outgoing { to: *node, message })?;
    }
    Ok(())
}

/// DECISION of a voted shard to every member of its view.
fn tell_members(
    views: &Views,
    txn: TxId,
    commit: bool,
    part: &Part,
    out: &mut Vec<Outgoing>,
) -> Result<(), OutOfMemory>
    ensures { OnOk result (out.new.items ≡ out.old.items
        ++ tell_members txn commit part.now.entry (view_of views.now part.now.shard)) }
{
    match (&part.entry, views.of(part.shard)) {
        (Some(entry), Some(view)) => push_decisions(view, entry.slot, txn, commit, out),
        _ => Ok(()),
    }
}

/// DECISION to every member of each shard's view.
fn tell_shards(
    views: &Views,
    txn: TxId,
    commit: bool,
    parts: &[Part],
    out: &mut Vec<Outgoing>,
) -> Result<(), OutOfMemory>
    ensures { OnOk result (out.new.items ≡ out.old.items
        ++ flat_map (λ p. tell_members txn commit p.entry (view_of views.now p.shard)) parts.now) }
{
    for part in parts {
        tell_members(views, txn, commit, part, out)?;
    }
    Ok(())
}

/// The decision of a case to every member of each shard's view, and its outcome to the transaction's home.
#[tactic(auto, unfolding(protocol::specs::Cases::tell_decision))]
pub(crate) fn tell_decision(
    views: &Views,
    txn: TxId,
    parts: &[Part],
    decision: Decision,
    out: &mut Vec<Outgoing>,
) -> Result<(), OutOfMemory>
    ensures { OnOk result (out.new.items ≡ out.old.items ++ tell_decision views.now txn parts.now decision) }
{
    tell_shards(views, txn, decision == Decision::Commit, parts, out)?;
    let message = Message::OutcomeOf { txn, decision };
    Ok(out.push(Outgoing {
        to: txn.home,
        message,
    })?)
}
