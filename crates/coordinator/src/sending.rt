//! What a coordinator asks: PREPARE of a leader, ACCEPT of followers.
ghost use Rattle.std.specs.Prelude.{◌≡◌, ◌++◌, length, option_and_then, IfOk, OnOk, Some};
ghost use Rattle.tcs_terms.specs.Shards.{restricted};
ghost use Rattle.protocol.specs.Cases.{prepare, accept, send_part, send_case};
ghost use Rattle.protocol.specs.Views.{view_of};

use crate::cases::Case;
use crate::parts::Part;
use crate::views::Views;
use std::alloc::Global;
use tcs_terms::{Config, Entry, Message, NodeId, OutOfMemory, Outgoing, Payload, ShardId, TxId};

/// The part of a payload in a shard, if there is a payload and it has one.
fn payload_in(
    alloc: Global,
    views: &Views,
    payload: &Option<Payload>,
    shard: ShardId,
) -> Result<Option<Payload>, OutOfMemory>
    ensures { IfOk result (λ part. part ≡ option_and_then (restricted (length views.now) shard) payload.now) }
{
    match payload {
        None => Ok(None),
        Some(payload) => payload.restrict(alloc, shard, views.count()),
    }
}

/// PREPARE of a case to the leader of a shard's configuration, with the part of the payload in that shard.
#[tactic(auto, unfolding(protocol::specs::Cases::prepare))]
pub(crate) fn push_prepare(
    alloc: Global,
    views: &Views,
    txn: TxId,
    case: &Case,
    view: &Config,
    out: &mut Vec<Outgoing>,
) -> Result<(), OutOfMemory>
    ensures { OnOk result (out.new.items ≡ out.old.items ++ prepare (length views.now) txn case.now (Some view.now)) }
{
    let message = Message::Prepare {
        epoch: view.epoch(),
        txn,
        shards: case.shards.copy(alloc)?,
        payload: payload_in(alloc, views, &case.payload, view.shard())?,
    };
    let to = view.leader();
    Ok(out.push(Outgoing { to, message })?)
}

/// ACCEPT of an entry to each follower that has not acknowledged it.
#[tactic(auto, unfolding(protocol::specs::Cases::accept))]
fn push_accepts(
    alloc: Global,
    entry: &Entry,
    acks: &[NodeId],
    view: &Config,
    out: &mut Vec<Outgoing>,
) -> Result<(), OutOfMemory>
    ensures { OnOk result (out.new.items ≡ out.old.items ++ accept entry.now acks.now (Some view.now)) }
{
    let epoch = view.epoch();
    let leader = view.leader();
    for node in view.members() {
        if *node != leader && !acks.contains(node) {
            let entry = entry.copy(alloc)?;
            let message = Message::Accept { epoch, entry };
            out.push(Outgoing { to: *node, message })?;
        }
    }
    Ok(())
}

/// What a shard of a case still waits for is sent again.
#[tactic(auto, unfolding(protocol::specs::Cases::prepare, protocol::specs::Cases::accept, protocol::specs::Cases::send_part))]
pub(crate) fn send_part(
    alloc: Global,
    views: &Views,
    txn: TxId,
    case: &Case,
    part: &Part,
    out: &mut Vec<Outgoing>,
) -> Result<(), OutOfMemory>
    ensures { OnOk result (out.new.items ≡ out.old.items
        ++ send_part (length views.now) txn case.now part.now.entry part.now.acks (view_of views.now part.now.shard)) }
{
    match (&part.entry, views.of(part.shard)) {
        (_, None) => Ok(()),
        (None, Some(view)) => push_prepare(alloc, views, txn, case, view, out),
        (Some(entry), Some(view)) => push_accepts(alloc, entry, &part.acks, view, out),
    }
}

/// The same for each shard of the case.
#[tactic(auto, unfolding(protocol::specs::Cases::send_case))]
pub(crate) fn send_case(
    alloc: Global,
    views: &Views,
    txn: TxId,
    case: &Case,
    out: &mut Vec<Outgoing>,
) -> Result<(), OutOfMemory>
    ensures { OnOk result (out.new.items ≡ out.old.items ++ send_case views.now txn case.now) }
{
    for part in &case.parts {
        send_part(alloc, views, txn, case, part, out)?;
    }
    Ok(())
}
