//! The event of what happens next.
ghost use Rattle.std.specs.Prelude.{◌≡◌, false, IfOk};
ghost use Rattle.protocol_laws.specs.Promises.{world_of};
ghost use Rattle.generated_runs.specs.Sights.{event_of, taken_over, nudged, moved_by};

use crate::sights::{CLIENT, TAKER, orphan_in, reader_in};
use generator::Doing;
use std::alloc::Global;
use tcs_laws::VoteGuard;
use tcs_terms::{Event, Input, NodeId, OutOfMemory, ShardId, TxId, Wanted};
use world::World;

/// Node 9 is nudged.
fn nudged() -> Event
    ensures { result ≡ nudged }
{
    Event::Call {
        node: CLIENT,
        input: Input::Nudge,
    }
}

/// Node 5 takes over a transaction; without one node 9 is nudged.
fn taken_over(txn: Option<TxId>) -> Event
    ensures { result ≡ taken_over txn }
{
    match txn {
        None => nudged(),
        Some(txn) => Event::Call {
            node: TAKER,
            input: Input::Take(txn),
        },
    }
}

/// A node moves a shard, with itself wanted.
fn moved(alloc: Global, node: NodeId, shard: ShardId) -> Result<Event, OutOfMemory>
    ensures { IfOk result (λ event. event ≡ moved_by node shard) }
{
    let mut want = Vec::new(alloc);
    want.push(node)?;
    let want = Wanted::build(want);
    Ok(Event::Call {
        node,
        input: Input::Move { shard, want },
    })
}

/// The event of what happens next in a world.
pub(crate) fn event_of<G: VoteGuard>(
    alloc: Global,
    world: &World<G>,
    doing: Doing,
) -> Result<Event, OutOfMemory>
    requires { world.now.spent ≡ false }
    ensures { IfOk result (λ event. event ≡ event_of (world_of world.now.progress) doing) }
{
    let event = match doing {
        Doing::Stop => Event::Stop(1),
        Doing::FirstMove => moved(alloc, 3, 1)?,
        Doing::TakeOver => taken_over(orphan_in(world)),
        Doing::SecondMove => moved(alloc, 6, 2)?,
        Doing::Nudge => nudged(),
        Doing::Deliver(number) => Event::DeliverNumber(number),
        Doing::Read(name) => Event::Call {
            node: reader_in(world, &name),
            input: Input::ReadName(name),
        },
        Doing::Certify(payload) => Event::Call {
            node: CLIENT,
            input: Input::Certify(payload),
        },
    };
    Ok(event)
}
