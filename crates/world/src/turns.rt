//! One event of a run: what it makes of the cast, and what of it is kept.
ghost use Rattle.std.specs.Prelude.{◌≡◌, ◌≤◌, length, All, IfOk, IfErr};
ghost use Rattle.tcs_terms.specs.Messages.{InRange};
ghost use Rattle.protocol.specs.Limit.{frame_limit};
ghost use Rattle.protocol.specs.World.{message_of};
ghost use Rattle.world.specs.Casts.{does, MayReach};
ghost use Rattle.world.specs.Posting.{IsPosted};
ghost use Rattle.world.specs.Turns.{Turned, IsFilled};

use crate::arena::Arena;
use crate::casts::Cast;
use crate::happenings::{Happening, Posted, Stop};
use crate::orders::keep_commits;
use indexmap::IndexSet;
use std::alloc::Global;
use std::marker::Model;
use tcs_laws::VoteGuard;
use tcs_terms::{Event, Note, TxId};

/// What a run keeps of its events: the messages, the history, and the order of commits.
#[derive(Drop)]
pub(crate) struct Ledger {
    pub(crate) arena: Arena,
    pub(crate) history: Vec<Note>,
    pub(crate) order: IndexSet<TxId>,
}

impl Model for Ledger {
    ghost use Rattle.world.specs.Turns.{LedgerState};

    ghost Value = { LedgerState };

    ghost view = { λ l. record {
      messages = l.arena;
      history = l.history.items;
      order = l.order.keys;
    } };
}

impl Ledger {
    /// How many messages were sent.
    pub(crate) fn messages(&self) -> u32
        ensures count { result ≡ length self.now.messages }
        ensures few { result ≤ frame_limit }
    {
        self.arena.len()
    }

    /// The message of a number, from 1.
    pub(crate) fn posted(&self, number: u32) -> Option<Posted<'_>>
        ensures { IsPosted result (message_of self.now.messages number) }
    {
        self.arena.posted(number)
    }

    /// The notes that were made.
    pub(crate) fn history(&self) -> &[Note]
        ensures { result.now ≡ self.now.history }
    {
        self.history.as_slice()
    }

    /// The committed transactions, in the order of their first decisions.
    pub(crate) fn order(&self) -> &[TxId]
        ensures { result.now ≡ self.now.order }
    {
        self.order.as_slice()
    }
}

/// Takes an event. Where its messages would pass the limit, none of them is kept, and nothing is noted.
pub(crate) fn take_turn<G: VoteGuard>(
    alloc: Global,
    cast: &mut Cast<G>,
    ledger: &mut Ledger,
    event: Event,
) -> Result<Happening, Stop>
    requires may { MayReach event }
    requires range { All (λ o. InRange o.message) (does G.Rule.tests cast.old ledger.old.messages event).sends }
    ensures turned { IfOk result (λ h. Turned h (does G.Rule.tests cast.old ledger.old.messages event) cast.new ledger.old ledger.new) }
    ensures full { IfErr result (λ stop. IsFilled stop (does G.Rule.tests cast.old ledger.old.messages event) cast.new ledger.old ledger.new) }
{
    let mut doing = match cast.take_event(alloc, &ledger.arena, event) {
        Ok(doing) => doing,
        Err(_) => return Err(Stop::OutOfMemory),
    };
    if let Err(stop) = ledger.arena.post(doing.from, &doing.sends) {
        return Err(stop);
    }
    let happening = Happening {
        result: doing.result,
        notes: doing.notes.len(),
        sent: doing.sends.len(),
    };
    keep_commits(&mut ledger.order, &doing.notes)?;
    ledger.history.append(&mut doing.notes)?;
    Ok(happening)
}
