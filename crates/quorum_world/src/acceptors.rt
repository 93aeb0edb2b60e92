//! What an acceptor does.
ghost use Rattle.std.specs.Prelude.{◌≡◌, ◌++◌, IfOk, OnOk};
ghost use Rattle.quorum_protocol.specs.Rules.{answer};
ghost use Rattle.quorum_protocol.specs.World.{place_at, on_ask, on_put};

use crate::attempts::ballot_le;
use crate::entries::{accepted_at, promise_at, put_accepted, put_promise};
use crate::happenings::Happening;
use crate::world::{World, acted, idle};
use quorum_protocol::{Accepted, Message, Outcome, Place, Say};
use tcs_terms::{Config, OutOfMemory};

/// The place of a message's receiver.
fn place_at(m: &Message) -> Place
    ensures { result ≡ place_at m.now }
{
    Place {
        acceptor: m.to,
        shard: m.shard,
        epoch: m.epoch,
    }
}

/// The answer to a message.
fn answer(m: &Message, say: Say) -> Message
    ensures { result ≡ answer m.now say }
{
    Message {
        from: m.to,
        to: m.from,
        ballot: m.ballot,
        shard: m.shard,
        epoch: m.epoch,
        say,
    }
}

impl World {
    /// ASK: a ballot that is at least the promised one is promised, and the accepted pair told.
    pub(crate) fn on_ask(&mut self, m: &Message) -> Result<Happening, OutOfMemory>
        ensures result { IfOk result (λ h. h.result ≡ (on_ask self.old m.now).result) }
        ensures stored { IfOk result (λ h. h.stored ≡ (on_ask self.old m.now).stored) }
        ensures appended { OnOk result (self.new.messages ≡ self.old.messages ++ (on_ask self.old m.now).sent) }
        ensures after { OnOk result (self.new ≡ (on_ask self.old m.now).after) }
    {
        let place = place_at(m);
        let promised = promise_at(&self.promises, place);
        if !ballot_le(promised, m.ballot) {
            return Ok(idle(Outcome::Stale(promised.round)));
        }
        let told = accepted_at(self.alloc, &self.accepted, place)?;
        put_promise(&mut self.promises, place, m.ballot)?;
        self.messages.push(answer(m, Say::Told(told)))?;
        Ok(acted())
    }

    /// PUT: in a ballot that is at least the promised one the configuration is accepted, and the ballot promised.
    pub(crate) fn on_put(&mut self, m: &Message, config: &Config) -> Result<Happening, OutOfMemory>
        ensures result { IfOk result (λ h. h.result ≡ (on_put self.old m.now config.now).result) }
        ensures stored { IfOk result (λ h. h.stored ≡ (on_put self.old m.now config.now).stored) }
        ensures appended { OnOk result (self.new.messages ≡ self.old.messages ++ (on_put self.old m.now config.now).sent) }
        ensures after { OnOk result (self.new ≡ (on_put self.old m.now config.now).after) }
    {
        let place = place_at(m);
        let promised = promise_at(&self.promises, place);
        if !ballot_le(promised, m.ballot) {
            return Ok(idle(Outcome::Stale(promised.round)));
        }
        put_promise(&mut self.promises, place, m.ballot)?;
        let accepted = Accepted {
            ballot: m.ballot,
            config: config.copy(self.alloc)?,
        };
        put_accepted(&mut self.accepted, place, accepted)?;
        self.messages.push(answer(m, Say::Kept))?;
        Ok(acted())
    }
}
