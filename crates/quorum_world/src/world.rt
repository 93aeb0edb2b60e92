//! The world of a run: acceptors, proposers, and the messages between them.
ghost use Rattle.std.specs.Prelude.{◌≡◌, ◌++◌, None, IfOk, OnOk};
ghost use Rattle.quorum_protocol.specs.World.{first_world, step, reaches, delivers, message_of};

use crate::attempts::Attempt;
use crate::entries::copy_of;
use crate::happenings::Happening;
use indexmap::IndexMap;
use quorum_protocol::{Accepted, Ballot, Event, Knows, Message, Outcome, Place, Say};
use std::alloc::Global;
use std::marker::Model;
use tcs_terms::{Epoch, NodeId, OutOfMemory, is_among};

/// The world of a run. Seen as the rules' world.
#[derive(Debug, Drop)]
pub struct World {
    pub(crate) alloc: Global,
    pub(crate) acceptors: u8,
    pub(crate) promises: IndexMap<Place, Ballot>,
    pub(crate) accepted: IndexMap<Place, Accepted>,
    pub(crate) attempts: IndexMap<NodeId, Attempt>,
    pub(crate) known: IndexMap<Knows, Epoch>,
    pub(crate) messages: Vec<Message>,
    pub(crate) stopped: Vec<NodeId>,
}

impl Model for World {
    ghost use Rattle.quorum_protocol.specs.World as rules;

    ghost Value = { rules.World };

    ghost view = { λ w. record {
      acceptors = w.acceptors;
      promises = w.promises.entries;
      accepted = w.accepted.entries;
      attempts = w.attempts.entries;
      known = w.known.entries;
      messages = w.messages.items;
      stopped = w.stopped.items;
    } };
}

/// Nothing happened.
pub(crate) fn idle(outcome: Outcome) -> Happening
    ensures outcome { result.result ≡ outcome }
    ensures stored { result.stored ≡ None }
{
    Happening {
        result: outcome,
        stored: None,
    }
}

/// It happened, and nothing was learned.
pub(crate) fn acted() -> Happening
    ensures outcome { result.result ≡ Outcome.Acted }
    ensures stored { result.stored ≡ None }
{
    Happening {
        result: Outcome::Acted,
        stored: None,
    }
}

fn copy_say(alloc: Global, say: &Say) -> Result<Say, OutOfMemory>
    ensures { IfOk result (λ copy. copy ≡ say.now) }
{
    match say {
        Say::Ask => Ok(Say::Ask),
        Say::Told(None) => Ok(Say::Told(None)),
        Say::Told(Some(pair)) => Ok(Say::Told(Some(copy_of(alloc, pair)?))),
        Say::Put(config) => Ok(Say::Put(config.copy(alloc)?)),
        Say::Kept => Ok(Say::Kept),
    }
}

/// The message of a number, from 1.
fn message_at(
    alloc: Global,
    messages: &[Message],
    number: u32,
) -> Result<Option<Message>, OutOfMemory>
    ensures { IfOk result (λ m. m ≡ message_of messages.now number) }
{
    if number == 0 {
        return Ok(None);
    }
    match messages.get(number as usize - 1) {
        None => Ok(None),
        Some(m) => Ok(Some(Message {
            from: m.from,
            to: m.to,
            ballot: m.ballot,
            shard: m.shard,
            epoch: m.epoch,
            say: copy_say(alloc, &m.say)?,
        })),
    }
}

impl World {
    /// The world in which a run over so many acceptors begins.
    pub fn first(alloc: Global, acceptors: u8) -> World
        ensures { result ≡ first_world acceptors }
    {
        World {
            alloc,
            acceptors,
            promises: IndexMap::new(alloc),
            accepted: IndexMap::new(alloc),
            attempts: IndexMap::new(alloc),
            known: IndexMap::new(alloc),
            messages: Vec::new(alloc),
            stopped: Vec::new(alloc),
        }
    }

    /// All messages that were sent, in order: they are numbered from 1.
    pub fn messages(&self) -> &[Message]
        ensures { result.now ≡ self.now.messages }
    {
        self.messages.as_slice()
    }

    /// A message reaches its receiver.
    #[tactic(auto, unfolding(quorum_protocol::specs::World::reaches))]
    fn reach(&mut self, m: &Message) -> Result<Happening, OutOfMemory>
        ensures result { IfOk result (λ h. h.result ≡ (reaches self.old m.now m.now.say).result) }
        ensures stored { IfOk result (λ h. h.stored ≡ (reaches self.old m.now m.now.say).stored) }
        ensures appended { OnOk result (self.new.messages ≡ self.old.messages ++ (reaches self.old m.now m.now.say).sent) }
        ensures after { OnOk result (self.new ≡ (reaches self.old m.now m.now.say).after) }
    {
        match &m.say {
            Say::Ask => self.on_ask(m),
            Say::Told(accepted) => self.on_told(m, accepted),
            Say::Put(config) => self.on_put(m, config),
            Say::Kept => self.on_kept(m),
        }
    }

    /// A message is delivered, if it was sent and its receiver has not stopped.
    fn deliver(&mut self, sent: &Option<Message>) -> Result<Happening, OutOfMemory>
        ensures result { IfOk result (λ h. h.result ≡ (delivers self.old sent.now).result) }
        ensures stored { IfOk result (λ h. h.stored ≡ (delivers self.old sent.now).stored) }
        ensures appended { OnOk result (self.new.messages ≡ self.old.messages ++ (delivers self.old sent.now).sent) }
        ensures after { OnOk result (self.new ≡ (delivers self.old sent.now).after) }
    {
        match sent {
            None => Ok(idle(Outcome::Unsent)),
            Some(m) => {
                if is_among(&self.stopped, m.to) {
                    return Ok(idle(Outcome::Gone));
                }
                self.reach(m)
            }
        }
    }

    #[tactic(auto, unfolding(quorum_protocol::specs::World::step))]
    fn stop(&mut self, acceptor: NodeId) -> Result<Happening, OutOfMemory>
        ensures result { IfOk result (λ h. h.result ≡ (step self.old (Event.Stop acceptor)).result) }
        ensures stored { IfOk result (λ h. h.stored ≡ (step self.old (Event.Stop acceptor)).stored) }
        ensures appended { OnOk result (self.new.messages ≡ self.old.messages ++ (step self.old (Event.Stop acceptor)).sent) }
        ensures after { OnOk result (self.new ≡ (step self.old (Event.Stop acceptor)).after) }
    {
        if is_among(&self.stopped, acceptor) {
            return Ok(idle(Outcome::Gone));
        }
        self.stopped.push(acceptor)?;
        Ok(acted())
    }

    /// Steps one event.
    #[tactic(auto, unfolding(quorum_protocol::specs::World::step))]
    pub fn step(&mut self, event: Event) -> Result<Happening, OutOfMemory>
        ensures result { IfOk result (λ h. h.result ≡ (step self.old event).result) }
        ensures stored { IfOk result (λ h. h.stored ≡ (step self.old event).stored) }
        ensures appended { OnOk result (self.new.messages ≡ self.old.messages ++ (step self.old event).sent) }
        ensures after { OnOk result (self.new ≡ (step self.old event).after) }
    {
        match event {
            Event::Cas { round, config } => self.propose(round, config),
            Event::Deliver(number) => {
                let sent = message_at(self.alloc, &self.messages, number)?;
                self.deliver(&sent)
            }
            Event::Stop(acceptor) => self.stop(acceptor),
        }
    }
}
