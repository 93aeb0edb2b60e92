//! What a proposer does.
ghost use Rattle.std.specs.Prelude.{◌≡◌, ◌++◌, nat_eq, IfOk, OnOk};
ghost use Rattle.quorum_protocol.specs.Ballots.{get, put};
ghost use Rattle.quorum_protocol.specs.Rules.{to_all, puts, learns};
ghost use Rattle.quorum_protocol.specs.World.{attempt_of, round_in, knows, propose, on_told, on_kept, note_of, learning};
ghost use Rattle.quorum_world.specs.Stages.{stage_of};

use crate::attempts::{Attempt, Stage};
use crate::entries::{known_at, put_known};
use crate::happenings::Happening;
use crate::world::{World, acted, idle};
use indexmap::IndexMap;
use quorum_protocol::{Accepted, Knows, Message, Outcome, Say, Stored};
use std::alloc::Global;
use tcs_terms::{Config, NodeId, OutOfMemory};

/// The last attempt of a proposer.
fn attempt_at(
    alloc: Global,
    attempts: &IndexMap<NodeId, Attempt>,
    proposer: NodeId,
) -> Result<Option<Attempt>, OutOfMemory>
    ensures { IfOk result (λ attempt. attempt ≡ get nat_eq attempts.now.entries proposer) }
{
    match attempts.get(&proposer) {
        Some(attempt) => Ok(Some(attempt.copy(alloc)?)),
        None => Ok(None),
    }
}

/// The round of an attempt, 0 where there is none.
fn round_in(attempt: &Option<Attempt>) -> u32
    ensures { result ≡ round_in attempt.now }
{
    match attempt {
        Some(attempt) => attempt.round(),
        None => 0,
    }
}

#[tactic(auto, using(crate::proofs::Keyed::insert_puts))]
fn put_attempt(
    attempts: &mut IndexMap<NodeId, Attempt>,
    proposer: NodeId,
    attempt: Attempt,
) -> Result<(), OutOfMemory>
    ensures { OnOk result (attempts.new.entries ≡ put nat_eq attempts.old.entries proposer attempt) }
{
    attempts.insert(proposer, attempt)?;
    Ok(())
}

fn knows(proposer: NodeId, config: &Config) -> Knows
    ensures { result ≡ knows proposer config.now }
{
    Knows {
        proposer,
        shard: config.shard(),
    }
}

/// Sends a question to each acceptor.
fn ask_all(acceptors: u8, attempt: &Attempt, messages: &mut Vec<Message>) -> Result<(), OutOfMemory>
    ensures { OnOk result (messages.new.items ≡ messages.old.items ++ to_all acceptors attempt.now Say.Ask) }
{
    for to in 0..acceptors {
        messages.push(Message {
            from: attempt.ballot.proposer,
            to: to + 1,
            ballot: attempt.ballot,
            shard: attempt.config.shard(),
            epoch: attempt.config.epoch(),
            say: Say::Ask,
        })?;
    }
    Ok(())
}

/// Sends a configuration to each acceptor.
fn put_all(
    alloc: Global,
    acceptors: u8,
    attempt: &Attempt,
    value: &Config,
    messages: &mut Vec<Message>,
) -> Result<(), OutOfMemory>
    ensures { OnOk result (messages.new.items ≡ messages.old.items ++ to_all acceptors attempt.now (Say.Put value.now)) }
{
    for to in 0..acceptors {
        messages.push(Message {
            from: attempt.ballot.proposer,
            to: to + 1,
            ballot: attempt.ballot,
            shard: attempt.config.shard(),
            epoch: attempt.config.epoch(),
            say: Say::Put(value.copy(alloc)?),
        })?;
    }
    Ok(())
}

/// Sends what an attempt puts at the stage that an answer led to.
fn put_at(
    alloc: Global,
    acceptors: u8,
    attempt: &Attempt,
    changed: &Attempt,
    messages: &mut Vec<Message>,
) -> Result<(), OutOfMemory>
    ensures { OnOk result (messages.new.items ≡ messages.old.items ++ puts acceptors attempt.now changed.now.stage) }
{
    match &changed.stage {
        Stage::Asking { .. } => Ok(()),
        Stage::Putting { value, .. } => put_all(alloc, acceptors, attempt, value, messages),
        Stage::Ended => Ok(()),
    }
}

/// What was put, where the attempt ends with it.
fn learns(alloc: Global, old: &Stage, new: &Stage) -> Result<Option<Config>, OutOfMemory>
    ensures { IfOk result (λ c. c ≡ learns (stage_of old.now) (stage_of new.now)) }
{
    match old {
        Stage::Asking { .. } => Ok(None),
        Stage::Putting { value, .. } => match new {
            Stage::Asking { .. } => Ok(None),
            Stage::Putting { .. } => Ok(None),
            Stage::Ended => Ok(Some(value.copy(alloc)?)),
        },
        Stage::Ended => Ok(None),
    }
}

/// What was put, where the attempt ends with an answer.
fn learned(
    alloc: Global,
    attempt: &Attempt,
    changed: &Attempt,
) -> Result<Option<Config>, OutOfMemory>
    ensures { IfOk result (λ c. c ≡ learns attempt.now.stage changed.now.stage) }
{
    learns(alloc, &attempt.stage, &changed.stage)
}

impl World {
    /// `cas`: in a round above each earlier one, for the epoch after the last that the proposer knows, an attempt
    /// begins.
    pub(crate) fn propose(&mut self, round: u32, config: Config) -> Result<Happening, OutOfMemory>
        ensures result { IfOk result (λ h. h.result ≡ (propose self.old round config).result) }
        ensures stored { IfOk result (λ h. h.stored ≡ (propose self.old round config).stored) }
        ensures appended { OnOk result (self.new.messages ≡ self.old.messages ++ (propose self.old round config).sent) }
        ensures after { OnOk result (self.new ≡ (propose self.old round config).after) }
    {
        let proposer = config.by();
        let known = known_at(&self.known, knows(proposer, &config));
        let last = round_in(&attempt_at(self.alloc, &self.attempts, proposer)?);
        if !(last < round && config.epoch() > known && config.epoch() - known == 1) {
            return Ok(idle(Outcome::Held(known)));
        }
        let attempt = Attempt::begin(self.alloc, round, config);
        ask_all(self.acceptors, &attempt, &mut self.messages)?;
        put_attempt(&mut self.attempts, proposer, attempt)?;
        Ok(acted())
    }

    /// TOLD, at the proposer's attempt.
    fn told_at(
        &mut self,
        m: &Message,
        accepted: &Option<Accepted>,
        attempt: &Option<Attempt>,
    ) -> Result<Happening, OutOfMemory>
        ensures result { IfOk result (λ h. h.result ≡ (on_told self.old m.now accepted.now attempt.now).result) }
        ensures stored { IfOk result (λ h. h.stored ≡ (on_told self.old m.now accepted.now attempt.now).stored) }
        ensures appended { OnOk result (self.new.messages ≡ self.old.messages ++ (on_told self.old m.now accepted.now attempt.now).sent) }
        ensures after { OnOk result (self.new ≡ (on_told self.old m.now accepted.now attempt.now).after) }
    {
        match attempt {
            None => Ok(idle(Outcome::Held(0))),
            Some(attempt) => {
                if !(attempt.is_of(m) && attempt.is_asking()) {
                    return Ok(idle(Outcome::Held(attempt.round())));
                }
                let changed = attempt.told(self.alloc, self.acceptors, m.from, accepted)?;
                put_at(
                    self.alloc,
                    self.acceptors,
                    attempt,
                    &changed,
                    &mut self.messages,
                )?;
                put_attempt(&mut self.attempts, m.to, changed)?;
                Ok(acted())
            }
        }
    }

    /// TOLD: an acceptor's answer is kept, and at a majority the configuration is put.
    pub(crate) fn on_told(
        &mut self,
        m: &Message,
        accepted: &Option<Accepted>,
    ) -> Result<Happening, OutOfMemory>
        ensures result { IfOk result (λ h. h.result ≡ (on_told self.old m.now accepted.now (attempt_of self.old m.now.to)).result) }
        ensures stored { IfOk result (λ h. h.stored ≡ (on_told self.old m.now accepted.now (attempt_of self.old m.now.to)).stored) }
        ensures appended { OnOk result (self.new.messages ≡ self.old.messages ++ (on_told self.old m.now accepted.now (attempt_of self.old m.now.to)).sent) }
        ensures after { OnOk result (self.new ≡ (on_told self.old m.now accepted.now (attempt_of self.old m.now.to)).after) }
    {
        let attempt = attempt_at(self.alloc, &self.attempts, m.to)?;
        self.told_at(m, accepted, &attempt)
    }

    /// KEPT, at the proposer's attempt.
    fn kept_at(&mut self, m: &Message, attempt: &Option<Attempt>) -> Result<Happening, OutOfMemory>
        ensures result { IfOk result (λ h. h.result ≡ (on_kept self.old m.now attempt.now).result) }
        ensures stored { IfOk result (λ h. h.stored ≡ (on_kept self.old m.now attempt.now).stored) }
        ensures appended { OnOk result (self.new.messages ≡ self.old.messages ++ (on_kept self.old m.now attempt.now).sent) }
        ensures after { OnOk result (self.new ≡ (on_kept self.old m.now attempt.now).after) }
    {
        match attempt {
            None => Ok(idle(Outcome::Held(0))),
            Some(attempt) => {
                if !(attempt.is_of(m) && attempt.is_putting()) {
                    return Ok(idle(Outcome::Held(attempt.round())));
                }
                let changed = attempt.kept(self.alloc, self.acceptors, m.from)?;
                let learned = learned(self.alloc, attempt, &changed)?;
                put_attempt(&mut self.attempts, m.to, changed)?;
                self.learn(m.to, learned)
            }
        }
    }

    /// KEPT: an acceptor is counted among those that keep what was put, and at a majority the attempt ends.
    pub(crate) fn on_kept(&mut self, m: &Message) -> Result<Happening, OutOfMemory>
        ensures result { IfOk result (λ h. h.result ≡ (on_kept self.old m.now (attempt_of self.old m.now.to)).result) }
        ensures stored { IfOk result (λ h. h.stored ≡ (on_kept self.old m.now (attempt_of self.old m.now.to)).stored) }
        ensures appended { OnOk result (self.new.messages ≡ self.old.messages ++ (on_kept self.old m.now (attempt_of self.old m.now.to)).sent) }
        ensures after { OnOk result (self.new ≡ (on_kept self.old m.now (attempt_of self.old m.now.to)).after) }
    {
        let attempt = attempt_at(self.alloc, &self.attempts, m.to)?;
        self.kept_at(m, &attempt)
    }

    /// What was put is known to be stored.
    fn learn(&mut self, proposer: NodeId, learned: Option<Config>) -> Result<Happening, OutOfMemory>
        ensures result { IfOk result (λ h. h.result ≡ Outcome.Acted) }
        ensures stored { IfOk result (λ h. h.stored ≡ note_of proposer learned) }
        ensures after { OnOk result (self.new ≡ learning self.old proposer learned) }
        ensures messages { OnOk result (self.new.messages ≡ self.old.messages) }
    {
        match learned {
            None => Ok(acted()),
            Some(config) => {
                put_known(&mut self.known, knows(proposer, &config), config.epoch())?;
                Ok(Happening {
                    result: Outcome::Acted,
                    stored: Some(Stored { proposer, config }),
                })
            }
        }
    }
}
