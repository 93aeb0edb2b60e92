//! An attempt of a proposer to store a configuration.
ghost use Rattle.std.specs.Prelude.{◌≡◌, ◌&&◌, ◌==◌, true, IfOk};
ghost use Rattle.quorum_protocol.specs.Ballots.{ballot_le, same_ballot, is_majority};
ghost use Rattle.quorum_protocol.specs.Rules.{greater, value_of, add_once, hear, asking_or_putting, after_told, putting_or_ended, after_kept, is_asking, is_putting, is_of};
ghost use Rattle.quorum_protocol.specs.World.{begun};
ghost use Rattle.quorum_world.specs.Stages.{stage_of};

use crate::entries::copy_of;
use quorum_protocol::{Accepted, Ballot, Message};
use std::alloc::Global;
use std::marker::Model;
use tcs_terms::{Config, NodeId, OutOfMemory, is_among};

/// How far an attempt has come.
#[derive(Debug, Drop)]
pub(crate) enum Stage {
    /// These acceptors told, and of the pairs that each told first this is the one of the greatest ballot.
    Asking {
        told: Vec<NodeId>,
        greatest: Option<Accepted>,
    },
    /// This is put, and these acceptors keep it.
    Putting {
        value: Config,
        keepers: Vec<NodeId>,
    },
    Ended,
}

/// A ballot, the configuration that is proposed, and how far the attempt has come.
#[derive(Debug, Drop)]
pub(crate) struct Attempt {
    pub(crate) ballot: Ballot,
    pub(crate) config: Config,
    pub(crate) stage: Stage,
}

impl Model for Attempt {
    ghost use Rattle.quorum_protocol.specs.Rules as rules;
    ghost use Rattle.quorum_world.specs.Stages.{stage_of};

    ghost Value = { rules.Attempt };

    ghost view = { λ a. record { ballot = a.ballot; config = a.config; stage = stage_of a.stage } };
}

/// Whether the first ballot is at most the second.
#[tactic(auto, unfolding(quorum_protocol::specs::Ballots::ballot_le))]
pub(crate) fn ballot_le(first: Ballot, second: Ballot) -> bool
    ensures { result ≡ ballot_le first second }
{
    first.round < second.round || (first.round == second.round && first.proposer <= second.proposer)
}

fn same_ballot(first: Ballot, second: Ballot) -> bool
    ensures { result ≡ same_ballot first second }
{
    first.round == second.round && first.proposer == second.proposer
}

/// Whether so many acceptors are more than half of all.
fn is_majority(all: u8, count: usize) -> bool
    ensures { result ≡ is_majority all count }
{
    count > all as usize || (all as usize) < count + count
}

/// The pair of the greater ballot.
fn greater(first: Option<Accepted>, second: Option<Accepted>) -> Option<Accepted>
    ensures { result ≡ greater first second }
{
    match first {
        None => second,
        Some(first) => match second {
            None => Some(first),
            Some(second) => {
                if ballot_le(second.ballot, first.ballot) {
                    Some(first)
                } else {
                    Some(second)
                }
            }
        },
    }
}

fn copy_pair(alloc: Global, pair: &Option<Accepted>) -> Result<Option<Accepted>, OutOfMemory>
    ensures { IfOk result (λ copy. copy ≡ pair.now) }
{
    match pair {
        None => Ok(None),
        Some(pair) => Ok(Some(copy_of(alloc, pair)?)),
    }
}

/// The acceptors, with this one among them once.
fn add_once(alloc: Global, list: &[NodeId], one: NodeId) -> Result<Vec<NodeId>, OutOfMemory>
    ensures { IfOk result (λ v. v.items ≡ add_once list.now one) }
{
    let mut more = Vec::from_slice(alloc, list)?;
    if !is_among(list, one) {
        more.push(one)?;
    }
    Ok(more)
}

/// The greatest pair told, after an acceptor's answer, of which only the first counts.
fn hear(
    alloc: Global,
    told: &[NodeId],
    greatest: &Option<Accepted>,
    from: NodeId,
    accepted: &Option<Accepted>,
) -> Result<Option<Accepted>, OutOfMemory>
    ensures { IfOk result (λ pair. pair ≡ hear told.now greatest.now from accepted.now) }
{
    let before = copy_pair(alloc, greatest)?;
    if is_among(told, from) {
        return Ok(before);
    }
    Ok(greater(before, copy_pair(alloc, accepted)?))
}

/// What is put: the configuration of the greatest pair told, else the own.
fn value_of(alloc: Global, greatest: &Option<Accepted>, own: &Config) -> Result<Config, OutOfMemory>
    ensures { IfOk result (λ value. value ≡ value_of greatest.now own.now) }
{
    match greatest {
        None => own.copy(alloc),
        Some(pair) => pair.config.copy(alloc),
    }
}

fn copy_stage(alloc: Global, stage: &Stage) -> Result<Stage, OutOfMemory>
    ensures { IfOk result (λ copy. stage_of copy ≡ stage_of stage.now) }
{
    match stage {
        Stage::Asking { told, greatest } => Ok(Stage::Asking {
            told: Vec::from_slice(alloc, told)?,
            greatest: copy_pair(alloc, greatest)?,
        }),
        Stage::Putting { value, keepers } => Ok(Stage::Putting {
            value: value.copy(alloc)?,
            keepers: Vec::from_slice(alloc, keepers)?,
        }),
        Stage::Ended => Ok(Stage::Ended),
    }
}

/// It asks, until a majority has told.
fn asking_or_putting(
    alloc: Global,
    acceptors: u8,
    own: &Config,
    told: Vec<NodeId>,
    greatest: Option<Accepted>,
) -> Result<Stage, OutOfMemory>
    ensures { IfOk result (λ stage. stage_of stage ≡ asking_or_putting acceptors own.now told.items greatest) }
{
    if is_majority(acceptors, told.len()) {
        return Ok(Stage::Putting {
            value: value_of(alloc, &greatest, own)?,
            keepers: Vec::new(alloc),
        });
    }
    Ok(Stage::Asking { told, greatest })
}

/// It puts, until a majority keeps.
fn putting_or_ended(acceptors: u8, value: Config, keepers: Vec<NodeId>) -> Stage
    ensures { stage_of result ≡ putting_or_ended acceptors value keepers.items }
{
    if is_majority(acceptors, keepers.len()) {
        return Stage::Ended;
    }
    Stage::Putting { value, keepers }
}

/// The stage after an acceptor told.
fn after_told(
    alloc: Global,
    acceptors: u8,
    own: &Config,
    stage: &Stage,
    from: NodeId,
    accepted: &Option<Accepted>,
) -> Result<Stage, OutOfMemory>
    requires { is_asking (stage_of stage.now) ≡ true }
    ensures { IfOk result (λ new. stage_of new ≡ after_told acceptors own.now (stage_of stage.now) from accepted.now) }
{
    match stage {
        Stage::Asking { told, greatest } => {
            let heard = hear(alloc, told, greatest, from, accepted)?;
            let told = add_once(alloc, told, from)?;
            asking_or_putting(alloc, acceptors, own, told, heard)
        }
        Stage::Putting { .. } => unreachable!(),
        Stage::Ended => unreachable!(),
    }
}

/// The stage after an acceptor kept what was put.
fn after_kept(
    alloc: Global,
    acceptors: u8,
    stage: &Stage,
    from: NodeId,
) -> Result<Stage, OutOfMemory>
    requires { is_putting (stage_of stage.now) ≡ true }
    ensures { IfOk result (λ new. stage_of new ≡ after_kept acceptors (stage_of stage.now) from) }
{
    match stage {
        Stage::Putting { value, keepers } => {
            let keepers = add_once(alloc, keepers, from)?;
            Ok(putting_or_ended(acceptors, value.copy(alloc)?, keepers))
        }
        Stage::Asking { .. } => unreachable!(),
        Stage::Ended => unreachable!(),
    }
}

impl Attempt {
    ghost use Rattle.quorum_protocol.specs.Rules as rules;

    /// An attempt as it begins.
    pub(crate) fn begin(alloc: Global, round: u32, config: Config) -> Attempt
        ensures { result ≡ begun round config }
    {
        Attempt {
            ballot: Ballot {
                round,
                proposer: config.by(),
            },
            config,
            stage: Stage::Asking {
                told: Vec::new(alloc),
                greatest: None,
            },
        }
    }

    /// The same attempt again.
    pub(crate) fn copy(&self, alloc: Global) -> Result<Attempt, OutOfMemory>
        ensures { IfOk result (λ copy. copy ≡ self.now) }
    {
        Ok(Attempt {
            ballot: self.ballot,
            config: self.config.copy(alloc)?,
            stage: copy_stage(alloc, &self.stage)?,
        })
    }

    pub(crate) fn round(&self) -> u32
        ensures { result ≡ self.now.ballot.round }
    {
        self.ballot.round
    }

    /// Whether a message is of the attempt's shard, epoch and ballot.
    pub(crate) fn is_of(&self, m: &Message) -> bool
        ensures { result ≡ is_of self.now m.now }
    {
        m.shard == self.config.shard()
            && m.epoch == self.config.epoch()
            && same_ballot(m.ballot, self.ballot)
    }

    pub(crate) fn is_asking(&self) -> bool
        ensures { result ≡ is_asking self.now.stage }
    {
        matches!(self.stage, Stage::Asking { .. })
    }

    pub(crate) fn is_putting(&self) -> bool
        ensures { result ≡ is_putting self.now.stage }
    {
        matches!(self.stage, Stage::Putting { .. })
    }

    /// The attempt after an acceptor told.
    pub(crate) fn told(
        &self,
        alloc: Global,
        acceptors: u8,
        from: NodeId,
        accepted: &Option<Accepted>,
    ) -> Result<Attempt, OutOfMemory>
        requires { is_asking self.now.stage ≡ true }
        ensures { IfOk result (λ new. new ≡ record {
          ballot = self.now.ballot;
          config = self.now.config;
          stage = after_told acceptors self.now.config self.now.stage from accepted.now;
        }) }
    {
        Ok(Attempt {
            ballot: self.ballot,
            config: self.config.copy(alloc)?,
            stage: after_told(alloc, acceptors, &self.config, &self.stage, from, accepted)?,
        })
    }

    /// The attempt after an acceptor kept what was put.
    pub(crate) fn kept(
        &self,
        alloc: Global,
        acceptors: u8,
        from: NodeId,
    ) -> Result<Attempt, OutOfMemory>
        requires { is_putting self.now.stage ≡ true }
        ensures { IfOk result (λ new. new ≡ record {
          ballot = self.now.ballot;
          config = self.now.config;
          stage = after_kept acceptors self.now.stage from;
        }) }
    {
        Ok(Attempt {
            ballot: self.ballot,
            config: self.config.copy(alloc)?,
            stage: after_kept(alloc, acceptors, &self.stage, from)?,
        })
    }
}
