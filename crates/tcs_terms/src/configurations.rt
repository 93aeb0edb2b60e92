//! Configurations of a shard, and the nodes that a move wants.
ghost use Rattle.tcs_terms.specs.ConfigFaults.{config_fault};
ghost use Rattle.std.specs.Prelude.{◌≡◌, ◌↔◌, Some, IsOk, IfOk, IfErr};

use crate::copies::Copied;
use crate::faults::BadConfig;
use crate::ids::{Epoch, NodeId, ShardId};
use crate::inline::inline;
use crate::limits::{MAX_MEMBERS, MAX_NODES};
use crate::memory::OutOfMemory;
use crate::places::{is_among, is_epoch, is_shard, may_be_members};
use arrayvec::ArrayVec;
use std::alloc::Global;
use std::marker::Model;

/// What is wrong first with the numbers of a configuration.
fn config_fault(
    shard: ShardId,
    epoch: Epoch,
    members: &[NodeId],
    leader: NodeId,
    by: NodeId,
) -> Option<BadConfig>
    ensures { result ≡ config_fault (record {
      shard = shard;
      epoch = epoch;
      members = members.now;
      leader = leader;
      by = by;
    }) }
{
    if !may_be_members(members) {
        return Some(BadConfig::Members);
    }
    if !is_among(members, leader) {
        return Some(BadConfig::Leader);
    }
    if !(is_shard(shard) && is_epoch(epoch) && by <= MAX_NODES) {
        return Some(BadConfig::Number);
    }
    None
}

/// A configuration of a shard: its epoch, its members, which of them leads, and which node proposed it
/// (0 for a first one). The members other than the leader are the followers. They lie in the value itself.
#[derive(Debug, Drop)]
pub struct Config {
    shard: ShardId,
    epoch: Epoch,
    members: ArrayVec<NodeId, MAX_MEMBERS>,
    leader: NodeId,
    by: NodeId,
}

impl Model for Config {
    ghost use Rattle.tcs_terms.specs.Places.{Membership, IsMembership};

    ghost Value = { Membership };

    ghost view = { λ c. record {
      shard = c.shard;
      epoch = c.epoch;
      members = c.members.items;
      leader = c.leader;
      by = c.by;
    } };

    ghost invariant = { λ c. IsMembership (record {
      shard = c.shard;
      epoch = c.epoch;
      members = c.members.items;
      leader = c.leader;
      by = c.by;
    }) };
}

impl Config {
    ghost use Rattle.tcs_terms.specs.Places.{IsMembership};

    /// The configuration of these numbers.
    ///
    /// # Errors
    /// The first of these: `Members`, where there are none, more than 7, or they do not ascend within 1 to 64;
    /// `Leader`, where the leader is no member; `Number`, where the shard, the epoch or the proposer (0 to 64) is out
    /// of range.
    pub fn build(
        shard: ShardId,
        epoch: Epoch,
        members: Vec<NodeId>,
        leader: NodeId,
        by: NodeId,
    ) -> Result<Config, BadConfig>
        ensures ok { IsOk result ↔ IsMembership (record {
          shard = shard;
          epoch = epoch;
          members = members.items;
          leader = leader;
          by = by;
        }) }
        ensures value { IfOk result (λ c. c ≡ record {
          shard = shard;
          epoch = epoch;
          members = members.items;
          leader = leader;
          by = by;
        }) }
        ensures refusal { IfErr result (λ fault. config_fault (record {
          shard = shard;
          epoch = epoch;
          members = members.items;
          leader = leader;
          by = by;
        }) ≡ Some fault) }
    {
        match config_fault(shard, epoch, &members, leader, by) {
            Some(fault) => Err(fault),
            None => Ok(Config::of(shard, epoch, &members, leader, by)),
        }
    }

    /// The configuration of numbers that are one.
    pub fn of(
        shard: ShardId,
        epoch: Epoch,
        members: &[NodeId],
        leader: NodeId,
        by: NodeId,
    ) -> Config
        requires { IsMembership (record {
          shard = shard;
          epoch = epoch;
          members = members.now;
          leader = leader;
          by = by;
        }) }
        ensures { result ≡ record {
          shard = shard;
          epoch = epoch;
          members = members.now;
          leader = leader;
          by = by;
        } }
    {
        Config {
            shard,
            epoch,
            members: inline(members),
            leader,
            by,
        }
    }

    /// Another configuration of the same numbers.
    pub fn copy(&self, _alloc: Global) -> Result<Config, OutOfMemory>
        ensures { IfOk result (λ c. c ≡ self.now) }
    {
        let members = self.members();
        Ok(Config::of(self.shard, self.epoch, members, self.leader, self.by))
    }

    pub fn shard(&self) -> ShardId
        ensures shard { result ≡ self.now.shard }
        ensures config { IsMembership self.now }
    {
        self.shard
    }

    pub fn epoch(&self) -> Epoch
        ensures epoch { result ≡ self.now.epoch }
        ensures config { IsMembership self.now }
    {
        self.epoch
    }

    /// The members, ascending.
    pub fn members(&self) -> &[NodeId]
        ensures members { result.now ≡ self.now.members }
        ensures config { IsMembership self.now }
    {
        self.members.as_slice()
    }

    pub fn leader(&self) -> NodeId
        ensures leader { result ≡ self.now.leader }
        ensures config { IsMembership self.now }
    {
        self.leader
    }

    /// The node that proposed the configuration, or 0 for a first one.
    pub fn by(&self) -> NodeId
        ensures by { result ≡ self.now.by }
        ensures config { IsMembership self.now }
    {
        self.by
    }
}

impl Copied for Config {
    fn copied(&self, alloc: Global) -> Result<Config, OutOfMemory> {
        self.copy(alloc)
    }
}

/// The nodes that a move wants beside the one that becomes leader. Seen as their list; `Input::in_range` and
/// `Setup::fits` say which lists are in range.
#[derive(Debug, Drop)]
pub struct Wanted {
    list: Vec<NodeId>,
}

impl Model for Wanted {
    ghost use Rattle.std.specs.Prelude.{List, ℕ};

    ghost Value = { List ℕ };

    ghost view = { λ w. w.list.items };
}

impl Wanted {
    pub fn build(list: Vec<NodeId>) -> Wanted
        ensures { result ≡ list.items }
    {
        Wanted { list }
    }

    /// The same list again.
    pub fn copy(&self, alloc: Global) -> Result<Wanted, OutOfMemory>
        ensures { IfOk result (λ c. c ≡ self.now) }
    {
        Ok(Wanted {
            list: Vec::from_slice(alloc, &self.list)?,
        })
    }

    pub fn list(&self) -> &[NodeId]
        ensures { result.now ≡ self.now }
    {
        self.list.as_slice()
    }
}
