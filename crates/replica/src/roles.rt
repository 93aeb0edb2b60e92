//! The roles of a node in its shard. Each owns the log, so that what a role may not do it has no call for.
ghost use Rattle.std.specs.Prelude.{◌≡◌, ◌≤◌, IsTrue, IfOk};
ghost use Rattle.std.specs.Option.{option_copied};
ghost use Rattle.tcs_terms.specs.declared.limits.TheConstants.{MAX_EPOCH};
ghost use Rattle.protocol.specs.Log.{marked, mark_of};
ghost use Rattle.protocol.specs.ShardRules.{is_leader, is_following, is_fenced};
ghost use Rattle.protocol.specs.Views.{is_follower};
ghost use Rattle.protocol.specs.World.{first_role};
ghost use Rattle.replica.specs.Duties.{begins_as, duty_of, is_first, least_of};

use cert_log::{CertLog, Fenced};
use follower_part::{Follower, first_follower};
use leader_part::{Leader, first_leader};
use std::alloc::Global;
use tcs_laws::VoteGuard;
use tcs_terms::{Config, Epoch, NodeId, OutOfMemory, Slot, is_among};

/// What a node does in its shard.
#[derive(Debug, Drop)]
pub enum Role<G: VoteGuard> {
    Fenced(Fenced<G>),
    Leader(Leader<G>),
    Follower(Follower<G>),
}

/// Whether a node is a member of a configuration and does not lead it.
pub(crate) fn is_follower(config: &Config, node: NodeId) -> bool
    ensures { result ≡ is_follower config.now node }
{
    is_among(config.members(), node) && node != config.leader()
}

impl<G: VoteGuard> Role<G> {
    /// The role with which a node begins as a member of its shard's first configuration.
    fn first_member(alloc: Global, name: NodeId, config: &Config) -> Result<Role<G>, OutOfMemory>
        requires { config.now.epoch ≡ 1 }
        ensures { IfOk result (λ role. duty_of role ≡ begins_as (first_role name (Some config.now))) }
    {
        if config.leader() == name {
            Ok(Role::Leader(first_leader(alloc, config.copy(alloc)?)))
        } else if is_among(config.members(), name) {
            Ok(Role::Follower(first_follower(alloc, config.copy(alloc)?)))
        } else {
            Ok(Role::Fenced(Fenced::first(alloc)))
        }
    }

    /// The role with which a node begins, given the first configuration of its shard.
    pub(crate) fn first(
        alloc: Global,
        name: NodeId,
        config: Option<&Config>,
    ) -> Result<Role<G>, OutOfMemory>
        requires { IsTrue (is_first (option_copied config)) }
        ensures { IfOk result (λ role. duty_of role ≡ begins_as (first_role name (option_copied config.entry))) }
    {
        match config {
            None => Ok(Role::Fenced(Fenced::first(alloc))),
            Some(config) => Role::first_member(alloc, name, config),
        }
    }

    /// The role under a promise of an epoch that may still be promised.
    pub(crate) fn fence(self, epoch: Epoch) -> Fenced<G>
        requires least { least_of (duty_of self) ≤ epoch }
        requires fits { epoch ≤ MAX_EPOCH }
        ensures { let duty = duty_of self in result ≡ record { state = duty.state; promised = epoch; rows = duty.rows } }
    {
        match self {
            Role::Fenced(fenced) => fenced.fence(epoch),
            Role::Leader(leader) => leader.fence(epoch),
            Role::Follower(follower) => follower.fence(epoch),
        }
    }

    /// Marks the row of a slot, as `CertLog::mark` does.
    pub(crate) fn mark(&mut self, slot: Slot, commit: bool)
        ensures { let duty = duty_of self.old in duty_of self.new ≡ record duty { rows = marked duty.rows slot (mark_of commit) } }
    {
        match self {
            Role::Fenced(fenced) => fenced.mark(slot, commit),
            Role::Leader(leader) => leader.mark(slot, commit),
            Role::Follower(follower) => follower.mark(slot, commit),
        }
    }

    pub fn log(&self) -> &CertLog<G>
        ensures { result.now ≡ (duty_of self.now).rows }
    {
        match self {
            Role::Fenced(fenced) => fenced.log(),
            Role::Leader(leader) => leader.log(),
            Role::Follower(follower) => follower.log(),
        }
    }

    /// The last epoch in which the node was initialised, 0 if never.
    pub fn state(&self) -> Epoch
        ensures state { result ≡ (duty_of self.now).state }
        ensures fits { (duty_of self.now).state ≤ MAX_EPOCH }
    {
        match self {
            Role::Fenced(fenced) => fenced.state(),
            Role::Leader(leader) => leader.config().epoch(),
            Role::Follower(follower) => follower.config().epoch(),
        }
    }

    /// The greatest epoch that the node promised, 0 if none.
    pub fn promised(&self) -> Epoch
        ensures promised { result ≡ (duty_of self.now).promised }
        ensures fits { (duty_of self.now).promised ≤ MAX_EPOCH }
    {
        match self {
            Role::Fenced(fenced) => fenced.promised(),
            Role::Leader(leader) => leader.config().epoch(),
            Role::Follower(follower) => follower.config().epoch(),
        }
    }

    pub fn is_leader(&self) -> bool
        ensures { result ≡ is_leader (duty_of self.now).role }
    {
        matches!(self, Role::Leader(_))
    }

    pub fn is_following(&self) -> bool
        ensures { result ≡ is_following (duty_of self.now).role }
    {
        matches!(self, Role::Follower(_))
    }

    pub fn is_fenced(&self) -> bool
        ensures { result ≡ is_fenced (duty_of self.now).role }
    {
        matches!(self, Role::Fenced(_))
    }
}
