//! A node's part in its shard, and what it tells of itself.
ghost use Rattle.std.specs.Prelude.{◌≡◌, ◌≤◌, false, List, IsTrue, IfOk};
ghost use Rattle.std.specs.Option.{option_copied};
ghost use Rattle.tcs_terms.specs.declared.limits.TheConstants.{MAX_EPOCH};
ghost use Rattle.tcs_terms.specs.Logs.{AreRows};
ghost use Rattle.tcs_terms.specs.Places.{Membership};
ghost use Rattle.protocol.specs.Log.{row_of};
ghost use Rattle.protocol.specs.Versions.{read_of};
ghost use Rattle.protocol.specs.World.{first_role, first_node_as};
ghost use Rattle.replica.specs.Duties.{duty_of, is_first};
ghost use Rattle.replica.specs.Replicas.{duty_in, within};

use crate::duties::Duty;
use crate::roles::Role;
use state_transfer::Gathering;
use std::alloc::Global;
use std::marker::Model;
use tcs_laws::VoteGuard;
use tcs_terms::{Config, Epoch, Name, NodeId, OutOfMemory, Row, ShardId, TxId};
use version_store::Reading;

/// What a node keeps for its own shard, with a log whose votes are given by a guard `G`. Each rule appends what it sends
/// to what it is given. Once memory ran out in a rule the replica is spent, and every later rule answers the same.
#[derive(Drop)]
pub struct Replica<G: VoteGuard> {
    pub(crate) name: NodeId,
    pub(crate) shard: ShardId,
    pub(crate) duty: Duty<G>,
    pub(crate) gathering: Option<Gathering>,
    pub(crate) spent: bool,
}

impl<G: VoteGuard> Model for Replica<G> {
    ghost use Rattle.replica.specs.Replicas.{ReplicaState};

    ghost Value = { ReplicaState };

    ghost view = { λ r. record {
      name = r.name;
      shard = r.shard;
      role = r.duty.role;
      state = r.duty.state;
      promised = r.duty.promised;
      rows = r.duty.rows;
      gathering = r.gathering;
      spent = r.spent;
    } };
}

impl<G: VoteGuard> Replica<G> {
    /// A node as it begins, given the first configuration of its shard: with an empty log, leader or follower in epoch 1
    /// where it is a member, else fenced in epoch 0.
    pub fn first(
        alloc: Global,
        name: NodeId,
        shard: ShardId,
        config: Option<&Config>,
    ) -> Result<Replica<G>, OutOfMemory>
        requires { IsTrue (is_first (option_copied config)) }
        ensures node { (configs : List Membership) → IfOk result (λ r.
            let node = first_node_as configs name shard (first_role name (option_copied config.entry)) in within node r ≡ node) }
        ensures spent { IfOk result (λ r. r.spent ≡ false) }
    {
        Ok(Replica {
            name,
            shard,
            duty: Duty::first(alloc, name, config)?,
            gathering: None,
            spent: false,
        })
    }

    pub fn name(&self) -> NodeId
        ensures { result ≡ self.now.name }
    {
        self.name
    }

    pub fn shard(&self) -> ShardId
        ensures { result ≡ self.now.shard }
    {
        self.shard
    }

    /// What the node does in its shard, with its state epoch, its promise and its log.
    pub fn role(&self) -> &Role<G>
        ensures { duty_of result.now ≡ duty_in self.now }
    {
        self.duty.role()
    }

    /// The last epoch in which the node was initialised, 0 if never.
    pub fn state(&self) -> Epoch
        ensures state { result ≡ self.now.state }
        ensures fits { self.now.state ≤ MAX_EPOCH }
    {
        self.duty.role().state()
    }

    /// The greatest epoch that the node promised, 0 if none.
    pub fn promised(&self) -> Epoch
        ensures promised { result ≡ self.now.promised }
        ensures fits { self.now.promised ≤ MAX_EPOCH }
    {
        self.duty.role().promised()
    }

    /// The rows of the node's log, slots ascending.
    pub fn rows(&self) -> &[Row]
        ensures rows { result.now ≡ self.now.rows }
        ensures are_rows { AreRows self.now.rows }
    {
        self.duty.role().log().rows()
    }

    /// The row of a transaction.
    pub fn row_of(&self, txn: TxId) -> Option<&Row>
        ensures { option_copied result ≡ row_of self.now.rows txn }
    {
        self.duty.role().log().row_of(txn)
    }

    /// What is read of an object: its committed value of greatest version.
    pub fn read(&self, name: &Name) -> Reading<'_>
        ensures version { result.version ≡ (read_of self.now.rows name.now).version }
        ensures value { option_copied result.value ≡ (read_of self.now.rows name.now).value }
    {
        self.duty.read(name)
    }
}
