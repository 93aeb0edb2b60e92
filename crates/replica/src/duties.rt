//! What a node does in its shard: its role, with the log, and the store that reads are taken from.
ghost use Rattle.std.specs.Prelude.{◌≡◌, ◌↔◌, ◌≤◌, true, false, IsTrue, IfOk, OnOk, OnErr, IsErrOf};
ghost use Rattle.std.specs.Option.{option_copied};
ghost use Rattle.tcs_terms.specs.declared.limits.TheConstants.{MAX_EPOCH};
ghost use Rattle.tcs_terms.specs.Logs.{AreRows};
ghost use Rattle.tcs_terms.specs.Messages.{is_slot};
ghost use Rattle.protocol.specs.Log.{accepted, has_at, is_taken, marked, mark_of};
ghost use Rattle.protocol.specs.Records as records;
ghost use Rattle.protocol.specs.ShardRules.{is_leader, is_following, is_fenced};
ghost use Rattle.protocol.specs.Versions.{read_of};
ghost use Rattle.protocol.specs.World.{first_role};
ghost use Rattle.cert_log.specs.Preparing.{prepared_entry, prepared_rows, finds_no_room};
ghost use Rattle.replica.specs.Duties.{begins_as, duty_of, is_first, least_of};

use crate::roles::Role;
use crate::telling::tell_at;
use cert_log::{CertLog, Fenced, PrepareFault};
use follower_part::follow;
use leader_part::lead;
use std::alloc::Global;
use std::marker::Model;
use std::mem;
use tcs_laws::VoteGuard;
use tcs_terms::{
    Config, Entry, Epoch, Name, NodeId, OutOfMemory, Payload, Row, ShardSet, Slot, TxId,
};
use version_store::{Reading, VersionStore};

/// A role, and the store that stands for the rows of its log. Seen as what the role tells.
#[derive(Drop)]
pub(crate) struct Duty<G: VoteGuard> {
    role: Role<G>,
    versions: VersionStore,
}

impl<G: VoteGuard> Model for Duty<G> {
    ghost use Rattle.version_store.specs.Keeping.{StandsFor};
    ghost use Rattle.replica.specs.Duties.{DutyState, duty_of};

    ghost Value = { DutyState };

    ghost view = { λ d. duty_of d.role };

    ghost invariant = { λ d. StandsFor d.versions (duty_of d.role).rows };
}

impl<G: VoteGuard> Duty<G> {
    /// What a node does as it begins, given the first configuration of its shard.
    pub(crate) fn first(
        alloc: Global,
        name: NodeId,
        config: Option<&Config>,
    ) -> Result<Duty<G>, OutOfMemory>
        requires { IsTrue (is_first (option_copied config)) }
        ensures { IfOk result (λ duty. duty ≡ begins_as (first_role name (option_copied config.entry))) }
    {
        Ok(Duty {
            role: Role::first(alloc, name, config)?,
            versions: VersionStore::new(alloc),
        })
    }

    /// What a node does that never was initialised.
    fn nothing(alloc: Global) -> Duty<G>
        ensures { result ≡ begins_as records.Role.Fenced }
    {
        Duty {
            role: Role::Fenced(Fenced::first(alloc)),
            versions: VersionStore::new(alloc),
        }
    }

    pub(crate) fn role(&self) -> &Role<G>
        ensures { duty_of result.now ≡ self.now }
    {
        &self.role
    }

    /// What is read of an object: its committed value of greatest version.
    pub(crate) fn read(&self, name: &Name) -> Reading<'_>
        ensures version { result.version ≡ (read_of self.now.rows name.now).version }
        ensures value { option_copied result.value ≡ (read_of self.now.rows name.now).value }
    {
        let _rows = self.role.log().rows();
        self.versions.read(name)
    }

    /// A leader prepares a transaction, as `CertLog::prepare` does. After an `Err` all is as before.
    pub(crate) fn prepare(
        &mut self,
        alloc: Global,
        txn: TxId,
        shards: ShardSet,
        part: Option<Payload>,
    ) -> Result<Entry, PrepareFault>
        requires { is_leader self.old.role ≡ true }
        ensures entry { IfOk result (λ entry. entry ≡ prepared_entry G.Rule.tests self.old.rows txn shards part) }
        ensures rows { OnOk result (self.new ≡ record self.old { rows = prepared_rows G.Rule.tests self.old.rows txn shards part }) }
        ensures full { IsErrOf result PrepareFault.Full ↔ IsTrue (finds_no_room self.old.rows txn) }
        ensures err { OnErr result (self.new ≡ self.old) }
    {
        match &mut self.role {
            Role::Leader(leader) => leader.prepare(alloc, txn, shards, part),
            Role::Fenced(_) | Role::Follower(_) => unreachable!(),
        }
    }

    /// A follower accepts an entry, as `CertLog::accept` does. After an `Err` all is as before.
    pub(crate) fn accept(&mut self, entry: Entry) -> Result<(), OutOfMemory>
        requires follows { is_following self.old.role ≡ true }
        requires slot { IsTrue (is_slot entry.slot) }
        requires free { is_taken self.old.rows entry ≡ false }
        ensures rows { OnOk result (self.new ≡ record self.old { rows = accepted self.old.rows entry }) }
        ensures err { OnErr result (self.new ≡ self.old) }
    {
        let _rows = self.role.log().rows();
        match &mut self.role {
            Role::Follower(follower) => follower.accept(entry),
            Role::Fenced(_) | Role::Leader(_) => unreachable!(),
        }
    }

    /// Marks the row of a slot, once, and tells the store. Where memory runs out all is lost.
    pub(crate) fn decide(
        &mut self,
        alloc: Global,
        slot: Slot,
        commit: bool,
    ) -> Result<(), OutOfMemory>
        ensures { OnOk result (self.new ≡ record self.old { rows = marked self.old.rows slot (mark_of commit) }) }
    {
        match tell_at(alloc, &mut self.versions, self.role.log(), slot, commit) {
            Ok(()) => {
                self.role.mark(slot, commit);
                Ok(())
            }
            Err(OutOfMemory) => {
                *self = Duty::nothing(alloc);
                Err(OutOfMemory)
            }
        }
    }

    /// Whatever the node did, it is fenced, under a promise of an epoch that it may still promise.
    pub(crate) fn fence(&mut self, alloc: Global, epoch: Epoch)
        requires least { least_of self.old ≤ epoch }
        requires fits { epoch ≤ MAX_EPOCH }
        ensures { self.new ≡ record self.old { role = records.Role.Fenced; promised = epoch } }
    {
        let role = mem::replace(&mut self.role, Role::Fenced(Fenced::first(alloc)));
        self.role = Role::Fenced(role.fence(epoch));
    }

    /// A fenced node leads a configuration of the epoch that it promised.
    pub(crate) fn lead(&mut self, alloc: Global, config: Config)
        requires fenced { is_fenced self.old.role ≡ true }
        requires promised { self.old.promised ≡ config.epoch }
        ensures { self.new ≡ record self.old { role = records.Role.Leader config; state = config.epoch } }
    {
        self.role = match mem::replace(&mut self.role, Role::Fenced(Fenced::first(alloc))) {
            Role::Fenced(fenced) => Role::Leader(lead(fenced, config)),
            Role::Leader(_) | Role::Follower(_) => unreachable!(),
        };
    }

    /// Whatever the node did, it follows a configuration whose epoch it may still reach, with the rows of its leader.
    /// After an `Err` all is as before.
    pub(crate) fn follow(
        &mut self,
        alloc: Global,
        config: Config,
        rows: Vec<Row>,
    ) -> Result<(), OutOfMemory>
        requires least { least_of self.old ≤ config.epoch }
        requires rows { AreRows rows.items }
        ensures follows { OnOk result (self.new ≡ record {
          role = records.Role.Follower config;
          state = config.epoch;
          promised = config.epoch;
          rows = rows.items;
        }) }
        ensures err { OnErr result (self.new ≡ self.old) }
    {
        let versions = VersionStore::build(alloc, &rows)?;
        let log = CertLog::from_rows(alloc, rows)?;
        let role = mem::replace(&mut self.role, Role::Fenced(Fenced::first(alloc)));
        let fenced = role.fence(config.epoch());
        self.role = Role::Follower(follow(fenced, config, log));
        self.versions = versions;
        Ok(())
    }
}
