//! A leader's log, from the promise that it keeps to the next one.
ghost use Rattle.std.specs.Prelude.{◌≡◌, ◌↔◌, ◌<◌, ◌≤◌, [], IsTrue, IfOk, OnOk, OnErr, IsErrOf};
ghost use Rattle.tcs_terms.specs.declared.limits.TheConstants.{MAX_EPOCH};
ghost use Rattle.protocol.specs.Log.{marked, mark_of};
ghost use Rattle.cert_log.specs.Preparing.{prepared_entry, prepared_rows, finds_no_room};

use cert_log::{CertLog, Fenced, PrepareFault};
use std::alloc::Global;
use std::marker::Model;
use tcs_laws::VoteGuard;
use tcs_terms::{Config, Entry, Epoch, Payload, ShardSet, Slot, TxId};

/// The log of a shard's leader, with the configuration that it leads. The epoch of the configuration is the last one in
/// which its node was initialised, and the greatest one that the node promised.
#[derive(Debug, Drop)]
pub struct Leader<G: VoteGuard> {
    log: CertLog<G>,
    config: Config,
}

impl<G: VoteGuard> Model for Leader<G> {
    ghost use Rattle.leader_part.specs.Leading.{LeaderState};

    ghost Value = { LeaderState };

    ghost view = { λ l. record { config = l.config; rows = l.log } };
}

/// The leader of a shard's first configuration, with an empty log.
pub fn first_leader<G: VoteGuard>(alloc: Global, config: Config) -> Leader<G>
    requires { config.epoch ≡ 1 }
    ensures { result ≡ record { config = config; rows = [] } }
{
    Leader {
        log: CertLog::new(alloc),
        config,
    }
}

/// A log that was shut goes on as its leader's, in a configuration of the epoch that was promised.
pub fn lead<G: VoteGuard>(fenced: Fenced<G>, config: Config) -> Leader<G>
    requires { fenced.promised ≡ config.epoch }
    ensures { result ≡ record { config = config; rows = fenced.rows } }
{
    Leader {
        log: fenced.into_log(),
        config,
    }
}

impl<G: VoteGuard> Leader<G> {
    /// Prepares a transaction, as `CertLog::prepare` does. After an `Err` the log is as before.
    ///
    /// # Errors
    /// `Full` where the transaction is new and the last slot is taken.
    pub fn prepare(
        &mut self,
        alloc: Global,
        txn: TxId,
        shards: ShardSet,
        part: Option<Payload>,
    ) -> Result<Entry, PrepareFault>
        ensures entry { IfOk result (λ entry. entry ≡ prepared_entry G.Rule.tests self.old.rows txn shards part) }
        ensures rows { OnOk result (self.new ≡ record self.old { rows = prepared_rows G.Rule.tests self.old.rows txn shards part }) }
        ensures full { IsErrOf result PrepareFault.Full ↔ IsTrue (finds_no_room self.old.rows txn) }
        ensures err { OnErr result (self.new ≡ self.old) }
    {
        self.log.prepare(alloc, txn, shards, part)
    }

    /// The log is shut, under a promise of a later epoch.
    pub fn fence(self, epoch: Epoch) -> Fenced<G>
        requires later { self.config.epoch < epoch }
        requires fits { epoch ≤ MAX_EPOCH }
        ensures { result ≡ record { state = self.config.epoch; promised = epoch; rows = self.rows } }
    {
        let state = self.config.epoch();
        Fenced::rejoin(self.log, state, epoch)
    }

    /// Marks the row of a slot, as `CertLog::mark` does.
    pub fn mark(&mut self, slot: Slot, commit: bool)
        ensures { self.new ≡ record self.old { rows = marked self.old.rows slot (mark_of commit) } }
    {
        self.log.mark(slot, commit);
    }

    pub fn log(&self) -> &CertLog<G>
        ensures { result.now ≡ self.now.rows }
    {
        &self.log
    }

    /// The configuration that is led.
    pub fn config(&self) -> &Config
        ensures { result.now ≡ self.now.config }
    {
        &self.config
    }
}
