//! A follower's log, from the promise that it keeps to the next one.
ghost use Rattle.std.specs.Prelude.{◌≡◌, ◌<◌, ◌≤◌, [], false, IsTrue, OnOk, OnErr};
ghost use Rattle.tcs_terms.specs.declared.limits.TheConstants.{MAX_EPOCH};
ghost use Rattle.tcs_terms.specs.Messages.{is_slot};
ghost use Rattle.protocol.specs.Log.{accepted, is_taken, marked, mark_of};

use cert_log::{CertLog, Fenced};
use std::alloc::Global;
use std::marker::Model;
use tcs_laws::VoteGuard;
use tcs_terms::{Config, Entry, Epoch, OutOfMemory, Slot};

/// The log of a shard's follower, with the configuration that it follows. The epoch of the configuration is the last one
/// in which its node was initialised, and the greatest one that the node promised.
#[derive(Debug, Drop)]
pub struct Follower<G: VoteGuard> {
    log: CertLog<G>,
    config: Config,
}

impl<G: VoteGuard> Model for Follower<G> {
    ghost use Rattle.follower_part.specs.Following.{FollowerState};

    ghost Value = { FollowerState };

    ghost view = { λ f. record { config = f.config; rows = f.log } };
}

/// A follower of a shard's first configuration, with an empty log.
pub fn first_follower<G: VoteGuard>(alloc: Global, config: Config) -> Follower<G>
    requires { config.epoch ≡ 1 }
    ensures { result ≡ record { config = config; rows = [] } }
{
    Follower {
        log: CertLog::new(alloc),
        config,
    }
}

/// A node that promised the epoch of a configuration follows its leader, whose log takes the place of its own.
pub fn follow<G: VoteGuard>(fenced: Fenced<G>, config: Config, log: CertLog<G>) -> Follower<G>
    requires { fenced.promised ≡ config.epoch }
    ensures { result ≡ record { config = config; rows = log } }
{
    drop(fenced);
    Follower { log, config }
}

impl<G: VoteGuard> Follower<G> {
    /// Accepts an entry that can be, as `CertLog::accept` does. After an `Err` the log is as before.
    pub fn accept(&mut self, entry: Entry) -> Result<(), OutOfMemory>
        requires slot { IsTrue (is_slot entry.slot) }
        requires free { is_taken self.old.rows entry ≡ false }
        ensures rows { OnOk result (self.new ≡ record self.old { rows = accepted self.old.rows entry }) }
        ensures err { OnErr result (self.new ≡ self.old) }
    {
        self.log.accept(entry)
    }

    /// The log is shut, under a promise of a later epoch.
    pub fn fence(self, epoch: Epoch) -> Fenced<G>
        requires later { self.config.epoch < epoch }
        requires fits { epoch ≤ MAX_EPOCH }
        ensures { result ≡ record { state = self.config.epoch; promised = epoch; rows = self.rows } }
    {
        let state = self.config.epoch();
        Fenced::rejoin(self.log, state, epoch)
    }

    /// Marks the row of a slot, as `CertLog::mark` does.
    pub fn mark(&mut self, slot: Slot, commit: bool)
        ensures { self.new ≡ record self.old { rows = marked self.old.rows slot (mark_of commit) } }
    {
        self.log.mark(slot, commit);
    }

    pub fn log(&self) -> &CertLog<G>
        ensures { result.now ≡ self.now.rows }
    {
        &self.log
    }

    /// The configuration that is followed.
    pub fn config(&self) -> &Config
        ensures { result.now ≡ self.now.config }
    {
        &self.config
    }
}
