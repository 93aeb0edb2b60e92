//! The log of a node that neither leads nor follows.
ghost use Rattle.std.specs.Prelude.{◌≡◌, ◌<◌, ◌≤◌, []};
ghost use Rattle.tcs_terms.specs.declared.limits.TheConstants.{MAX_EPOCH};
ghost use Rattle.protocol.specs.Log.{marked, mark_of};
ghost use Rattle.cert_log.specs.Fencing.{IsPromise, least_after};

use crate::log::CertLog;
use std::alloc::Global;
use std::marker::Model;
use tcs_laws::VoteGuard;
use tcs_terms::{Epoch, Slot};

/// A log to which no call adds a row. It keeps the last epoch in which its node was initialised, 0 if never, and the
/// greatest one that the node promised: a later one, or 0 where there was none.
#[derive(Debug, Drop)]
pub struct Fenced<G: VoteGuard> {
    log: CertLog<G>,
    state: Epoch,
    promised: Epoch,
}

impl<G: VoteGuard> Model for Fenced<G> {
    ghost use Rattle.cert_log.specs.Fencing.{FencedState, IsPromise};

    ghost Value = { FencedState };

    ghost view = { λ f. record { state = f.state; promised = f.promised; rows = f.log } };

    ghost invariant = { λ f. IsPromise f.state f.promised };
}

impl<G: VoteGuard> Fenced<G> {
    /// The empty log of a node that never was initialised and has promised nothing.
    pub fn first(alloc: Global) -> Fenced<G>
        ensures { result ≡ record { state = 0; promised = 0; rows = [] } }
    {
        Fenced {
            log: CertLog::new(alloc),
            state: 0,
            promised: 0,
        }
    }

    /// Shuts a log whose node was initialised in the epoch `state`, and promised a later one.
    pub fn rejoin(log: CertLog<G>, state: Epoch, promised: Epoch) -> Fenced<G>
        requires above { state < promised }
        requires fits { promised ≤ MAX_EPOCH }
        ensures { result ≡ record { state = state; promised = promised; rows = log } }
    {
        Fenced {
            log,
            state,
            promised,
        }
    }

    /// The same log under a promise of an epoch that may still be promised.
    pub fn fence(self, epoch: Epoch) -> Fenced<G>
        requires least { least_after self.state self.promised ≤ epoch }
        requires fits { epoch ≤ MAX_EPOCH }
        ensures { result ≡ record self { promised = epoch } }
    {
        Fenced {
            promised: epoch,
            ..self
        }
    }

    /// Marks the row of a slot, as `CertLog::mark` does.
    pub fn mark(&mut self, slot: Slot, commit: bool)
        ensures { self.new ≡ record self.old { rows = marked self.old.rows slot (mark_of commit) } }
    {
        self.log.mark(slot, commit);
    }

    pub fn log(&self) -> &CertLog<G>
        ensures { result.now ≡ self.now.rows }
    {
        &self.log
    }

    pub fn into_log(self) -> CertLog<G>
        ensures { result ≡ self.rows }
    {
        self.log
    }

    /// The last epoch in which the node was initialised, 0 if never.
    pub fn state(&self) -> Epoch
        ensures state { result ≡ self.now.state }
        ensures promise { IsPromise self.now.state self.now.promised }
    {
        self.state
    }

    /// The greatest epoch that the node promised, 0 if none.
    pub fn promised(&self) -> Epoch
        ensures promised { result ≡ self.now.promised }
        ensures promise { IsPromise self.now.state self.now.promised }
    {
        self.promised
    }
}
