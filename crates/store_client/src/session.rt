//! The session.
ghost use Rattle.std.specs.Prelude.{◌≡◌, [], Some, None, IfOk, IfErr, OnOk, OnErr};
ghost use Rattle.std.specs.Option.{unwrap_or};
ghost use Rattle.store_client.specs.declared.session.SessionState.TheVariants.{Active, Waiting, Ended};
ghost use Rattle.store_client.specs.declared.faults.SessionFault.TheVariants.{OutOfMemory as no_memory};
ghost use Rattle.store_client.specs.Parts.{with_read, with_put, payload_of};
ghost use Rattle.store_client.specs.Sessions.{is_active, is_waiting, value_fault, put_fault, commit_fault, outcome_fault};

use crate::faults::SessionFault;
use crate::parts::{Part, greatest, has, payload_of, place_of, set_put, take_read};
use std::alloc::Global;
use std::marker::Model;
use tcs_terms::limits::MAX_READS;
use tcs_terms::{Decision, Name, Payload, Value};

/// How far a session is.
#[derive(Clone, Copy, Debug, PartialEq, Eq)]
pub enum SessionState {
    /// It takes values and puts.
    Active,
    /// Its payload was handed out.
    Waiting,
    /// The outcome is known.
    Ended,
}

impl SessionState {
    fn is_active(self) -> bool
        ensures { result ≡ is_active self }
    {
        matches!(self, SessionState::Active)
    }

    fn is_waiting(self) -> bool
        ensures { result ≡ is_waiting self }
    {
        matches!(self, SessionState::Waiting)
    }
}

/// A client's transaction: it is given the values of the objects that it reads, puts values to some of these, hands out
/// the payload to be committed, and is told the outcome. A call that is refused changes nothing.
#[derive(Debug, Drop)]
pub struct Session {
    state: SessionState,
    parts: Vec<Part>,
    outcome: Option<Decision>,
}

impl Model for Session {
    ghost use Rattle.store_client.specs.Parts.{AreParts};
    ghost use Rattle.store_client.specs.Sessions.{SessionRecord};

    ghost Value = { SessionRecord };

    ghost view = { λ s. record { state = s.state; parts = s.parts.items; outcome = s.outcome } };

    ghost invariant = { λ s. AreParts s.parts.items };
}

impl Session {
    /// A session that was given nothing.
    pub fn begin(alloc: Global) -> Session
        ensures { result ≡ record { state = Active; parts = []; outcome = None } }
    {
        Session {
            state: SessionState::Active,
            parts: Vec::new(alloc),
            outcome: None,
        }
    }

    pub fn state(&self) -> SessionState
        ensures { result ≡ self.now.state }
    {
        self.state
    }

    /// What was read and put, by name.
    pub fn parts(&self) -> &[Part]
        ensures { result.now ≡ self.now.parts }
    {
        self.parts.as_slice()
    }

    /// The outcome, once it is known.
    pub fn outcome(&self) -> Option<Decision>
        ensures { result ≡ self.now.outcome }
    {
        self.outcome
    }

    /// Takes the version and the value at which an object was read.
    ///
    /// # Errors
    /// The first of these: `NotActive`; `Twice`, where the object was read before; `TooMany`, where it would be the
    /// 17th.
    pub fn on_value(&mut self, name: Name, version: u64, value: Value) -> Result<(), SessionFault>
        ensures ok { OnOk result (value_fault self.old name ≡ None) }
        ensures read { OnOk result (self.new ≡ record self.old {
          parts = with_read (record { name = name; version = version; value = value; put = None }) self.old.parts;
        }) }
        ensures fault { IfErr result (λ fault. fault ≡ unwrap_or (value_fault self.old name) no_memory) }
        ensures kept { OnErr result (self.new ≡ self.old) }
    {
        if !self.state.is_active() {
            return Err(SessionFault::NotActive);
        }
        if has(&self.parts, &name) {
            return Err(SessionFault::Twice);
        }
        if self.parts.len() >= MAX_READS {
            return Err(SessionFault::TooMany);
        }
        let put = None;
        let part = Part {
            name,
            version,
            value,
            put,
        };
        Ok(take_read(&mut self.parts, part)?)
    }

    /// Puts a value to an object that was read, in the place of one that was put before.
    ///
    /// # Errors
    /// The first of these: `NotActive`; `Unread`, where the object was not read.
    pub fn put(&mut self, name: Name, value: Value) -> Result<(), SessionFault>
        ensures ok { OnOk result (put_fault self.old name ≡ None) }
        ensures put { OnOk result (self.new ≡ record self.old { parts = with_put name value self.old.parts }) }
        ensures fault { IfErr result (λ fault. fault ≡ unwrap_or (put_fault self.old name) no_memory) }
        ensures kept { OnErr result (self.new ≡ self.old) }
    {
        if !self.state.is_active() {
            return Err(SessionFault::NotActive);
        }
        match place_of(&self.parts, &name) {
            None => Err(SessionFault::Unread),
            Some(place) => {
                set_put(&mut self.parts, place, &name, value);
                Ok(())
            }
        }
    }

    /// Hands out the payload: it reads what was read, at the versions that were seen, writes the last value put to each
    /// object, and its version is 1 above the greatest that was seen. Then the session waits for the outcome.
    ///
    /// # Errors
    /// The first of these: `NotActive`; `Empty`, where nothing was read; `VersionSpent`, where the greatest version that
    /// was seen is the last one.
    pub fn commit(&mut self) -> Result<Payload, SessionFault>
        ensures ok { OnOk result (commit_fault self.old ≡ None) }
        ensures payload { IfOk result (λ payload. payload ≡ payload_of self.old.parts) }
        ensures waits { OnOk result (self.new ≡ record self.old { state = Waiting }) }
        ensures fault { IfErr result (λ fault. fault ≡ unwrap_or (commit_fault self.old) no_memory) }
        ensures kept { OnErr result (self.new ≡ self.old) }
    {
        if !self.state.is_active() {
            return Err(SessionFault::NotActive);
        }
        if self.parts.is_empty() {
            return Err(SessionFault::Empty);
        }
        let version = match greatest(&self.parts).checked_add(1) {
            None => return Err(SessionFault::VersionSpent),
            Some(version) => version,
        };
        let alloc = *self.parts.allocator();
        let payload = payload_of(alloc, &self.parts, version)?;
        self.state = SessionState::Waiting;
        Ok(payload)
    }

    /// Takes the outcome of the payload.
    ///
    /// # Errors
    /// `NotWaiting`, where no outcome is waited for.
    pub fn on_outcome(&mut self, decision: Decision) -> Result<(), SessionFault>
        ensures ok { OnOk result (outcome_fault self.old ≡ None) }
        ensures ended { OnOk result (self.new ≡ record self.old { state = Ended; outcome = Some decision }) }
        ensures fault { IfErr result (λ fault. outcome_fault self.old ≡ Some fault) }
        ensures kept { OnErr result (self.new ≡ self.old) }
    {
        if !self.state.is_waiting() {
            return Err(SessionFault::NotWaiting);
        }
        self.state = SessionState::Ended;
        self.outcome = Some(decision);
        Ok(())
    }
}
