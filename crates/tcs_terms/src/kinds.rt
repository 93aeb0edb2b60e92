//! The kinds of messages.
ghost use Rattle.std.specs.Prelude.{◌≡◌, ◌≤◌, Some};
ghost use Rattle.tcs_terms.specs.Kinds.{kind_of, kind_number, kind_numbered, kind_word};

use crate::limits::MAX_KIND;
use crate::messages::Message;
use std::fmt;

/// The kind of a message. Its number, 1 to 17, is the first byte of a frame and stands in a refusal.
#[derive(Clone, Copy, Debug, PartialEq, Eq, Hash)]
pub enum Kind {
    Prepare,
    PrepareAck,
    Accept,
    AcceptAck,
    Decision,
    Probe,
    ProbeAck,
    NewConfig,
    NewState,
    ConfigChange,
    Last,
    At,
    Cas,
    Stored,
    Outcome,
    Refused,
    StatePiece,
}

impl Kind {
    /// Its number, from 1.
    pub fn number(self) -> u8
        ensures number { result ≡ kind_number self }
        ensures some { 1 ≤ result }
        ensures few { result ≤ MAX_KIND }
        ensures back { kind_numbered result ≡ Some self }
    {
        match self {
            Kind::Prepare => 1,
            Kind::PrepareAck => 2,
            Kind::Accept => 3,
            Kind::AcceptAck => 4,
            Kind::Decision => 5,
            Kind::Probe => 6,
            Kind::ProbeAck => 7,
            Kind::NewConfig => 8,
            Kind::NewState => 9,
            Kind::ConfigChange => 10,
            Kind::Last => 11,
            Kind::At => 12,
            Kind::Cas => 13,
            Kind::Stored => 14,
            Kind::Outcome => 15,
            Kind::Refused => 16,
            Kind::StatePiece => 17,
        }
    }

    /// The kind of that number, where it is 1 to 17.
    pub fn numbered(number: u8) -> Option<Kind>
        ensures { result ≡ kind_numbered number }
    {
        match number {
            1 => Some(Kind::Prepare),
            2 => Some(Kind::PrepareAck),
            3 => Some(Kind::Accept),
            4 => Some(Kind::AcceptAck),
            5 => Some(Kind::Decision),
            6 => Some(Kind::Probe),
            7 => Some(Kind::ProbeAck),
            8 => Some(Kind::NewConfig),
            9 => Some(Kind::NewState),
            10 => Some(Kind::ConfigChange),
            11 => Some(Kind::Last),
            12 => Some(Kind::At),
            13 => Some(Kind::Cas),
            14 => Some(Kind::Stored),
            15 => Some(Kind::Outcome),
            16 => Some(Kind::Refused),
            17 => Some(Kind::StatePiece),
            _ => None,
        }
    }

    /// Its printed name.
    pub fn word(self) -> &'static str
        ensures { result.now ≡ kind_word self }
    {
        match self {
            Kind::Prepare => "PREPARE",
            Kind::PrepareAck => "PREPARE_ACK",
            Kind::Accept => "ACCEPT",
            Kind::AcceptAck => "ACCEPT_ACK",
            Kind::Decision => "DECISION",
            Kind::Probe => "PROBE",
            Kind::ProbeAck => "PROBE_ACK",
            Kind::NewConfig => "NEW_CONFIG",
            Kind::NewState => "NEW_STATE",
            Kind::ConfigChange => "CONFIG_CHANGE",
            Kind::Last => "LAST",
            Kind::At => "AT",
            Kind::Cas => "CAS",
            Kind::Stored => "STORED",
            Kind::Outcome => "OUTCOME",
            Kind::Refused => "REFUSED",
            Kind::StatePiece => "STATE_PIECE",
        }
    }
}

impl fmt::Display for Kind {
    ghost output = { λ kind. Some (kind_word kind) };

    fn fmt<W: fmt::Write>(&self, f: &mut fmt::Formatter<W>) -> fmt::Result {
        f.write_str(self.word())
    }
}

impl Message {
    /// The kind of the message.
    pub fn kind(&self) -> Kind
        ensures { result ≡ kind_of self.now }
    {
        match self {
            Message::Prepare { .. } => Kind::Prepare,
            Message::PrepareAck { .. } => Kind::PrepareAck,
            Message::Accept { .. } => Kind::Accept,
            Message::AcceptAck { .. } => Kind::AcceptAck,
            Message::DecisionFor { .. } => Kind::Decision,
            Message::Probe { .. } => Kind::Probe,
            Message::ProbeAck { .. } => Kind::ProbeAck,
            Message::NewConfig { .. } => Kind::NewConfig,
            Message::NewState { .. } => Kind::NewState,
            Message::ConfigChange { .. } => Kind::ConfigChange,
            Message::Last { .. } => Kind::Last,
            Message::At { .. } => Kind::At,
            Message::Cas { .. } => Kind::Cas,
            Message::Stored { .. } => Kind::Stored,
            Message::OutcomeOf { .. } => Kind::Outcome,
            Message::Refused { .. } => Kind::Refused,
            Message::StatePiece { .. } => Kind::StatePiece,
        }
    }
}
