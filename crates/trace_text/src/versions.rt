//! Which messages may stand in a trace of a version.
ghost use Rattle.std.specs.Prelude.{◌≡◌};
ghost use Rattle.std.specs.List.{list_all};
ghost use Rattle.trace_text.specs.Versions.{payload_fits, row_fits, message_fits};

use tcs_terms::{Message, Payload, Row};

fn payload_fits(version: u8, payload: &Option<Payload>) -> bool
    ensures { result ≡ payload_fits version payload.now }
{
    match payload {
        Some(payload) => version == 2 || payload.ranges().is_empty(),
        None => true,
    }
}

fn rows_fit(version: u8, rows: &[Row]) -> bool
    ensures { result ≡ list_all (row_fits version) rows.now }
{
    rows.iter()
        .all(|row| payload_fits(version, &row.entry.payload))
}

/// Whether a message may stand in a trace of this version: version 1 has no ranges and no piece of a state, version 2
/// no whole state.
pub(crate) fn message_fits(version: u8, message: &Message) -> bool
    ensures { result ≡ message_fits version message.now }
{
    match message {
        Message::Prepare { payload, .. } => payload_fits(version, payload),
        Message::PrepareAck { entry, .. } => payload_fits(version, &entry.payload),
        Message::Accept { entry, .. } => payload_fits(version, &entry.payload),
        Message::NewState { rows, .. } => version == 1 && rows_fit(version, rows.list()),
        Message::StatePiece { .. } => version == 2,
        Message::AcceptAck { .. } => true,
        Message::DecisionFor { .. } => true,
        Message::Probe { .. } => true,
        Message::ProbeAck { .. } => true,
        Message::NewConfig { .. } => true,
        Message::ConfigChange { .. } => true,
        Message::Last { .. } => true,
        Message::At { .. } => true,
        Message::Cas { .. } => true,
        Message::Stored { .. } => true,
        Message::OutcomeOf { .. } => true,
        Message::Refused { .. } => true,
    }
}
