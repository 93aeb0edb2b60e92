//! The index with each of the three rules.

use crate::index::ConflictIndex;
use cert_commute::Commute;
use cert_serial::Serial;
use cert_snapshot::Snapshot;

/// The index with the serial rule.
pub type SerialIndex = ConflictIndex<Serial>;
/// The index with the snapshot rule.
pub type SnapshotIndex = ConflictIndex<Snapshot>;
/// The index with the rule in which additions commute.
pub type CommuteIndex = ConflictIndex<Commute>;
