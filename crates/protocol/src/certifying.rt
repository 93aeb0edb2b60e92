//! What the rules of certification make of transactions. Each function has an empty body: its contract is what computing the run shows.
#![tactic(auto, unfolding(crate::proofs::OpenAll::open_all))]

ghost use Rattle.protocol.specs.Worked.WriteSkewSerial.{WriteSkewSerialShows};
ghost use Rattle.protocol.specs.Worked.WriteSkewSnapshot.{WriteSkewSnapshotShows};
ghost use Rattle.protocol.specs.Worked.CommutingAdditions.{CommutingAdditionsShows};
ghost use Rattle.protocol.specs.Worked.CommutingAdditionsSerial.{CommutingAdditionsSerialShows};
ghost use Rattle.protocol.specs.Worked.CommutingAdditionsVersion2.{CommutingAdditionsVersion2Shows};
ghost use Rattle.protocol.specs.Worked.RangeReads.{RangeReadsShows};
ghost use Rattle.protocol.specs.Worked.BackupRun.{BackupRunShows};
ghost use Rattle.protocol.specs.Worked.RestoredSchedule.{RestoredScheduleShows};
ghost use Rattle.protocol.specs.Worked.BackupAttemptAborts.{BackupAttemptAbortsShows};

/// Write skew: under the serial rule the second transaction aborts.
pub fn write_skew_serial()
    ensures { WriteSkewSerialShows }
{}

/// Write skew: under the snapshot rule both commit.
pub fn write_skew_snapshot()
    ensures { WriteSkewSnapshotShows }
{}

/// Two additions to one counter commit; a read of the counter from before them aborts.
pub fn commuting_additions()
    ensures { CommutingAdditionsShows }
{}

/// Two additions to one counter under the serial rule: the second aborts.
pub fn commuting_additions_serial()
    ensures { CommutingAdditionsSerialShows }
{}

/// Two additions to one counter commit under version 2.
pub fn commuting_additions_version_2()
    ensures { CommutingAdditionsVersion2Shows }
{}

/// Range reads clash with prepared and with committed writes in the range.
pub fn range_reads()
    ensures { RangeReadsShows }
{}

/// Reads of two objects and of a range, after two commits.
pub fn backup_run()
    ensures { BackupRunShows }
{}

/// Two transactions that put back what was kept.
pub fn restored_schedule()
    ensures { RestoredScheduleShows }
{}

/// A range read against a prepared write in the range aborts.
pub fn backup_attempt_aborts()
    ensures { BackupAttemptAbortsShows }
{}
