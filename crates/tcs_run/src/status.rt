//! How a run of the program ends.
ghost use Rattle.std.specs.Prelude.{◌≡◌};
ghost use Rattle.tcs_run.specs.Status.{exit_number};

use audit_core::AuditStop;
use judge::Verdict;
use quorum_config::QuorumStop;
use replay_core::ReplayStop;
use restore_core::RestoreStop;
use std::fmt::{self, Display, Formatter};
use text_words::Reason;
use workload::GenStop;

/// How a run of the program ended. The program exits with its number, and its text goes to standard error where the number
/// is above 1.
#[derive(Clone, Copy, Debug, PartialEq, Eq)]
pub enum Status {
    /// All of the input was read, and all that belongs to it was written.
    Ok,
    /// The trace is not that of a correct history.
    Incorrect,
    /// The words name no command.
    BadWords,
    /// This line of the schedule, from 1, is the first outside the grammar, for this reason.
    Bad { line: u32, reason: Reason },
    /// This line of the trace, from 1, is the first that may not stand in one, or is missing.
    BadTrace(u32),
    /// This line of the input of the quorum store, from 1, is the first outside the grammar.
    BadQuorum(u32),
    /// This line of the backup file, from 1, is the first that may not stand in one, or is missing.
    BadBackup(u32),
    /// Reading failed.
    ReadFault,
    /// Writing failed.
    WriteFault,
    OutOfMemory,
    /// With the next event the frames of the run would have this many bytes, which is above the limit.
    Full(u64),
}

impl Status {
    /// The exit number: 0 for `Ok`, and from 1 to 7 for the others.
    pub fn code(self) -> u8
        ensures { result ≡ exit_number self }
    {
        match self {
            Status::Ok => 0,
            Status::Incorrect => 1,
            Status::BadWords => 2,
            Status::Bad { .. }
            | Status::BadTrace(_)
            | Status::BadQuorum(_)
            | Status::BadBackup(_) => 3,
            Status::ReadFault => 4,
            Status::WriteFault => 5,
            Status::OutOfMemory => 6,
            Status::Full(_) => 7,
        }
    }
}

impl From<ReplayStop> for Status {
    ghost use Rattle.std.specs.Prelude.{◌≡◌};
    ghost use Rattle.tcs_run.specs.Status.{status_of};

    ghost from_gives = { λ stop status. status ≡ status_of stop };

    fn from(stop: ReplayStop) -> Status {
        match stop {
            ReplayStop::Bad { line, reason } => Status::Bad { line, reason },
            ReplayStop::ReadFault => Status::ReadFault,
            ReplayStop::WriteFault => Status::WriteFault,
            ReplayStop::OutOfMemory => Status::OutOfMemory,
            ReplayStop::Full(bytes) => Status::Full(bytes),
        }
    }
}

impl From<Verdict> for Status {
    ghost use Rattle.std.specs.Prelude.{◌≡◌};
    ghost use Rattle.tcs_run.specs.Status.{status_of_verdict};

    ghost from_gives = { λ verdict status. status ≡ status_of_verdict verdict };

    fn from(verdict: Verdict) -> Status {
        match verdict {
            Verdict::Correct { .. } => Status::Ok,
            Verdict::Incorrect { .. } => Status::Incorrect,
        }
    }
}

impl From<AuditStop> for Status {
    ghost use Rattle.std.specs.Prelude.{◌≡◌};
    ghost use Rattle.tcs_run.specs.Status.{status_of_audit};

    ghost from_gives = { λ stop status. status ≡ status_of_audit stop };

    fn from(stop: AuditStop) -> Status {
        match stop {
            AuditStop::BadTrace(line) => Status::BadTrace(line),
            AuditStop::ReadFault => Status::ReadFault,
            AuditStop::WriteFault => Status::WriteFault,
            AuditStop::OutOfMemory => Status::OutOfMemory,
        }
    }
}

impl From<QuorumStop> for Status {
    ghost use Rattle.std.specs.Prelude.{◌≡◌};
    ghost use Rattle.tcs_run.specs.Status.{status_of_quorum};

    ghost from_gives = { λ stop status. status ≡ status_of_quorum stop };

    fn from(stop: QuorumStop) -> Status {
        match stop {
            QuorumStop::Bad(line) => Status::BadQuorum(line),
            QuorumStop::ReadFault => Status::ReadFault,
            QuorumStop::WriteFault => Status::WriteFault,
            QuorumStop::OutOfMemory => Status::OutOfMemory,
        }
    }
}

impl From<GenStop> for Status {
    ghost use Rattle.std.specs.Prelude.{◌≡◌};
    ghost use Rattle.tcs_run.specs.Status.{status_of_generation};

    ghost from_gives = { λ stop status. status ≡ status_of_generation stop };

    fn from(stop: GenStop) -> Status {
        match stop {
            GenStop::WriteFault => Status::WriteFault,
            GenStop::OutOfMemory => Status::OutOfMemory,
            GenStop::Full(bytes) => Status::Full(bytes),
        }
    }
}

impl From<RestoreStop> for Status {
    ghost use Rattle.std.specs.Prelude.{◌≡◌};
    ghost use Rattle.tcs_run.specs.Status.{status_of_restore};

    ghost from_gives = { λ stop status. status ≡ status_of_restore stop };

    fn from(stop: RestoreStop) -> Status {
        match stop {
            RestoreStop::BadBackup(line) => Status::BadBackup(line),
            RestoreStop::ReadFault => Status::ReadFault,
            RestoreStop::WriteFault => Status::WriteFault,
            RestoreStop::OutOfMemory => Status::OutOfMemory,
        }
    }
}

impl Display for Status {
    ghost use Rattle.std.specs.Prelude.{Some};
    ghost use Rattle.tcs_run.specs.Status.{status_text};

    ghost output = { λ status. Some (status_text status) };

    fn fmt<W: fmt::Write>(&self, f: &mut Formatter<W>) -> fmt::Result {
        match *self {
            Status::Ok => f.write_str("ok"),
            Status::Incorrect => f.write_str("incorrect"),
            Status::BadWords => f.write_str("bad words"),
            Status::Bad { line, reason } => write!(f, "bad line {line}: {reason}"),
            Status::BadTrace(line) => write!(f, "bad trace line {line}"),
            Status::BadQuorum(line) => write!(f, "bad quorum line {line}"),
            Status::BadBackup(line) => write!(f, "bad backup line {line}"),
            Status::ReadFault => f.write_str("read fault"),
            Status::WriteFault => f.write_str("write fault"),
            Status::OutOfMemory => f.write_str("out of memory"),
            Status::Full(bytes) => write!(f, "full: {bytes} bytes"),
        }
    }
}
