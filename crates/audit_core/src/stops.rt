//! Why an audit stops.
ghost use Rattle.std.specs.Prelude.{◌≡◌};
ghost use Rattle.audit_core.specs.declared.stops.AuditStop.TheVariants.{OutOfMemory};

use schedule_text::LinesStop;
use std::alloc::{AllocError, AllocFailed};
use tcs_io::SinkStop;
use tcs_terms::OutOfMemory;
use thiserror::Error;

/// Why an audit ended without its verdict being written.
#[derive(Clone, Copy, Debug, PartialEq, Eq, Error)]
pub enum AuditStop {
    /// The number of the first line, from 1, that may not stand in a trace, or that is missing at its end.
    #[error("bad trace line {0}")]
    BadTrace(u32),
    /// Reading failed. Its cause stays with the source, which counts it.
    #[error("read fault")]
    ReadFault,
    /// Writing failed. Its cause stays with the sink, which counts it.
    #[error("write fault")]
    WriteFault,
    #[error("out of memory")]
    OutOfMemory,
}

impl From<LinesStop> for AuditStop {
    ghost use Rattle.audit_core.specs.Stops.{stop_of_lines};

    ghost from_gives = { λ lines stop. stop ≡ stop_of_lines lines };

    fn from(stop: LinesStop) -> AuditStop {
        match stop {
            LinesStop::ReadFault => AuditStop::ReadFault,
            LinesStop::OutOfMemory => AuditStop::OutOfMemory,
        }
    }
}

impl From<SinkStop> for AuditStop {
    ghost use Rattle.audit_core.specs.Stops.{stop_of_sink};

    ghost from_gives = { λ sink stop. stop ≡ stop_of_sink sink };

    fn from(stop: SinkStop) -> AuditStop {
        match stop {
            SinkStop::Failed => AuditStop::WriteFault,
            SinkStop::OutOfMemory => AuditStop::OutOfMemory,
        }
    }
}

impl From<OutOfMemory> for AuditStop {
    ghost from_gives = { λ _ stop. stop ≡ OutOfMemory };

    fn from(_: OutOfMemory) -> AuditStop {
        AuditStop::OutOfMemory
    }
}

impl From<AllocError> for AuditStop {
    ghost from_gives = { λ _ stop. stop ≡ OutOfMemory };

    fn from(_: AllocError) -> AuditStop {
        AuditStop::OutOfMemory
    }
}

impl<T: Drop> From<AllocFailed<T>> for AuditStop {
    ghost from_gives = { λ _ stop. stop ≡ OutOfMemory };

    fn from(_: AllocFailed<T>) -> AuditStop {
        AuditStop::OutOfMemory
    }
}
