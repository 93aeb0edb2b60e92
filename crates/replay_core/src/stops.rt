//! Why a replay stops.
ghost use Rattle.std.specs.Prelude.{◌≡◌};
ghost use Rattle.replay_core.specs.declared.stops.ReplayStop.TheVariants.{OutOfMemory};

use crate::runs::RunStop;
use schedule_text::LinesStop;
use std::alloc::AllocError;
use tcs_io::SinkStop;
use tcs_terms::OutOfMemory;
use text_words::Reason;
use thiserror::Error;

/// Why a replay ended before its end.
#[derive(Clone, Copy, Debug, PartialEq, Eq, Error)]
pub enum ReplayStop {
    /// This line, from 1, is the first that may not stand where it stands.
    #[error("bad line {line}: {reason}")]
    Bad { line: u32, reason: Reason },
    /// Reading failed. Its cause stays with the source, which counts it.
    #[error("read fault")]
    ReadFault,
    /// Writing failed. Its cause stays with the sink, which counts it.
    #[error("write fault")]
    WriteFault,
    /// With the next event the frames of the run would have this many bytes, which is above the limit.
    #[error("full: {0} bytes")]
    Full(u64),
    #[error("out of memory")]
    OutOfMemory,
}

impl From<OutOfMemory> for ReplayStop {
    ghost from_gives = { λ _ stop. stop ≡ OutOfMemory };

    fn from(_: OutOfMemory) -> ReplayStop {
        ReplayStop::OutOfMemory
    }
}

impl From<AllocError> for ReplayStop {
    ghost from_gives = { λ _ stop. stop ≡ OutOfMemory };

    fn from(_: AllocError) -> ReplayStop {
        ReplayStop::OutOfMemory
    }
}

impl From<LinesStop> for ReplayStop {
    ghost use Rattle.replay_core.specs.Steps.{stop_of_lines};

    ghost from_gives = { λ lines stop. stop ≡ stop_of_lines lines };

    fn from(stop: LinesStop) -> ReplayStop {
        match stop {
            LinesStop::ReadFault => ReplayStop::ReadFault,
            LinesStop::OutOfMemory => ReplayStop::OutOfMemory,
        }
    }
}

impl From<SinkStop> for ReplayStop {
    ghost use Rattle.replay_core.specs.Steps.{stop_of_sink};

    ghost from_gives = { λ sink stop. stop ≡ stop_of_sink sink };

    fn from(stop: SinkStop) -> ReplayStop {
        match stop {
            SinkStop::Failed => ReplayStop::WriteFault,
            SinkStop::OutOfMemory => ReplayStop::OutOfMemory,
        }
    }
}

impl From<RunStop> for ReplayStop {
    ghost use Rattle.replay_core.specs.Steps.{stop_of_run};

    ghost from_gives = { λ run stop. stop ≡ stop_of_run run };

    fn from(stop: RunStop) -> ReplayStop {
        match stop {
            RunStop::Full(sum) => ReplayStop::Full(sum),
            RunStop::OutOfMemory => ReplayStop::OutOfMemory,
        }
    }
}
