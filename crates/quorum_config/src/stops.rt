//! Why a run of the quorum store ended before its end.
ghost use Rattle.std.specs.Prelude.{◌≡◌};
ghost use Rattle.quorum_config.specs.declared.stops.QuorumStop.TheVariants.{OutOfMemory};

use schedule_text::LinesStop;
use std::alloc::AllocError;
use tcs_io::SinkStop;
use tcs_terms::OutOfMemory;
use thiserror::Error;

/// Why the run of an input ended before its end.
#[derive(Clone, Copy, Debug, PartialEq, Eq, Error)]
pub enum QuorumStop {
    /// The line of this number, from 1, is the first that may not stand where it stands.
    #[error("bad quorum line {0}")]
    Bad(u32),
    /// Reading failed. Its cause stays with the source, which counts it.
    #[error("read fault")]
    ReadFault,
    /// Writing failed. Its cause stays with the sink, which counts it.
    #[error("write fault")]
    WriteFault,
    #[error("out of memory")]
    OutOfMemory,
}

impl From<OutOfMemory> for QuorumStop {
    ghost from_gives = { λ _ stop. stop ≡ OutOfMemory };

    fn from(_: OutOfMemory) -> QuorumStop {
        QuorumStop::OutOfMemory
    }
}

impl From<AllocError> for QuorumStop {
    ghost from_gives = { λ _ stop. stop ≡ OutOfMemory };

    fn from(_: AllocError) -> QuorumStop {
        QuorumStop::OutOfMemory
    }
}

impl From<LinesStop> for QuorumStop {
    ghost use Rattle.quorum_config.specs.Standing.{stop_of_lines};

    ghost from_gives = { λ lines stop. stop ≡ stop_of_lines lines };

    fn from(stop: LinesStop) -> QuorumStop {
        match stop {
            LinesStop::ReadFault => QuorumStop::ReadFault,
            LinesStop::OutOfMemory => QuorumStop::OutOfMemory,
        }
    }
}

impl From<SinkStop> for QuorumStop {
    ghost use Rattle.quorum_config.specs.Standing.{stop_of_sink};

    ghost from_gives = { λ sink stop. stop ≡ stop_of_sink sink };

    fn from(stop: SinkStop) -> QuorumStop {
        match stop {
            SinkStop::Failed => QuorumStop::WriteFault,
            SinkStop::OutOfMemory => QuorumStop::OutOfMemory,
        }
    }
}
