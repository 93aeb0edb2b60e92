//! Why no schedule was written.
ghost use Rattle.std.specs.Prelude.{◌≡◌};
ghost use Rattle.restore_core.specs.declared.stops.RestoreStop.TheVariants.{OutOfMemory};

use schedule_text::LinesStop;
use tcs_io::SinkStop;
use tcs_terms::OutOfMemory;
use thiserror::Error;

/// Why the schedule of a file was not written, or not all of it.
#[derive(Clone, Copy, Debug, PartialEq, Eq, Error)]
pub enum RestoreStop {
    /// The line of this number, from 1, is the first that may not stand where it stands, or that is missing at the end.
    #[error("bad backup line {0}")]
    BadBackup(u32),
    /// Reading failed. Its cause stays with the source, which counts it.
    #[error("read fault")]
    ReadFault,
    /// Writing failed. Its cause stays with the sink, which counts it.
    #[error("write fault")]
    WriteFault,
    #[error("out of memory")]
    OutOfMemory,
}

impl From<OutOfMemory> for RestoreStop {
    ghost from_gives = { λ _ stop. stop ≡ OutOfMemory };

    fn from(_: OutOfMemory) -> RestoreStop {
        RestoreStop::OutOfMemory
    }
}

impl From<LinesStop> for RestoreStop {
    ghost use Rattle.restore_core.specs.Stops.{stop_of_lines};

    ghost from_gives = { λ lines stop. stop ≡ stop_of_lines lines };

    fn from(stop: LinesStop) -> RestoreStop {
        match stop {
            LinesStop::ReadFault => RestoreStop::ReadFault,
            LinesStop::OutOfMemory => RestoreStop::OutOfMemory,
        }
    }
}

impl From<SinkStop> for RestoreStop {
    ghost use Rattle.restore_core.specs.Stops.{stop_of_sink};

    ghost from_gives = { λ sink stop. stop ≡ stop_of_sink sink };

    fn from(stop: SinkStop) -> RestoreStop {
        match stop {
            SinkStop::Failed => RestoreStop::WriteFault,
            SinkStop::OutOfMemory => RestoreStop::OutOfMemory,
        }
    }
}
