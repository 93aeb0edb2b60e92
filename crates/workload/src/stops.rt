//! Why a generated run stops.
ghost use Rattle.std.specs.Prelude.{◌≡◌};
ghost use Rattle.workload.specs.declared.stops.GenStop.TheVariants.{OutOfMemory};

use std::alloc::AllocError;
use tcs_io::SinkStop;
use tcs_terms::OutOfMemory;
use thiserror::Error;
use world::Stop;

/// Why a generated run ended before its end.
#[derive(Clone, Copy, Debug, PartialEq, Eq, Error)]
pub enum GenStop {
    /// Writing failed. Its cause stays with the sink, which counts it.
    #[error("write fault")]
    WriteFault,
    /// With the next event the frames of the run would have this many bytes, which is above the limit.
    #[error("full: {0} bytes")]
    Full(u64),
    #[error("out of memory")]
    OutOfMemory,
}

impl From<OutOfMemory> for GenStop {
    ghost from_gives = { λ _ stop. stop ≡ OutOfMemory };

    fn from(_: OutOfMemory) -> GenStop {
        GenStop::OutOfMemory
    }
}

impl From<AllocError> for GenStop {
    ghost from_gives = { λ _ stop. stop ≡ OutOfMemory };

    fn from(_: AllocError) -> GenStop {
        GenStop::OutOfMemory
    }
}

impl From<SinkStop> for GenStop {
    ghost use Rattle.workload.specs.Stops.{stop_of_sink};

    ghost from_gives = { λ sink stop. stop ≡ stop_of_sink sink };

    fn from(stop: SinkStop) -> GenStop {
        match stop {
            SinkStop::Failed => GenStop::WriteFault,
            SinkStop::OutOfMemory => GenStop::OutOfMemory,
        }
    }
}

impl From<Stop> for GenStop {
    ghost use Rattle.workload.specs.Stops.{stop_of_run};

    ghost from_gives = { λ run stop. stop ≡ stop_of_run run };

    fn from(stop: Stop) -> GenStop {
        match stop {
            Stop::SoupFull(sum) => GenStop::Full(sum),
            Stop::OutOfMemory => GenStop::OutOfMemory,
        }
    }
}
