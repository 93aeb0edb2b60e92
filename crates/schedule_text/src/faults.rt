//! Why a line is not taken.
ghost use Rattle.std.specs.Prelude.{◌≡◌, Err};
ghost use Rattle.schedule_text.specs.declared.faults.LineFault.TheVariants.{Bad};

use std::alloc::{AllocError, AllocFailed};
use tcs_terms::OutOfMemory;
use text_words::{Reason, Stop};
use thiserror::Error;

/// Why a line is not taken.
#[derive(Clone, Copy, Debug, PartialEq, Eq, Error)]
pub enum LineFault {
    /// It may not stand there: the reason that belongs to its first word that does not fit.
    #[error("bad line: {0}")]
    Bad(Reason),
    #[error("out of memory")]
    OutOfMemory,
}

impl From<OutOfMemory> for LineFault {
    ghost use Rattle.schedule_text.specs.declared.faults.LineFault.TheVariants.{OutOfMemory};

    ghost from_gives = { λ _ fault. fault ≡ OutOfMemory };

    fn from(_: OutOfMemory) -> LineFault {
        LineFault::OutOfMemory
    }
}

impl From<Stop> for LineFault {
    ghost use Rattle.schedule_text.specs.Words.{line_fault};

    ghost from_gives = { λ stop fault. fault ≡ line_fault stop };

    fn from(stop: Stop) -> LineFault {
        match stop {
            Stop::OutOfMemory => LineFault::OutOfMemory,
            Stop::Misfit { reason, .. } => LineFault::Bad(reason),
        }
    }
}

impl From<AllocError> for LineFault {
    ghost use Rattle.schedule_text.specs.declared.faults.LineFault.TheVariants.{OutOfMemory};

    ghost from_gives = { λ _ fault. fault ≡ OutOfMemory };

    fn from(_: AllocError) -> LineFault {
        LineFault::OutOfMemory
    }
}

impl<T: Drop> From<AllocFailed<T>> for LineFault {
    ghost use Rattle.schedule_text.specs.declared.faults.LineFault.TheVariants.{OutOfMemory};

    ghost from_gives = { λ _ fault. fault ≡ OutOfMemory };

    fn from(_: AllocFailed<T>) -> LineFault {
        LineFault::OutOfMemory
    }
}

/// The first word that does not fit has this reason.
pub(crate) fn bad<T>(reason: Reason) -> Result<T, LineFault>
    ensures { result ≡ Err (Bad reason) }
{
    Err(LineFault::Bad(reason))
}
