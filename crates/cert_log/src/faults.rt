//! Why a leader could not prepare a transaction.
ghost use Rattle.std.specs.Prelude.{◌≡◌};
ghost use Rattle.cert_log.specs.declared.faults.PrepareFault.TheVariants as prepare_faults;

use tcs_terms::OutOfMemory;
use thiserror::Error;

/// Why a transaction could not be prepared.
#[derive(Clone, Copy, Debug, PartialEq, Eq, Error)]
pub enum PrepareFault {
    /// It is new, and the last slot is taken.
    #[error("the last slot of the log is taken")]
    Full,
    #[error("out of memory")]
    OutOfMemory,
}

impl From<OutOfMemory> for PrepareFault {
    ghost from_gives = { λ _ fault. fault ≡ prepare_faults.OutOfMemory };

    fn from(_: OutOfMemory) -> PrepareFault {
        PrepareFault::OutOfMemory
    }
}
