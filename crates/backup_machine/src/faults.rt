//! Why a backup refuses a call.
ghost use Rattle.std.specs.Prelude.{◌≡◌};
ghost use Rattle.backup_machine.specs.declared.faults.BackupFault.TheVariants.{OutOfMemory as no_memory};

use std::alloc::AllocFailed;
use tcs_terms::OutOfMemory;
use thiserror::Error;

/// Why a backup refuses a call, and stays as it was.
#[derive(Clone, Copy, Debug, PartialEq, Eq, Error)]
pub enum BackupFault {
    /// The range is empty: it does not begin before its end.
    #[error("the range is empty")]
    Span,
    /// A slice is not 1 to 16 objects wide.
    #[error("the width of a slice is out of range")]
    Width,
    /// The payloads were handed out already.
    #[error("the backup is not active")]
    NotActive,
    /// The name is not one of the range.
    #[error("the name is out of the range")]
    Outside,
    /// The name does not stand behind the last one.
    #[error("names do not ascend")]
    Order,
    /// No version is above that of the object.
    #[error("no version is left")]
    VersionSpent,
    /// As many objects are kept as a backup may have.
    #[error("too many objects are kept")]
    TooMany,
    /// The payloads were not handed out, the slice is not there, or its outcome is known.
    #[error("the backup does not wait for this outcome")]
    NotWaiting,
    #[error("out of memory")]
    OutOfMemory,
}

impl From<OutOfMemory> for BackupFault {
    ghost from_gives = { λ _ fault. fault ≡ no_memory };

    fn from(_: OutOfMemory) -> Self {
        BackupFault::OutOfMemory
    }
}

impl<T: Drop> From<AllocFailed<T>> for BackupFault {
    ghost from_gives = { λ _ fault. fault ≡ no_memory };

    fn from(_: AllocFailed<T>) -> Self {
        BackupFault::OutOfMemory
    }
}
