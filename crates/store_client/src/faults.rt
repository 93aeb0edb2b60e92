//! Why a session refuses a call.
ghost use Rattle.std.specs.Prelude.{◌≡◌};
ghost use Rattle.store_client.specs.declared.faults.SessionFault.TheVariants.{OutOfMemory as no_memory};

use std::alloc::AllocFailed;
use tcs_terms::OutOfMemory;
use thiserror::Error;

/// Why a session refuses a call, and stays as it was.
#[derive(Clone, Copy, Debug, PartialEq, Eq, Error)]
pub enum SessionFault {
    /// The payload was handed out already.
    #[error("the session is not active")]
    NotActive,
    /// No payload was handed out, or its outcome is known.
    #[error("the session does not wait for an outcome")]
    NotWaiting,
    /// The object was read before.
    #[error("the object was read before")]
    Twice,
    /// As many objects were read as a payload may read.
    #[error("too many objects are read")]
    TooMany,
    /// The object was not read.
    #[error("the object was not read")]
    Unread,
    /// Nothing was read.
    #[error("nothing was read")]
    Empty,
    /// No version is above the greatest that was read.
    #[error("no version is left")]
    VersionSpent,
    #[error("out of memory")]
    OutOfMemory,
}

impl From<OutOfMemory> for SessionFault {
    ghost from_gives = { λ _ fault. fault ≡ no_memory };

    fn from(_: OutOfMemory) -> Self {
        SessionFault::OutOfMemory
    }
}

impl<T: Drop> From<AllocFailed<T>> for SessionFault {
    ghost from_gives = { λ _ fault. fault ≡ no_memory };

    fn from(_: AllocFailed<T>) -> Self {
        SessionFault::OutOfMemory
    }
}
