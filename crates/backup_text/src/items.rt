//! What a reader of backup files answers.

use backup_machine::Kept;
use tcs_terms::TxId;
use thiserror::Error;

/// What a line of a backup file says.
#[derive(Debug, Drop)]
pub enum BackupItem {
    /// It is the first line.
    Head,
    /// It is the line of a call that was made.
    Call,
    /// It has the place in the order, the transaction before which the objects were seen, or none.
    Place(Option<TxId>),
    /// It has an object.
    Object(Kept),
    /// It is the last line.
    End,
}

/// Why a line of a backup file was not taken.
#[derive(Clone, Copy, Debug, PartialEq, Eq, Error)]
pub enum BackupLineFault {
    /// It may not stand there.
    #[error("the line may not stand there")]
    Bad,
    #[error("out of memory")]
    OutOfMemory,
}
