//! Why a schedule is not stepped.

use thiserror::Error;

#[derive(Clone, Copy, Debug, Error)]
pub enum Misfit {
    #[error("a header without an end")]
    Header,
    #[error("an event that does not fit")]
    Event,
}
