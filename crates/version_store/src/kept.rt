//! What is kept of the objects: one committed write of each.

use std::collections::BTreeMap;
use tcs_terms::{Name, Slot, Value};

/// A committed write of an object: its version, at least 1, the slot of its row, and the value.
#[derive(Debug, Drop)]
pub struct Kept {
    pub version: u64,
    pub slot: Slot,
    pub value: Value,
}

/// The write that is kept of each object, in the order of the bytes of names.
pub type Writes = BTreeMap<Name, Kept>;
