//! Which schedule is generated.

/// Which schedule is generated: by its seed, and of how many events, at most 50,000.
#[derive(Clone, Copy, Debug)]
pub(crate) struct Plan {
    pub(crate) seed: u64,
    pub(crate) count: u32,
}
