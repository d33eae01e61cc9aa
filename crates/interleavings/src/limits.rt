//! Limits of recordings.

/// The most odd looks in a row after which a thread gives up.
pub const PATIENCE_LIMIT: u32 = 10_000_000;
/// More than the number of steps of any run: no number of a run is above it.
pub const STEP_LIMIT: u64 = 1 << 30;
