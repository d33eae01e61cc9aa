//! The limits under which a demonstration is recorded.

/// The most instructions that each thread of a demonstration makes.
pub const FUEL: u32 = 100_000;
/// After how many odd looks in a row a thread of a demonstration gives up.
pub const PATIENCE: u32 = 10_000_000;
