//! The defaults of the settings of a run.

/// How many instructions each thread may make, where the words don't set it.
pub const FUEL: u32 = 100_000;

/// After how many odd looks in a row a thread gives up, where the words don't set it.
pub const PATIENCE: u32 = 100_000;
