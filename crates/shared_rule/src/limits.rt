//! Limits of the shared words.

/// How many names are drawn at most.
pub const DRAW_LIMIT: u64 = 2048;

/// How many events a thread finishes at most, exits apart.
pub const EVENT_LIMIT: u32 = 1_000_000;
