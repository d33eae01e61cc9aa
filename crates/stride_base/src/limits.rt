//! Limits of the whole program, each of which several crates know.

/// How many bytes the input of a command has at most.
pub const INPUT_LIMIT: usize = 268_435_456;

/// How many members an order of threads has at most.
pub const ORDER_LIMIT: usize = 134_217_728;
