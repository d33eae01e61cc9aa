//! How much an instruction may do.

/// The most bytes that one instruction prints: the digits of a word and a line feed.
pub const LINE_LIMIT: usize = 21;
