//! Names of shared words.

/// A shared word, by its cell or its monitor.
#[derive(Clone, Copy, Debug, PartialEq, Eq)]
pub enum Word {
    /// The value of a cell.
    Value(u32),
    /// The number of a cell: twice as many writes and updates as were completed, and one more while one is under way.
    Number(u32),
    /// The word of a monitor: twice as many turns as have ended, and one more while it is held.
    Monitor(u32),
}
