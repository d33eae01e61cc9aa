//! How a thread ends.

use crate::trap::Trap;

/// How a thread ended.
#[derive(Clone, Copy, Debug, PartialEq, Eq)]
pub enum End {
    /// By its `halt`.
    Halted,
    /// By a trap of the instruction at `pc`, which is counted.
    Trapped { trap: Trap, pc: u32 },
    /// By using up its fuel.
    OutOfSteps,
    /// By being given up at the shared instruction at `pc`, which is not counted.
    Stopped { pc: u32 },
}
