//! Traps.

/// Why an instruction ended its thread.
#[derive(Clone, Copy, Debug, PartialEq, Eq)]
pub enum Trap {
    /// A division or a remainder by 0.
    DivZero,
    /// An index that is not below the array's size.
    Range,
    /// An `enter` of a monitor that the thread holds.
    Again,
    /// An `exit` of a monitor that the thread does not hold.
    NotHeld,
    /// A `halt` while the thread holds a monitor.
    HeldAtHalt,
}
