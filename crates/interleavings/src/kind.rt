//! Kinds of atomic steps.

/// Which atomic step, of the eleven by which a program is recorded.
#[derive(Clone, Copy, Debug, PartialEq, Eq)]
pub enum Kind {
    /// Of a read: loads the value.
    ValueLoad,
    /// Of a read: loads the number of the cell.
    NumberLoad,
    /// Of a write or an update: loads the number of the cell.
    SeeNumber,
    /// Of a write or an update: makes the number odd, if it is still as it was seen.
    Claim,
    /// Of an update: loads the value.
    Fetch,
    /// Of a write or an update: stores the value.
    Put,
    /// Of a write or an update: makes the number even again, one write further.
    Complete,
    /// Of an entry: looks whether the monitor is free.
    Look,
    /// Of an entry: takes the monitor, if it is still as it was seen.
    Enter,
    /// Of an exit: gives the monitor back.
    Leave,
    /// Draws the thread's name.
    Draw,
}
