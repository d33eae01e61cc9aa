//! Where a thread stands.

use crate::end::End;
use stride_isa::Change;

/// Where a thread stands after its local instructions: at a shared one, or at its end.
#[derive(Clone, Copy, Debug, PartialEq, Eq)]
pub enum Stop {
    /// At a read of this cell.
    Read { cell: u32 },
    /// At a write of this value into this cell.
    Write { cell: u32, value: u64 },
    /// At an atomic update of this cell.
    Update { cell: u32, change: Change },
    /// At an entry into this monitor, which it does not hold.
    Enter { mon: u32 },
    /// At an exit from this monitor, which it holds.
    Exit { mon: u32 },
    /// At its end.
    Ended { end: End },
}
