//! `LinkError`: why events were not linked.
use interleavings::Place;
use std::alloc::{AllocError, AllocFailed};
use stride_base::NoMemory as OutOfMemory;

/// Why events were not linked. Of several reasons the first of this list is told, and of several of one kind that of the least
/// cell and number, monitor and turn, or thread and place. A cell's starting value is its write numbered 0, an update counts as
/// a write, and turn 0 of a monitor counts as entered and left.
#[derive(Clone, Copy, Debug, PartialEq, Eq)]
pub enum LinkError {
    /// Two writes of the cell have this number.
    TwiceWritten { cell: u32, number: u32 },
    /// No write of the cell has this number, and one has a greater.
    WriteGap { cell: u32, number: u32 },
    /// Two entries into the monitor have this turn.
    TwiceTurned { mon: u32, turn: u32 },
    /// No exit from the monitor has this turn, and an entry has a greater.
    TurnGap { mon: u32, turn: u32 },
    /// The bound of this read is above every number of its cell.
    BoundTooLarge { at: Place },
    /// No write within the bound of this read stored its value.
    NoEqualWrite { at: Place },
    /// The write numbered one below this update did not store the update's old value.
    UpdateMismatch { at: Place },
    /// Memory ran out.
    NoMemory,
}

impl From<OutOfMemory> for LinkError {
    ghost use Rattle.std.specs.Prelude.{◌≡◌};
    ghost use Rattle.linkage.specs.declared.link_error.LinkError.TheVariants.{NoMemory};

    ghost from_gives = { λ _ error. error ≡ NoMemory };

    fn from(_cause: OutOfMemory) -> LinkError {
        LinkError::NoMemory
    }
}

impl From<AllocError> for LinkError {
    ghost use Rattle.std.specs.Prelude.{◌≡◌};
    ghost use Rattle.linkage.specs.declared.link_error.LinkError.TheVariants.{NoMemory};

    ghost from_gives = { λ _ error. error ≡ NoMemory };

    fn from(_cause: AllocError) -> LinkError {
        LinkError::NoMemory
    }
}

impl<T: Drop> From<AllocFailed<T>> for LinkError {
    ghost use Rattle.std.specs.Prelude.{◌≡◌};
    ghost use Rattle.linkage.specs.declared.link_error.LinkError.TheVariants.{NoMemory};

    ghost from_gives = { λ _ error. error ≡ NoMemory };

    fn from(_cause: AllocFailed<T>) -> LinkError {
        LinkError::NoMemory
    }
}
