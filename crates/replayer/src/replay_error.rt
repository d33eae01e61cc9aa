//! `ReplayError`: why there is no replay.
use stride_base::NoMemory as OutOfMemory;

/// Why there is no replay.
#[derive(Clone, Copy, Debug, PartialEq, Eq)]
pub enum ReplayError {
    /// The member at this place, counted from 0, can take no turn: it names no thread, one that has ended, or one that stands
    /// at an `enter` of a monitor which another thread holds.
    NotEnabled { place: u32 },
    /// Memory ran out.
    NoMemory,
}

impl From<OutOfMemory> for ReplayError {
    ghost use Rattle.std.specs.Prelude.{◌≡◌};
    ghost use Rattle.replayer.specs.declared.replay_error.ReplayError.TheVariants.{NoMemory};

    ghost from_gives = { λ _ error. error ≡ NoMemory };

    fn from(_cause: OutOfMemory) -> ReplayError {
        ReplayError::NoMemory
    }
}
