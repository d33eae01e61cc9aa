//! `RerunError`: why threads were not run again.
use stride_base::NoMemory as OutOfMemory;

/// Why threads were not run again.
#[derive(Clone, Copy, Debug, PartialEq, Eq)]
pub enum RerunError {
    /// The thread diverges from its log at this place: the entry is of another kind than what the thread does there, or is left
    /// when it has ended; or there is a thread without a log or a log without a thread, at place 0.
    Diverges { thread: u32, place: u32 },
    /// Memory ran out.
    NoMemory,
}

impl From<OutOfMemory> for RerunError {
    ghost use Rattle.std.specs.Prelude.{◌≡◌};
    ghost use Rattle.thread_rerun.specs.declared.rerun_error.RerunError.TheVariants.{NoMemory};

    ghost from_gives = { λ _ error. error ≡ NoMemory };

    fn from(_cause: OutOfMemory) -> RerunError {
        RerunError::NoMemory
    }
}
