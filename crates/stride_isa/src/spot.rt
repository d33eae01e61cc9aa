//! Where the fault of a thread is, and what it is.
ghost use Rattle.std.specs.Prelude.{◌≡◌};
ghost use Rattle.stride_isa.specs.declared.check_error.CheckError.TheVariants.{Bad};

use crate::check_error::{CheckError, CheckKind};

/// A fault of one thread: its position and its kind.
#[derive(Clone, Copy, Debug)]
pub(crate) struct Spot {
    pub at: u32,
    pub kind: CheckKind,
}

impl Spot {
    /// The refusal of a program for this fault of a thread.
    pub(crate) fn refusal(self, thread: u32) -> CheckError
        ensures { result ≡ Bad self.kind thread self.at }
    {
        CheckError::Bad {
            kind: self.kind,
            thread,
            instruction: self.at,
        }
    }
}
