//! Why a program was not checked.
ghost use Rattle.std.specs.Prelude.{◌≡◌};
ghost use Rattle.stride_isa.specs.declared.check_error.CheckError.TheVariants.{NoMemory};

use std::alloc::AllocError;

/// What is wrong with a program.
#[derive(Clone, Copy, Debug, PartialEq, Eq)]
pub enum CheckKind {
    /// An instruction is reached with fewer words on the stack than it takes.
    Underflow,
    /// An instruction is reached with a stack on which its results have no room.
    Overflow,
    /// An instruction is reached with two stack depths.
    TwoDepths,
    /// A thread can go on after its last instruction, or has no instruction.
    RunsOff,
    /// A jump leads outside the code of its thread.
    BadTarget,
    /// An instruction names no declaration, one of the wrong shape, no monitor or no local.
    BadName,
}

/// Why a program was not checked.
#[derive(Clone, Copy, Debug, PartialEq, Eq)]
pub enum CheckError {
    /// The program is refused for its first fault: of this kind, at this position of this thread's code.
    Bad {
        kind: CheckKind,
        thread: u32,
        instruction: u32,
    },
    /// Memory ran out.
    NoMemory,
}

impl From<AllocError> for CheckError {
    ghost from_gives = { λ _ e. e ≡ NoMemory };

    fn from(_error: AllocError) -> CheckError {
        CheckError::NoMemory
    }
}
