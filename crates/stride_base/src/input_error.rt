//! `InputError`: why an input was not read.
use crate::failed::Failed;
use crate::no_memory::NoMemory;
use std::alloc::AllocError;

/// Why an input was not read.
#[derive(Clone, Copy, Debug, PartialEq, Eq)]
pub enum InputError {
    /// The source had a fault.
    ReadFault,
    /// The input has more bytes than the limit allows.
    TooLong,
    /// Memory ran out.
    NoMemory,
}

impl From<Failed> for InputError {
    ghost use Rattle.std.specs.Prelude.{◌≡◌};
    ghost use Rattle.stride_base.specs.declared.input_error.InputError.TheVariants.{ReadFault as read_fault};

    ghost from_gives = { λ _ error. error ≡ read_fault };

    fn from(_fault: Failed) -> InputError {
        InputError::ReadFault
    }
}

impl From<NoMemory> for InputError {
    ghost use Rattle.std.specs.Prelude.{◌≡◌};
    ghost use Rattle.stride_base.specs.declared.input_error.InputError.TheVariants.{NoMemory as no_memory};

    ghost from_gives = { λ _ error. error ≡ no_memory };

    fn from(_refused: NoMemory) -> InputError {
        InputError::NoMemory
    }
}

impl From<AllocError> for InputError {
    ghost use Rattle.std.specs.Prelude.{◌≡◌};
    ghost use Rattle.stride_base.specs.declared.input_error.InputError.TheVariants.{NoMemory as no_memory};

    ghost from_gives = { λ _ error. error ≡ no_memory };

    fn from(_refused: AllocError) -> InputError {
        InputError::NoMemory
    }
}
