//! `AsmError`: why a text was not read.
use stride_base::NoMemory as OutOfMemory;
use stride_isa::OperandClass;

/// What is wrong with a line, in the order in which one line's faults are told.
#[derive(Clone, Copy, Debug, PartialEq, Eq)]
pub enum AsmKind {
    /// The line is of no form, stands in the wrong part, has a word too many or too few, or has no name where one is wanted.
    BadLine,
    /// A word where a number is wanted is no number of the range.
    BadNumber,
    /// The name that is wanted for an operand of this class is not there.
    UnknownName { wanted: OperandClass },
    /// The name or the label stands on an earlier line.
    Twice,
    /// The line is one more than there may be: of cells, monitors, threads, instructions or members of an order.
    TooMany,
}

/// Why a text was not read.
#[derive(Clone, Copy, Debug, PartialEq, Eq)]
pub enum AsmError {
    /// The text is refused for its first fault, on this line. Lines are counted from 1.
    Bad { kind: AsmKind, line: u32 },
    /// Memory ran out.
    NoMemory,
}

impl From<OutOfMemory> for AsmError {
    ghost use Rattle.std.specs.Prelude.{◌≡◌};
    ghost use Rattle.assembler.specs.declared.asm_error.AsmError.TheVariants.{NoMemory};

    ghost from_gives = { λ _ error. error ≡ NoMemory };

    fn from(_cause: OutOfMemory) -> AsmError {
        AsmError::NoMemory
    }
}
