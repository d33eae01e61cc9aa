//! `Refusal`: why a step of reading came to an end.
use crate::asm_error::{AsmError, AsmKind};
use stride_base::NoMemory as OutOfMemory;
use stride_isa::AddError;

/// A line is refused for this, or memory ran out.
#[derive(Clone, Copy, Debug, PartialEq, Eq)]
pub(crate) enum Refusal {
    Bad(AsmKind),
    NoMemory,
}

impl Refusal {
    ghost use Rattle.std.specs.Prelude.{◌≡◌};
    ghost use Rattle.assembler.specs.Refusals.{told};

    /// The refusal as it is told of the line of this number.
    pub(crate) fn at(self, line: u32) -> AsmError
        ensures { result ≡ told line self }
    {
        match self {
            Refusal::Bad(kind) => AsmError::Bad { kind, line },
            Refusal::NoMemory => AsmError::NoMemory,
        }
    }
}

impl From<OutOfMemory> for Refusal {
    ghost use Rattle.std.specs.Prelude.{◌≡◌};
    ghost use Rattle.assembler.specs.declared.refusal.Refusal.TheVariants.{NoMemory};

    ghost from_gives = { λ _ refusal. refusal ≡ NoMemory };

    fn from(_cause: OutOfMemory) -> Refusal {
        Refusal::NoMemory
    }
}

impl From<AddError> for Refusal {
    ghost use Rattle.std.specs.Prelude.{◌≡◌};
    ghost use Rattle.assembler.specs.Refusals.{refusal_by};

    ghost from_gives = { λ error refusal. refusal ≡ refusal_by error };

    fn from(error: AddError) -> Refusal {
        match error {
            AddError::Twice => Refusal::Bad(AsmKind::Twice),
            AddError::TooMany => Refusal::Bad(AsmKind::TooMany),
            AddError::NoMemory => Refusal::NoMemory,
        }
    }
}
