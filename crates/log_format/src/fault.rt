//! `ReadError`: why reading came to an end, as it is known within the bytes.
use crate::format_error::{FormatError, FormatKind};
use stride_base::NoMemory as OutOfMemory;

/// What is wrong, and how many bytes are left at the place where it is.
#[derive(Clone, Copy, Debug, PartialEq, Eq)]
pub(crate) struct Fault {
    pub(crate) kind: FormatKind,
    pub(crate) left: usize,
}

/// The bytes are at fault, or memory ran out.
#[derive(Clone, Copy, Debug, PartialEq, Eq)]
pub(crate) enum ReadError {
    Fault(Fault),
    NoMemory,
}

impl ReadError {
    ghost use Rattle.std.specs.Prelude.{◌≡◌};
    ghost use Rattle.log_format.specs.Answers.{told, IsInside};
    ghost use Rattle.log_format.specs.Reading.{fault};

    /// The bytes end within a part.
    pub(crate) const SHORT: ReadError = ReadError::Fault(Fault {
        kind: FormatKind::Short,
        left: 0,
    });

    /// The first of these bytes is at fault, or the number that begins with it.
    pub(crate) const fn at(kind: FormatKind, bytes: &[u8]) -> ReadError
        ensures { result ≡ ReadError.Fault (fault kind bytes.now) }
    {
        ReadError::Fault(Fault {
            kind,
            left: bytes.len(),
        })
    }

    /// The error as it is told of an input of this length.
    pub(crate) fn told(self, length: usize) -> FormatError
        requires { IsInside length self }
        ensures { result ≡ told length self }
    {
        match self {
            ReadError::Fault(fault) => FormatError::Bad {
                kind: fault.kind,
                offset: (length - fault.left) as u64,
            },
            ReadError::NoMemory => FormatError::NoMemory,
        }
    }
}

impl From<OutOfMemory> for ReadError {
    ghost use Rattle.std.specs.Prelude.{◌≡◌};
    ghost use Rattle.log_format.specs.declared.fault.ReadError.TheVariants.{NoMemory};

    ghost from_gives = { λ _ error. error ≡ NoMemory };

    fn from(_cause: OutOfMemory) -> ReadError {
        ReadError::NoMemory
    }
}
