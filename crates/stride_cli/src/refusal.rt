//! Why a command that has read its input made no report.
ghost use Rattle.std.specs.Prelude.{◌≡◌};

use crate::status::{LinkageFault, MemberFault, ProgramFault, Status};
use assembler::AsmError;
use event_order::OrderError;
use interleavings::DriveError;
use linkage::LinkError;
use log_format::{FormatError, FormatKind};
use stride_base::NoMemory;
use thread_rerun::RerunError;

/// Why a command that has read its input made no report.
#[derive(Drop)]
pub enum Refusal {
    /// The program or the order is refused.
    Program { fault: ProgramFault },
    /// The bytes are no bundle: what is wrong, at this offset.
    Bundle { kind: FormatKind, offset: u64 },
    /// The thread diverges from its log at this entry.
    Diverges { thread: u32, place: u32 },
    /// The events of the logs can't be linked, or have no order.
    NoLinkage { fault: LinkageFault },
    /// The member of the order at this place can take no turn.
    NotEnabled { place: u32, fault: MemberFault },
    /// Memory ran out.
    NoMemory,
}

impl Refusal {
    ghost use Rattle.stride_cli.specs.Refusals.{status_of};

    /// The status that tells of the refusal.
    pub fn into_status(self) -> Status
        ensures { result ≡ status_of self }
    {
        match self {
            Refusal::Program { fault } => Status::Program { fault },
            Refusal::Bundle { kind, offset } => Status::Bundle { kind, offset },
            Refusal::Diverges { thread, place } => Status::Diverges { thread, place },
            Refusal::NoLinkage { fault } => Status::NoLinkage { fault },
            Refusal::NotEnabled { place, fault } => Status::NotEnabled { place, fault },
            Refusal::NoMemory => Status::NoMemory,
        }
    }
}

impl From<AsmError> for Refusal {
    ghost use Rattle.std.specs.Prelude.{◌≡◌};
    ghost use Rattle.stride_cli.specs.Refusals.{of_text};

    ghost from_gives = { λ error refusal. refusal ≡ of_text error };

    fn from(error: AsmError) -> Refusal {
        match error {
            AsmError::Bad { kind, line } => Refusal::Program {
                fault: ProgramFault::Text { kind, line },
            },
            AsmError::NoMemory => Refusal::NoMemory,
        }
    }
}

impl From<DriveError> for Refusal {
    ghost use Rattle.std.specs.Prelude.{◌≡◌};
    ghost use Rattle.stride_cli.specs.Refusals.{of_drive};

    ghost from_gives = { λ error refusal. refusal ≡ of_drive error };

    fn from(error: DriveError) -> Refusal {
        match error {
            DriveError::NoSuchThread { place } => Refusal::NotEnabled {
                place,
                fault: MemberFault::NoThread,
            },
            DriveError::NoMemory => Refusal::NoMemory,
        }
    }
}

impl From<FormatError> for Refusal {
    ghost use Rattle.std.specs.Prelude.{◌≡◌};
    ghost use Rattle.stride_cli.specs.Refusals.{of_format};

    ghost from_gives = { λ error refusal. refusal ≡ of_format error };

    fn from(error: FormatError) -> Refusal {
        match error {
            FormatError::Bad { kind, offset } => Refusal::Bundle { kind, offset },
            FormatError::NoMemory => Refusal::NoMemory,
        }
    }
}

impl From<RerunError> for Refusal {
    ghost use Rattle.std.specs.Prelude.{◌≡◌};
    ghost use Rattle.stride_cli.specs.Refusals.{of_rerun};

    ghost from_gives = { λ error refusal. refusal ≡ of_rerun error };

    fn from(error: RerunError) -> Refusal {
        match error {
            RerunError::Diverges { thread, place } => Refusal::Diverges { thread, place },
            RerunError::NoMemory => Refusal::NoMemory,
        }
    }
}

fn unlinked(fault: LinkageFault) -> Refusal
    ensures { result ≡ Refusal.NoLinkage fault }
{
    Refusal::NoLinkage { fault }
}

impl From<LinkError> for Refusal {
    ghost use Rattle.std.specs.Prelude.{◌≡◌};
    ghost use Rattle.stride_cli.specs.Refusals.{of_link};

    ghost from_gives = { λ error refusal. refusal ≡ of_link error };

    fn from(error: LinkError) -> Refusal {
        match error {
            LinkError::TwiceWritten { cell, number } => {
                unlinked(LinkageFault::TwiceWritten { cell, number })
            }
            LinkError::WriteGap { cell, number } => {
                unlinked(LinkageFault::WriteGap { cell, number })
            }
            LinkError::TwiceTurned { mon, turn } => {
                unlinked(LinkageFault::TwiceTurned { mon, turn })
            }
            LinkError::TurnGap { mon, turn } => unlinked(LinkageFault::TurnGap { mon, turn }),
            LinkError::BoundTooLarge { at } => unlinked(LinkageFault::BoundTooLarge { at }),
            LinkError::NoEqualWrite { at } => unlinked(LinkageFault::NoEqualWrite { at }),
            LinkError::UpdateMismatch { at } => unlinked(LinkageFault::UpdateMismatch { at }),
            LinkError::NoMemory => Refusal::NoMemory,
        }
    }
}

impl From<OrderError> for Refusal {
    ghost use Rattle.std.specs.Prelude.{◌≡◌};
    ghost use Rattle.stride_cli.specs.Refusals.{of_order};

    ghost from_gives = { λ error refusal. refusal ≡ of_order error };

    fn from(error: OrderError) -> Refusal {
        match error {
            OrderError::Cycle { places } => Refusal::NoLinkage {
                fault: LinkageFault::Cycle { places },
            },
            OrderError::NoMemory => Refusal::NoMemory,
        }
    }
}

impl From<NoMemory> for Refusal {
    ghost use Rattle.std.specs.Prelude.{◌≡◌};
    ghost use Rattle.stride_cli.specs.declared.refusal.Refusal.TheVariants as refusals;

    ghost from_gives = { λ _ refusal. refusal ≡ refusals.NoMemory };

    fn from(_error: NoMemory) -> Refusal {
        Refusal::NoMemory
    }
}
