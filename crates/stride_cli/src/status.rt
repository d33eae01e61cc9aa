//! How a command ends.
ghost use Rattle.std.specs.Prelude.{◌≡◌};

use crate::messages::{CheckWords, LinkageWords, TextWords};
use assembler::AsmKind;
use interleavings::Place;
use log_format::FormatKind;
use std::fmt;
use stride_base::List;
use stride_base::limits::INPUT_LIMIT;
use stride_isa::CheckKind;
use thiserror::Error;

/// Why a program or an order was refused.
#[derive(Debug, Drop, Error)]
pub enum ProgramFault {
    /// The text or the order is refused for its first fault, on this line of the input, counted from 1.
    #[error("line {line}: {words}", words = TextWords(.kind))]
    Text {
        kind: AsmKind,
        line: u32,
    },
    /// The program is refused for its first fault: of this thread, at this position of its code, both counted from 0. The
    /// instruction stands on this line of the input, counted from 1; where the thread has no code, its line `thread` does.
    #[error("line {line}: thread {thread}, instruction {instruction}, both counted from 0: {words}", words = CheckWords(.kind))]
    Code {
        kind: CheckKind,
        line: u32,
        thread: u32,
        instruction: u32,
    },
}

/// Why a member of an order can take no turn.
#[derive(Clone, Copy, Debug, PartialEq, Eq, Error)]
pub enum MemberFault {
    /// It names no thread of the program.
    #[error("names no thread of the program")]
    NoThread,
    /// Its thread has ended, or waits for a monitor that another thread holds.
    #[error("names a thread that has ended, or that waits for a monitor which another thread holds")]
    CannotGoOn,
}

/// Why the events of logs can't be linked, or have no order. Cells, monitors, threads and events are counted from 0.
#[derive(Drop)]
pub enum LinkageFault {
    /// Two writes of the cell have this number.
    TwiceWritten { cell: u32, number: u32 },
    /// No write of the cell has this number, and one has a greater.
    WriteGap { cell: u32, number: u32 },
    /// Two entries into the monitor have this turn.
    TwiceTurned { mon: u32, turn: u32 },
    /// No exit from the monitor has this turn, and an entry has a greater.
    TurnGap { mon: u32, turn: u32 },
    /// The bound of this read is above every number of its cell.
    BoundTooLarge { at: Place },
    /// No write within the bound of this read stored its value.
    NoEqualWrite { at: Place },
    /// The write numbered one below this update did not store the update's old value.
    UpdateMismatch { at: Place },
    /// Each of these events has to come before the next, and the last before the first.
    Cycle { places: List<Place> },
}

/// How a command ends. `code` gives the exit status of the process.
#[derive(Drop)]
pub enum Status {
    /// The input was read to its end, and the whole report was put.
    Done,
    /// The words are no line of the command line's grammar, or one of a command that the call doesn't do.
    Usage,
    /// The input could not be read.
    ReadFault,
    /// The input has more bytes than an input may have.
    TooLong,
    /// The program or the order is refused.
    Program { fault: ProgramFault },
    /// The input is no bundle: what is wrong, at this offset.
    Bundle { kind: FormatKind, offset: u64 },
    /// The thread diverges from its log at this entry, both counted from 0: the entry doesn't fit what the thread does there.
    Diverges { thread: u32, place: u32 },
    /// The events of the logs can't be linked, or have no order.
    NoLinkage { fault: LinkageFault },
    /// The member of the order at this place, counted from 0, can take no turn.
    NotEnabled { place: u32, fault: MemberFault },
    /// The report could not be written.
    WriteFault,
    /// Memory ran out.
    NoMemory,
}

impl Status {
    ghost use Rattle.stride_cli.specs.Statuses.{code_of};

    /// The exit status of the process.
    pub fn code(&self) -> u8
        ensures { result ≡ code_of self.now }
    {
        match self {
            Status::Done => 0,
            Status::Usage => 1,
            Status::ReadFault => 2,
            Status::TooLong => 3,
            Status::Program { fault: _ } => 4,
            Status::Bundle { kind: _, offset: _ } => 5,
            Status::Diverges {
                thread: _,
                place: _,
            } => 6,
            Status::NoLinkage { fault: _ } => 7,
            Status::NotEnabled { place: _, fault: _ } => 8,
            Status::WriteFault => 9,
            Status::NoMemory => 10,
        }
    }
}

impl fmt::Display for Status {
    fn fmt<W: fmt::Write>(&self, f: &mut fmt::Formatter<W>) -> fmt::Result {
        match self {
            Status::Done => write!(f, "done"),
            Status::Usage => write!(
                f,
                "usage: stride [--fuel N] [--patience N] COMMAND < INPUT, with one COMMAND of check, follow, sim, run, bundle, show, upgrade, infer, replay; or stride demo N [live]"
            ),
            Status::ReadFault => write!(
                f,
                "the input could not be read: standard input is closed, a folder, or a device that failed"
            ),
            Status::TooLong => write!(
                f,
                "the input has more than {INPUT_LIMIT} bytes, the most that a command reads"
            ),
            Status::Program { fault } => write!(f, "{fault}"),
            Status::Bundle { kind, offset } => write!(f, "offset {offset}: {kind}"),
            Status::Diverges { thread, place } => write!(
                f,
                "thread {thread}, entry {place} of its log, both counted from 0: the log does not fit the program there, or the thread or its log is missing"
            ),
            Status::NoLinkage { fault } => write!(f, "{words}", words = LinkageWords(fault)),
            Status::NotEnabled { place, fault } => {
                write!(f, "member {place} of the order, counted from 0, {fault}")
            }
            Status::WriteFault => write!(
                f,
                "the report could not be written whole: standard output is closed, full, or read by nobody"
            ),
            Status::NoMemory => write!(f, "memory ran out"),
        }
    }
}
