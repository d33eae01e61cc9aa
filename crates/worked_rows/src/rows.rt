//! Whole commands over devices in memory, each with what is wanted of it.
ghost use Rattle.std.specs.Prelude.{◌≡◌, ◌<◌};

use assembler::AsmKind;
use interleavings::Place;
use log_format::FormatKind;
use std::alloc::Global;
use std::marker::Brand;
use std::process::Abort;
use std::sync::Wait;
use std::sync::ledger::{Blank, Ledger};
use std::test::Fail;
use std::thread::Threads;
use stride_base::{MemSink, MemSource, Steps};
use stride_cli::{LinkageFault, MemberFault, ProgramFault, Status, offline};
use stride_isa::CheckKind;

/// Why events can't be linked, or have no order.
#[derive(Clone, Copy, Debug, PartialEq, Eq)]
pub(crate) enum Misfit {
    TwiceWritten(u32, u32),
    WriteGap(u32, u32),
    TwiceTurned(u32, u32),
    TurnGap(u32, u32),
    BoundTooLarge(Place),
    NoEqualWrite(Place),
    UpdateMismatch(Place),
    /// A cycle of so many events.
    Cycle(usize),
}

impl Misfit {
    fn of(fault: &LinkageFault) -> Misfit {
        match fault {
            LinkageFault::TwiceWritten { cell, number } => Misfit::TwiceWritten(*cell, *number),
            LinkageFault::WriteGap { cell, number } => Misfit::WriteGap(*cell, *number),
            LinkageFault::TwiceTurned { mon, turn } => Misfit::TwiceTurned(*mon, *turn),
            LinkageFault::TurnGap { mon, turn } => Misfit::TurnGap(*mon, *turn),
            LinkageFault::BoundTooLarge { at } => Misfit::BoundTooLarge(*at),
            LinkageFault::NoEqualWrite { at } => Misfit::NoEqualWrite(*at),
            LinkageFault::UpdateMismatch { at } => Misfit::UpdateMismatch(*at),
            LinkageFault::Cycle { places } => Misfit::Cycle(places.len()),
        }
    }
}

/// How a command ends, with the details that are told.
#[derive(Clone, Copy, Debug, PartialEq, Eq)]
pub(crate) enum Ending {
    Done,
    Usage,
    ReadFault,
    TooLong,
    /// A text or an order, refused on this line.
    Text(AsmKind, u32),
    /// A program, refused on this line, at this thread and instruction.
    Code(CheckKind, u32, u32, u32),
    /// A bundle, refused at this offset.
    Bundle(FormatKind, u64),
    /// Logs from which this thread diverges, at this entry.
    Diverges(u32, u32),
    /// Logs whose events can't be linked, or have no order.
    NoLinkage(Misfit),
    /// An order, refused at this place.
    NotEnabled(u32, MemberFault),
    WriteFault,
    NoMemory,
}

impl Ending {
    fn of(status: &Status) -> Ending {
        match status {
            Status::Done => Ending::Done,
            Status::Usage => Ending::Usage,
            Status::ReadFault => Ending::ReadFault,
            Status::TooLong => Ending::TooLong,
            Status::Program {
                fault: ProgramFault::Text { kind, line },
            } => Ending::Text(*kind, *line),
            Status::Program {
                fault: ProgramFault::Code {
                    kind,
                    line,
                    thread,
                    instruction,
                },
            } => Ending::Code(*kind, *line, *thread, *instruction),
            Status::Bundle { kind, offset } => Ending::Bundle(*kind, *offset),
            Status::Diverges { thread, place } => Ending::Diverges(*thread, *place),
            Status::NoLinkage { fault } => Ending::NoLinkage(Misfit::of(fault)),
            Status::NotEnabled { place, fault } => Ending::NotEnabled(*place, *fault),
            Status::WriteFault => Ending::WriteFault,
            Status::NoMemory => Ending::NoMemory,
        }
    }

    /// The exit status in the table of `docs/commands.md`.
    fn exit_status(self) -> u8 {
        match self {
            Ending::Done => 0,
            Ending::Usage => 1,
            Ending::ReadFault => 2,
            Ending::TooLong => 3,
            Ending::Text(_, _) | Ending::Code(_, _, _, _) => 4,
            Ending::Bundle(_, _) => 5,
            Ending::Diverges(_, _) => 6,
            Ending::NoLinkage(_) => 7,
            Ending::NotEnabled(_, _) => 8,
            Ending::WriteFault => 9,
            Ending::NoMemory => 10,
        }
    }
}

/// A command: its words, its input in two parts, which calls of its devices fail, and the room of its sink.
#[derive(Drop)]
pub(crate) struct Run<'a> {
    pub words: &'a [&'a str],
    pub text: &'a [u8],
    pub order: &'a [u8],
    pub failing_reads: &'a [u32],
    pub failing_puts: &'a [u32],
    pub room: usize,
}

/// A command on this input, with ample room and no fault.
pub(crate) fn plain_run<'a>(words: &'a [&'a str], text: &'a [u8], order: &'a [u8]) -> Run<'a> {
    Run {
        words,
        text,
        order,
        failing_reads: &[],
        failing_puts: &[],
        room: 1_000_000,
    }
}

/// A command with what is wanted of it.
#[derive(Drop)]
pub(crate) struct Row<'a> {
    pub run: Run<'a>,
    pub ending: Ending,
    pub held: &'a [u8],
}

/// What came of a command.
#[derive(Drop)]
pub(crate) struct Outcome {
    pub ending: Ending,
    pub exit_status: u8,
    /// The bytes that the sink holds.
    pub held: Vec<u8>,
    /// How many bytes of the input were not read.
    pub unread: usize,
}

fn joined(alloc: Global, text: &[u8], order: &[u8]) -> Result<Vec<u8>, Fail> {
    let mut input = Vec::new(alloc);
    input.extend_from_slice(text)?;
    input.extend_from_slice(order)?;
    Ok(input)
}

fn outcome_by<L: Ledger, R: Threads + Wait + Sync>(
    rt: &R,
    alloc: Global,
    run: &Run<'_>,
    blank: Blank,
) -> Result<Outcome, Fail>
    requires name { blank.name ≡ L.name }
    requires parts { blank.parts ≡ L.parts }
    requires some_part { 0 < blank.parts }
{
    let mut steps = Steps::<L>::new(rt, blank);
    let input = joined(alloc, run.text, run.order)?;
    let mut source = MemSource::new(alloc, &input, run.failing_reads)?;
    let mut sink = MemSink::new(alloc, 4, run.room, run.failing_puts)?;
    let status = offline(alloc, run.words, &mut source, &mut sink, &mut steps);
    Ok(Outcome {
        ending: Ending::of(&status),
        exit_status: status.code(),
        held: sink.bytes().to_vec(alloc)?,
        unread: source.rest().len(),
    })
}

/// What comes of the command. The sink takes four bytes a call.
pub(crate) fn outcome_of<R: Threads + Wait + Sync>(
    rt: &R,
    alloc: Global,
    run: &Run<'_>,
) -> Result<Outcome, Fail> {
    outcome_by::<Brand, R>(rt, alloc, run, Blank::new(1))
}

/// Plays the rows. A command with wrong words is to read nothing.
pub(crate) fn play_all<R: Threads + Wait + Sync + Abort>(
    rt: &R,
    alloc: Global,
    rows: &[Row<'_>],
) -> Result<(), Fail> {
    for (at, row) in rows.iter().enumerate() {
        let outcome = outcome_of(rt, alloc, &row.run)?;
        assert_eq!(rt; outcome.ending, row.ending, "in row {at}");
        assert_eq!(rt; outcome.exit_status, row.ending.exit_status());
        assert!(rt; outcome.held.as_slice() == row.held, "in row {at}");
        if row.ending == Ending::Usage {
            let whole = row.run.text.len().saturating_add(row.run.order.len());
            assert_eq!(rt; outcome.unread, whole);
        }
    }
    Ok(())
}
