//! The words of messages: what is wrong, for the user who can mend it.

use crate::status::LinkageFault;
use assembler::AsmKind;
use interleavings::Place;
use std::fmt;
use stride_base::limits::ORDER_LIMIT;
use stride_isa::limits::{CELL_LIMIT, INSTRUCTION_LIMIT, MONITOR_LIMIT, STACK_LIMIT, THREAD_LIMIT};
use stride_isa::{CheckKind, OperandClass};

/// What is wrong with a line of a text or of an order.
#[derive(Clone, Copy)]
pub struct TextWords<'a>(pub &'a AsmKind);

impl fmt::Display for TextWords<'_> {
    fn fmt<W: fmt::Write>(&self, f: &mut fmt::Formatter<W>) -> fmt::Result {
        match self.0 {
            AsmKind::BadLine => write!(
                f,
                "malformed or misplaced line: declarations stand before the first `thread`, labels and instructions after it"
            ),
            AsmKind::BadNumber => write!(
                f,
                "a word is not a number, or not one of the range that is wanted here"
            ),
            AsmKind::UnknownName { wanted } => write!(f, "names no {}", thing_of(*wanted)),
            AsmKind::Twice => write!(
                f,
                "the name is already in use: an earlier line declares it, or is the same label of this thread"
            ),
            AsmKind::TooMany => write!(
                f,
                "goes beyond a limit: {THREAD_LIMIT} threads, {CELL_LIMIT} cells, {MONITOR_LIMIT} monitors, {INSTRUCTION_LIMIT} instructions, {ORDER_LIMIT} members of an order"
            ),
        }
    }
}

// What an operand of this class has to name.
fn thing_of(wanted: OperandClass) -> &'static str {
    match wanted {
        OperandClass::Label => "label of this thread",
        OperandClass::Variable => "variable that is declared",
        OperandClass::Array => "array that is declared",
        OperandClass::Monitor => "monitor that is declared",
        OperandClass::Nothing | OperandClass::Number | OperandClass::Local => {
            "thing that is there"
        }
    }
}

/// What is wrong with an instruction.
#[derive(Clone, Copy)]
pub struct CheckWords<'a>(pub &'a CheckKind);

impl fmt::Display for CheckWords<'_> {
    fn fmt<W: fmt::Write>(&self, f: &mut fmt::Formatter<W>) -> fmt::Result {
        match self.0 {
            CheckKind::Underflow => write!(f, "reached with too few words on the stack"),
            CheckKind::Overflow => write!(f, "puts more than {STACK_LIMIT} words on the stack"),
            CheckKind::TwoDepths => write!(
                f,
                "reached in two ways, with different numbers of words on the stack"
            ),
            CheckKind::RunsOff => write!(
                f,
                "the thread runs off the end of its code, which must end with `halt` or `jump`"
            ),
            CheckKind::BadTarget => write!(
                f,
                "jumps outside the thread's code: no instruction follows the label"
            ),
            CheckKind::BadName => write!(
                f,
                "names an array where a variable is wanted, or a variable where an array is wanted"
            ),
        }
    }
}

/// Why events can't be linked, or have no order.
#[derive(Clone, Copy)]
pub struct LinkageWords<'a>(pub &'a LinkageFault);

impl fmt::Display for LinkageWords<'_> {
    fn fmt<W: fmt::Write>(&self, f: &mut fmt::Formatter<W>) -> fmt::Result {
        match self.0 {
            LinkageFault::TwiceWritten { cell, number } => {
                write!(f, "two writes of cell {cell} have the number {number}")
            }
            LinkageFault::WriteGap { cell, number } => write!(
                f,
                "no write of cell {cell} has the number {number}, and one has a greater number"
            ),
            LinkageFault::TwiceTurned { mon, turn } => {
                write!(f, "two entries into monitor {mon} have the turn {turn}")
            }
            LinkageFault::TurnGap { mon, turn } => write!(
                f,
                "no exit from monitor {mon} ends the turn {turn}, and an entry has a greater turn"
            ),
            LinkageFault::BoundTooLarge { at } => write!(
                f,
                "thread {thread}, event {place}, both counted from 0: the bound of the read is above every number of its cell",
                thread = at.thread,
                place = at.place
            ),
            LinkageFault::NoEqualWrite { at } => write!(
                f,
                "thread {thread}, event {place}, both counted from 0: no write within the bound of the read stored its value",
                thread = at.thread,
                place = at.place
            ),
            LinkageFault::UpdateMismatch { at } => write!(
                f,
                "thread {thread}, event {place}, both counted from 0: the write before the update did not store its old value",
                thread = at.thread,
                place = at.place
            ),
            LinkageFault::Cycle { places } => write_cycle(f, places.as_slice()),
        }
    }
}

fn write_cycle<W: fmt::Write>(f: &mut fmt::Formatter<W>, places: &[Place]) -> fmt::Result {
    write!(
        f,
        "the events have no order: of these, by thread and event, both counted from 0, each has to come before the next and the last before the first:"
    )?;
    for at in places {
        write!(f, " {thread}:{place}", thread = at.thread, place = at.place)?;
    }
    Ok(())
}
