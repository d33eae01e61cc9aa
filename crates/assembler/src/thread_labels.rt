//! `ThreadLabels`: the labels of a thread.
ghost use Rattle.std.specs.Prelude.{◌≡◌, ◌+◌, ◌<◌, ◌≤◌, ◌^◌, ℕ, List, [], None, Some, if◌then◌else◌, length, IfOk, OnOk};
ghost use Rattle.assembler.specs.Labels.{bears, is_instruction as is_instruction_line, labels_at, place_of};
ghost use Rattle.assembler.specs.Naming.{position_of};
ghost use Rattle.assembler.specs.Programs.{forms_in, or_else};
ghost use Rattle.assembler.specs.Seen.{form, labels_seen, labels_behind};

use crate::line::{Line, is_instruction, is_thread, line_at};
use crate::lines::take_line;
use crate::names::Names;
use std::alloc::Global;
use stride_base::NoMemory;
use stride_base::limits::INPUT_LIMIT;

// The position of the next instruction after a line, where it had this position before it.
fn position_behind(line: Line<'_>, position: u32) -> u32
    requires { position + 1 < 2 ^ 32 }
    ensures { result ≡ (if is_instruction_line (form line.entry) then position + 1 else position) }
{
    if is_instruction(line) {
        position + 1
    } else {
        position
    }
}

// Keeps the position of the label that a line is, unless an earlier line is the same label.
fn keep_label<'a>(places: &mut Names<'a>, line: Line<'a>, position: u32) -> Result<(), NoMemory>
    ensures { OnOk result ((name : List ℕ) →
        position_of places.new name ≡ or_else (position_of places.old name) (if bears name (form line.entry) then Some position else None)) }
{
    match line {
        Line::Label(name) => places.keep_first(name, position),
        Line::Blank
        | Line::Var { .. }
        | Line::Array { .. }
        | Line::Monitor(_)
        | Line::Thread
        | Line::Whole(_)
        | Line::Naming(_, _)
        | Line::Malformed => Ok(()),
    }
}

// The position of each label of the thread whose lines begin here.
fn places_in(alloc: Global, text: &[u8]) -> Result<Names<'_>, NoMemory>
    requires { length text.now ≤ INPUT_LIMIT }
    ensures { IfOk result (λ places. (name : List ℕ) → position_of places name ≡ place_of name 0 (forms_in text.now)) }
{
    let mut places = Names::new(alloc);
    let mut position = 0;
    let mut rest = text;
    while let Some((bytes, after)) = take_line(rest) {
        let line = line_at(bytes);
        if is_thread(line) {
            return Ok(places);
        }
        keep_label(&mut places, line, position)?;
        position = position_behind(line, position);
        rest = after;
    }
    Ok(places)
}

/// The labels of a thread, while its lines are passed one by one.
#[derive(Drop)]
pub(crate) struct ThreadLabels<'a> {
    // Of each label of the thread the position.
    places: Names<'a>,
    // The labels on the lines that were passed. What is kept for them says nothing.
    passed: Names<'a>,
}

impl<'a> ThreadLabels<'a> {
    /// The labels of the thread whose lines begin here, none of which is passed yet.
    pub(crate) fn of(alloc: Global, text: &'a [u8]) -> Result<ThreadLabels<'a>, NoMemory>
        requires { length text.now ≤ INPUT_LIMIT }
        ensures { IfOk result (λ labels. labels_seen labels ≡ labels_at [] (forms_in text.now)) }
    {
        let places = places_in(alloc, text)?;
        let passed = Names::new(alloc);
        Ok(ThreadLabels { places, passed })
    }

    /// The position of the label of this name, after this place or before it.
    pub(crate) fn place(&self, name: &[u8]) -> Option<u32>
        ensures { result ≡ (labels_seen self.now).place name.now }
    {
        self.places.position(name)
    }

    /// Whether a label of this name was passed.
    pub(crate) fn is_passed(&self, name: &[u8]) -> bool
        ensures { result ≡ (labels_seen self.now).stands name.now }
    {
        self.passed.position(name).is_some()
    }

    /// Passes a line, after which this text stands.
    pub(crate) fn pass(
        &mut self,
        alloc: Global,
        line: Line<'a>,
        after: &'a [u8],
    ) -> Result<(), NoMemory>
        requires { length after.now ≤ INPUT_LIMIT }
        ensures { OnOk result (labels_seen self.new ≡ labels_behind (labels_seen self.old) (form line.entry) (forms_in after.now)) }
    {
        match line {
            Line::Thread => {
                *self = ThreadLabels::of(alloc, after)?;
                Ok(())
            }
            Line::Label(name) => self.passed.insert(name, 0),
            Line::Blank
            | Line::Var { .. }
            | Line::Array { .. }
            | Line::Monitor(_)
            | Line::Whole(_)
            | Line::Naming(_, _)
            | Line::Malformed => Ok(()),
        }
    }
}
