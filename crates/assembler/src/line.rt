//! `Line`: what a line of a program's text says by itself.
ghost use Rattle.std.specs.Prelude.{◌≡◌, ◌+◌, ◌<◌, ◌≤◌, ℕ, length};
ghost use Rattle.std.specs.Option.{option_map};
ghost use Rattle.stride_isa.specs.Instructions.{class};
ghost use Rattle.stride_isa.specs.Names.{is_name as is_name_word};
ghost use Rattle.stride_isa.specs.WellFormed.{FitsClass};
ghost use Rattle.assembler.specs.Forms.{VarLine, ArrayLine, MonitorLine, NamingLine};
ghost use Rattle.assembler.specs.Forms.{named, size_number, var_form, array_form, operand_form, number_form, name_form, only_name as only_name_of, label_form, form_of, alone as alone_form};
ghost use Rattle.assembler.specs.Labels.{is_instruction as is_instruction_line, is_thread_line};
ghost use Rattle.assembler.specs.Seen.{form, words_seen};
ghost use Rattle.assembler.specs.Words.{words_of};

use crate::keyword::{Keyword, keyword_at};
use crate::numbers::number_up_to;
use crate::operands::Operands;
use crate::words::{before_comment, take_word};
use stride_isa::limits::{ARRAY_LIMIT, LOCAL_COUNT};
use stride_isa::{Name, Op, OpKind, OperandClass, class_of, op_with};

/// What a line says. Names are as they stand in the text; `None` stands where a number is wanted and the word is no number
/// of the range.
#[derive(Clone, Copy, Debug)]
pub(crate) enum Line<'a> {
    /// No word.
    Blank,
    Var {
        name: &'a [u8],
        start: Option<u64>,
    },
    Array {
        name: &'a [u8],
        size: Option<u32>,
        start: Option<u64>,
    },
    Monitor(&'a [u8]),
    Thread,
    Label(&'a [u8]),
    /// An instruction whose operand is a number, or that has none.
    Whole(Option<Op>),
    /// An instruction whose operand has a name.
    Naming(OpKind, &'a [u8]),
    /// Of none of the forms.
    Malformed,
}

/// Whether the line begins a thread.
pub(crate) fn is_thread(line: Line<'_>) -> bool
    ensures { result ≡ is_thread_line (form line.entry) }
{
    matches!(line, Line::Thread)
}

/// Whether the line is an instruction.
pub(crate) fn is_instruction(line: Line<'_>) -> bool
    ensures { result ≡ is_instruction_line (form line.entry) }
{
    match line {
        Line::Whole(_) | Line::Naming(_, _) => true,
        Line::Blank
        | Line::Var { .. }
        | Line::Array { .. }
        | Line::Monitor(_)
        | Line::Thread
        | Line::Label(_)
        | Line::Malformed => false,
    }
}

fn is_name(word: &[u8]) -> bool
    ensures { result ≡ is_name_word word.now }
{
    Name::of(word).is_some()
}

// The size of an array.
#[tactic(auto, using(crate::proofs::NumberLemmas::number_within))]
fn size_at(word: &[u8]) -> Option<u32>
    ensures { result ≡ size_number word.now }
{
    match number_up_to(u64::from(ARRAY_LIMIT), word) {
        Some(0) | None => None,
        Some(size) => Some(size as u32),
    }
}

fn var_of(name: &[u8], start: Option<u64>) -> Line<'_>
    ensures { form result ≡ named (λ n. VarLine n start) name.now }
{
    if is_name(name) {
        Line::Var { name, start }
    } else {
        Line::Malformed
    }
}

fn var_line(operands: Operands<'_>) -> Line<'_>
    ensures { form result ≡ var_form (words_seen operands.entry) }
{
    match operands {
        Operands::One(name) => var_of(name, Some(0)),
        Operands::Two(name, start) => var_of(name, number_up_to(u64::MAX, start)),
        Operands::Nothing | Operands::Three(_, _, _) | Operands::More => Line::Malformed,
    }
}

fn array_of<'a>(name: &'a [u8], size: &[u8], start: Option<u64>) -> Line<'a>
    ensures { form result ≡ named (λ n. ArrayLine n (size_number size.now) start) name.now }
{
    let size = size_at(size);
    if is_name(name) {
        Line::Array { name, size, start }
    } else {
        Line::Malformed
    }
}

fn array_line(operands: Operands<'_>) -> Line<'_>
    ensures { form result ≡ array_form (words_seen operands.entry) }
{
    match operands {
        Operands::Two(name, size) => array_of(name, size, Some(0)),
        Operands::Three(name, size, start) => {
            array_of(name, size, number_up_to(u64::MAX, start))
        }
        Operands::Nothing | Operands::One(_) | Operands::More => Line::Malformed,
    }
}

// The only one of the words, where it is a name.
fn only_name(operands: Operands<'_>) -> Option<&[u8]>
    ensures { option_map (λ name. name.now) result ≡ only_name_of (words_seen operands.entry) }
{
    match operands {
        Operands::One(name) if is_name(name) => Some(name),
        Operands::One(_)
        | Operands::Nothing
        | Operands::Two(_, _)
        | Operands::Three(_, _, _)
        | Operands::More => None,
    }
}

// A line of the word alone.
fn alone<'a>(line: Line<'a>, operands: Operands<'a>) -> Line<'a>
    ensures { form result ≡ alone_form (form line.entry) (words_seen operands.entry) }
{
    match operands {
        Operands::Nothing => line,
        Operands::One(_) | Operands::Two(_, _) | Operands::Three(_, _, _) | Operands::More =>
            Line::Malformed,
    }
}

fn label_at(word: &[u8]) -> Line<'_>
    requires { 0 < length word.now }
    ensures { form result ≡ label_form word.now }
{
    let last = word.len() - 1;
    if word[last] != b':' {
        return Line::Malformed;
    }
    let name = word.split_at(last).0;
    if is_name(name) {
        Line::Label(name)
    } else {
        Line::Malformed
    }
}

#[tactic(auto, using(crate::proofs::NumberLemmas::number_within))]
fn number_line(kind: OpKind, last: u64, operands: Operands<'_>) -> Line<'_>
    requires { (n : ℕ) → n ≤ last → FitsClass (class kind) n }
    ensures { form result ≡ number_form kind (last + 1) (words_seen operands.entry) }
{
    match operands {
        Operands::One(word) => match number_up_to(last, word) {
            Some(number) => Line::Whole(Some(op_with(kind, number))),
            None => Line::Whole(None),
        },
        Operands::Nothing | Operands::Two(_, _) | Operands::Three(_, _, _) | Operands::More => {
            Line::Malformed
        }
    }
}

fn naming_line(kind: OpKind, operands: Operands<'_>) -> Line<'_>
    ensures { form result ≡ name_form (NamingLine kind) (words_seen operands.entry) }
{
    match only_name(operands) {
        Some(name) => Line::Naming(kind, name),
        None => Line::Malformed,
    }
}

fn monitor_line(operands: Operands<'_>) -> Line<'_>
    ensures { form result ≡ name_form MonitorLine (words_seen operands.entry) }
{
    match only_name(operands) {
        Some(name) => Line::Monitor(name),
        None => Line::Malformed,
    }
}

fn op_line(kind: OpKind, operands: Operands<'_>) -> Line<'_>
    ensures { form result ≡ operand_form (class kind) kind (words_seen operands.entry) }
{
    match class_of(kind) {
        OperandClass::Nothing => alone(Line::Whole(Some(op_with(kind, 0))), operands),
        OperandClass::Number => number_line(kind, u64::MAX, operands),
        OperandClass::Local => number_line(kind, LOCAL_COUNT as u64 - 1, operands),
        OperandClass::Label
        | OperandClass::Variable
        | OperandClass::Array
        | OperandClass::Monitor => naming_line(kind, operands),
    }
}

/// What the line says.
pub(crate) fn line_at(line: &[u8]) -> Line<'_>
    ensures { form result ≡ form_of (words_of line.now) }
{
    let Some((word, rest)) = take_word(before_comment(line)) else {
        return Line::Blank;
    };
    let operands = Operands::of(rest);
    match keyword_at(word) {
        Keyword::Var => var_line(operands),
        Keyword::Array => array_line(operands),
        Keyword::Monitor => monitor_line(operands),
        Keyword::Thread => alone(Line::Thread, operands),
        Keyword::Instruction(kind) => op_line(kind, operands),
        Keyword::Other => alone(label_at(word), operands),
    }
}
