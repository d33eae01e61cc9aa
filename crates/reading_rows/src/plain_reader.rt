//! A plain, slow reading of program texts, from the description of the language: each line is judged by going over all
//! lines before it and all lines of its thread again, and nothing is kept from line to line. `assemble` is compared
//! with it.

use assembler::AsmKind;
use std::alloc::{AllocError, Global};
use stride_isa::OperandClass;
use stride_isa::limits::{
    ARRAY_LIMIT, CELL_LIMIT, INSTRUCTION_LIMIT, LOCAL_COUNT, MONITOR_LIMIT, NAME_LIMIT,
    THREAD_LIMIT,
};

/// Instructions that nothing follows.
const PLAIN: [&[u8]; 19] = [
    b"dup", b"drop", b"swap", b"over", b"add", b"sub", b"mul", b"div", b"rem", b"and", b"or",
    b"xor", b"shl", b"shr", b"eq", b"lt", b"not", b"print", b"halt",
];

/// Instructions that name a variable.
const ACCESSES: [&[u8]; 5] = [b"read", b"write", b"xchg", b"addto", b"cas"];

/// What a line says, by its first word and the number of its words.
#[derive(Clone, Copy, PartialEq, Eq)]
enum Form {
    Blank,
    Var,
    Array,
    Monitor,
    Thread,
    Label,
    /// An instruction that nothing follows.
    Plain,
    Push,
    /// `get` or `set`.
    Local,
    Jump,
    /// An access to a variable.
    Access,
    /// `readat` or `writeat`.
    Member,
    /// `enter` or `exit`.
    Turn,
    Malformed,
}

/// A line of a text.
#[derive(Drop)]
struct Line<'a> {
    form: Form,
    words: Vec<&'a [u8]>,
}

impl<'a> Line<'a> {
    fn word(&self, at: usize) -> &'a [u8] {
        match self.words.get(at) {
            Some(word) => word,
            None => &[],
        }
    }

    /// The name that the line declares or uses; the word of a label without its colon.
    fn name(&self) -> &'a [u8] {
        if self.form == Form::Label {
            without_last(self.word(0))
        } else {
            self.word(1)
        }
    }

    fn is_instruction(&self) -> bool {
        match self.form {
            Form::Plain
            | Form::Push
            | Form::Local
            | Form::Jump
            | Form::Access
            | Form::Member
            | Form::Turn => true,
            Form::Blank
            | Form::Var
            | Form::Array
            | Form::Monitor
            | Form::Thread
            | Form::Label
            | Form::Malformed => false,
        }
    }

    /// How many cells the line declares.
    fn cells(&self) -> u64 {
        match self.form {
            Form::Var => 1,
            Form::Array => number(self.word(2)).unwrap_or(0),
            Form::Blank
            | Form::Monitor
            | Form::Thread
            | Form::Label
            | Form::Plain
            | Form::Push
            | Form::Local
            | Form::Jump
            | Form::Access
            | Form::Member
            | Form::Turn
            | Form::Malformed => 0,
        }
    }
}

fn without_last(word: &[u8]) -> &[u8] {
    match word.split_last() {
        Some((_, front)) => front,
        None => word,
    }
}

fn is_one_of(row: &[&[u8]], word: &[u8]) -> bool {
    row.iter().any(|other| *other == word)
}

fn is_name(word: &[u8]) -> bool {
    let Some(first) = word.first() else {
        return false;
    };
    let all = word
        .iter()
        .all(|byte| byte.is_ascii_alphanumeric() || *byte == b'_');
    all && !first.is_ascii_digit() && word.len() <= NAME_LIMIT
}

/// The number of 64 bits that the word spells.
fn number(word: &[u8]) -> Option<u64> {
    if word.is_empty() {
        return None;
    }
    let mut value = 0u64;
    for byte in word {
        if !byte.is_ascii_digit() {
            return None;
        }
        let digit = u64::from(*byte).saturating_sub(48);
        value = value.checked_mul(10)?.checked_add(digit)?;
    }
    Some(value)
}

fn is_number(word: &[u8], least: u64, most: u64) -> bool {
    match number(word) {
        Some(value) => least <= value && value <= most,
        None => false,
    }
}

fn words_of<'a>(alloc: Global, line: &'a [u8]) -> Result<Vec<&'a [u8]>, AllocError> {
    let mut words = Vec::new(alloc);
    let plain = line.split(|byte| *byte == b'#').next().unwrap_or(&[]);
    for word in plain.split(|byte| matches!(*byte, b' ' | b'\t' | b'\r')) {
        if !word.is_empty() {
            words.push(word)?;
        }
    }
    Ok(words)
}

/// The form that a first word begins.
fn form_begun(word: &[u8]) -> Form {
    if word == b"var".as_slice() {
        Form::Var
    } else if word == b"array".as_slice() {
        Form::Array
    } else if word == b"monitor".as_slice() {
        Form::Monitor
    } else if word == b"thread".as_slice() {
        Form::Thread
    } else if word == b"push".as_slice() {
        Form::Push
    } else if is_one_of(&[b"get", b"set"], word) {
        Form::Local
    } else if is_one_of(&[b"jump", b"jz", b"jnz"], word) {
        Form::Jump
    } else if is_one_of(&ACCESSES, word) {
        Form::Access
    } else if is_one_of(&[b"readat", b"writeat"], word) {
        Form::Member
    } else if is_one_of(&[b"enter", b"exit"], word) {
        Form::Turn
    } else if is_one_of(&PLAIN, word) {
        Form::Plain
    } else {
        Form::Label
    }
}

fn is_label(word: &[u8]) -> bool {
    word.last() == Some(&b':') && is_name(without_last(word))
}

/// Whether a line of these words has the form, by their number and by the name where one is wanted.
fn has_form(form: Form, first: &[u8], rest: &[&[u8]]) -> bool {
    let count = rest.len();
    let has_name = match rest.first() {
        Some(word) => is_name(word),
        None => false,
    };
    match form {
        Form::Var => has_name && count <= 2,
        Form::Array => has_name && 2 <= count && count <= 3,
        Form::Monitor | Form::Jump | Form::Access | Form::Member | Form::Turn => has_name
            && count == 1,
        Form::Push | Form::Local => count == 1,
        Form::Thread | Form::Plain => count == 0,
        Form::Label => count == 0 && is_label(first),
        Form::Blank | Form::Malformed => false,
    }
}

fn form_of(words: &[&[u8]]) -> Form {
    let Some((first, rest)) = words.split_first() else {
        return Form::Blank;
    };
    let form = form_begun(first);
    if has_form(form, first, rest) {
        form
    } else {
        Form::Malformed
    }
}

fn lines_of<'a>(alloc: Global, text: &'a [u8]) -> Result<Vec<Line<'a>>, AllocError> {
    let mut lines = Vec::new(alloc);
    for line in text.split(|byte| *byte == b'\n') {
        let words = words_of(alloc, line)?;
        let form = form_of(&words);
        lines.push(Line { form, words })?;
    }
    Ok(lines)
}

// In what follows a line stands between the lines before it and those after it, and all lines before it are right.

fn has_thread(before: &[Line<'_>]) -> bool {
    before.iter().any(|line| line.form == Form::Thread)
}

fn is_bad_line(before: &[Line<'_>], line: &Line<'_>) -> bool {
    match line.form {
        Form::Malformed => true,
        Form::Blank | Form::Thread => false,
        Form::Var | Form::Array | Form::Monitor => has_thread(before),
        Form::Label
        | Form::Plain
        | Form::Push
        | Form::Local
        | Form::Jump
        | Form::Access
        | Form::Member
        | Form::Turn => !has_thread(before),
    }
}

fn is_bad_number(line: &Line<'_>) -> bool {
    let most = u64::MAX;
    let count = line.words.len();
    match line.form {
        Form::Var => count > 2 && !is_number(line.word(2), 0, most),
        Form::Array => {
            !is_number(line.word(2), 1, u64::from(ARRAY_LIMIT))
                || (count > 3 && !is_number(line.word(3), 0, most))
        }
        Form::Push => !is_number(line.word(1), 0, most),
        Form::Local => !is_number(line.word(1), 0, LOCAL_COUNT as u64 - 1),
        Form::Blank
        | Form::Monitor
        | Form::Thread
        | Form::Label
        | Form::Plain
        | Form::Jump
        | Form::Access
        | Form::Member
        | Form::Turn
        | Form::Malformed => false,
    }
}

fn is_label_of(line: &Line<'_>, name: &[u8]) -> bool {
    line.form == Form::Label && line.name() == name
}

/// Whether a line before, in the same thread, is the label.
fn stands_before(before: &[Line<'_>], name: &[u8]) -> bool {
    for line in before.iter().rev() {
        if line.form == Form::Thread {
            return false;
        }
        if is_label_of(line, name) {
            return true;
        }
    }
    false
}

/// Whether a line after, in the same thread, is the label.
fn stands_after(after: &[Line<'_>], name: &[u8]) -> bool {
    for line in after {
        if line.form == Form::Thread {
            return false;
        }
        if is_label_of(line, name) {
            return true;
        }
    }
    false
}

fn has_cells(before: &[Line<'_>], name: &[u8]) -> bool {
    before.iter().any(|line| matches!(line.form, Form::Var | Form::Array) && line.name() == name)
}

fn has_monitor(before: &[Line<'_>], name: &[u8]) -> bool {
    before
        .iter()
        .any(|line| line.form == Form::Monitor && line.name() == name)
}

/// What an instruction names that has to be there, if it names something.
fn wanted_by(form: Form) -> Option<OperandClass> {
    match form {
        Form::Jump => Some(OperandClass::Label),
        Form::Access => Some(OperandClass::Variable),
        Form::Member => Some(OperandClass::Array),
        Form::Turn => Some(OperandClass::Monitor),
        Form::Blank
        | Form::Var
        | Form::Array
        | Form::Monitor
        | Form::Thread
        | Form::Label
        | Form::Plain
        | Form::Push
        | Form::Local
        | Form::Malformed => None,
    }
}

/// What the line names that is not there.
fn missing(before: &[Line<'_>], line: &Line<'_>, after: &[Line<'_>]) -> Option<OperandClass> {
    let name = line.name();
    let wanted = wanted_by(line.form)?;
    let is_there = match wanted {
        OperandClass::Label => stands_before(before, name) || stands_after(after, name),
        OperandClass::Variable | OperandClass::Array => has_cells(before, name),
        OperandClass::Monitor => has_monitor(before, name),
        OperandClass::Nothing | OperandClass::Number | OperandClass::Local => true,
    };
    if is_there { None } else { Some(wanted) }
}

fn is_twice(before: &[Line<'_>], line: &Line<'_>) -> bool {
    let name = line.name();
    match line.form {
        Form::Label => stands_before(before, name),
        Form::Var | Form::Array | Form::Monitor => has_cells(before, name)
            || has_monitor(before, name),
        Form::Blank
        | Form::Thread
        | Form::Plain
        | Form::Push
        | Form::Local
        | Form::Jump
        | Form::Access
        | Form::Member
        | Form::Turn
        | Form::Malformed => false,
    }
}

fn count(before: &[Line<'_>], form: Form) -> usize {
    before.iter().filter(|line| line.form == form).count()
}

fn cell_count(before: &[Line<'_>]) -> u64 {
    let mut cells = 0u64;
    for line in before {
        cells = cells.saturating_add(line.cells());
    }
    cells
}

fn instruction_count(before: &[Line<'_>]) -> usize {
    before.iter().filter(|line| line.is_instruction()).count()
}

fn is_too_many(before: &[Line<'_>], line: &Line<'_>) -> bool {
    match line.form {
        Form::Var | Form::Array => {
            cell_count(before).saturating_add(line.cells()) > u64::from(CELL_LIMIT)
        }
        Form::Monitor => count(before, Form::Monitor) >= MONITOR_LIMIT,
        Form::Thread => count(before, Form::Thread) >= THREAD_LIMIT,
        Form::Plain
        | Form::Push
        | Form::Local
        | Form::Jump
        | Form::Access
        | Form::Member
        | Form::Turn => instruction_count(before) >= INSTRUCTION_LIMIT as usize,
        Form::Blank | Form::Label | Form::Malformed => false,
    }
}

fn fault_of(before: &[Line<'_>], line: &Line<'_>, after: &[Line<'_>]) -> Option<AsmKind> {
    if is_bad_line(before, line) {
        Some(AsmKind::BadLine)
    } else if is_bad_number(line) {
        Some(AsmKind::BadNumber)
    } else if let Some(wanted) = missing(before, line, after) {
        Some(AsmKind::UnknownName { wanted })
    } else if is_twice(before, line) {
        Some(AsmKind::Twice)
    } else if is_too_many(before, line) {
        Some(AsmKind::TooMany)
    } else {
        None
    }
}

/// The first refusal of the text: what is wrong, and the number of the line, counted from 1.
pub(crate) fn first_refusal(
    alloc: Global,
    text: &[u8],
) -> Result<Option<(AsmKind, u32)>, AllocError> {
    let lines = lines_of(alloc, text)?;
    for at in 0..lines.len() {
        let (before, rest) = lines.split_at(at);
        let Some((line, after)) = rest.split_first() else {
            return Ok(None);
        };
        if let Some(kind) = fault_of(before, line, after) {
            let number = u32::try_from(at).unwrap_or(u32::MAX).saturating_add(1);
            return Ok(Some((kind, number)));
        }
    }
    Ok(None)
}
