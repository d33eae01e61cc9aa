//! The instructions, made from one table.
ghost use Rattle.std.specs.Prelude.{◌≡◌, ◌≢◌, IfNone, IfSome, find};
ghost use Rattle.std.specs.Str.{bytes_eq};
ghost use Rattle.stride_isa.specs.Instructions.{class, goes_on as may_go_on, kind, kind_named, op_with as op_made, operand, popped, pushed, spelling};
ghost use Rattle.stride_isa.specs.WellFormed.{FitsClass};
ghost use Rattle.stride_isa.specs.declared.op.OpKind.{OpKind};

use crate::operand::{Operand, OperandClass};

/// Which instruction, without its operand.
#[derive(Clone, Copy, Debug, PartialEq, Eq)]
pub enum OpKind {
    Push,
    Dup,
    Drop,
    Swap,
    Over,
    Add,
    Sub,
    Mul,
    Div,
    Rem,
    And,
    Or,
    Xor,
    Shl,
    Shr,
    Eq,
    Lt,
    Not,
    Get,
    Set,
    Jump,
    Jz,
    Jnz,
    Read,
    Write,
    ReadAt,
    WriteAt,
    Xchg,
    AddTo,
    Cas,
    Enter,
    Exit,
    Print,
    Halt,
}

/// An instruction with its operand: a number to push, a local, or the position of an instruction of the thread, of a
/// declaration or of a monitor.
#[derive(Clone, Copy, Debug, PartialEq, Eq)]
pub enum Op {
    Push(u64),
    Dup,
    Drop,
    Swap,
    Over,
    Add,
    Sub,
    Mul,
    Div,
    Rem,
    And,
    Or,
    Xor,
    Shl,
    Shr,
    Eq,
    Lt,
    Not,
    Get(u8),
    Set(u8),
    Jump(u32),
    Jz(u32),
    Jnz(u32),
    Read(u32),
    Write(u32),
    ReadAt(u32),
    WriteAt(u32),
    Xchg(u32),
    AddTo(u32),
    Cas(u32),
    Enter(u32),
    Exit(u32),
    Print,
    Halt,
}

/// The table of instructions: hands each row to the macro that is named, after what is given to it.
///
/// A row has the variant, the class of its operand or `()`, its name, how many words it pops and pushes, its group, and for
/// some groups the method or operator by which it differs from the others of the group.
#[macro_export]
macro_rules! instructions {
    ($table:ident!($($given:tt)*)) => {
        $table!(
            ($($given)*)
            [Push (number) "push" 0 1 pushes]
            [Dup () "dup" 1 2 stack]
            [Drop () "drop" 1 0 stack]
            [Swap () "swap" 2 2 stack]
            [Over () "over" 2 3 stack]
            [Add () "add" 2 1 two (wrapping_add)]
            [Sub () "sub" 2 1 two (wrapping_sub)]
            [Mul () "mul" 2 1 two (wrapping_mul)]
            [Div () "div" 2 1 quotient (/)]
            [Rem () "rem" 2 1 quotient (%)]
            [And () "and" 2 1 bits (&)]
            [Or () "or" 2 1 bits (|)]
            [Xor () "xor" 2 1 bits (^)]
            [Shl () "shl" 2 1 shift (<<)]
            [Shr () "shr" 2 1 shift (>>)]
            [Eq () "eq" 2 1 compare (==)]
            [Lt () "lt" 2 1 compare (<)]
            [Not () "not" 1 1 complement]
            [Get (local) "get" 0 1 gets]
            [Set (local) "set" 1 0 sets]
            [Jump (label) "jump" 0 0 jumps]
            [Jz (label) "jz" 1 0 branches (==)]
            [Jnz (label) "jnz" 1 0 branches (!=)]
            [Read (variable) "read" 0 1 stands]
            [Write (variable) "write" 1 0 stands]
            [ReadAt (array) "readat" 1 1 stands]
            [WriteAt (array) "writeat" 2 0 stands]
            [Xchg (variable) "xchg" 1 1 stands]
            [AddTo (variable) "addto" 1 1 stands]
            [Cas (variable) "cas" 2 1 stands]
            [Enter (monitor) "enter" 0 0 stands]
            [Exit (monitor) "exit" 0 0 stands]
            [Print () "print" 1 0 prints]
            [Halt () "halt" 0 0 halts]
        )
    };
}

/// The pattern of an instruction of this variant, with any operand.
#[macro_export]
macro_rules! any_operand {
    ($variant:ident ()) => {
        $crate::Op::$variant
    };
    ($variant:ident ($operand:ident)) => {
        $crate::Op::$variant(_)
    };
}

// The pattern of an instruction of this variant, with a name for its operand.
macro_rules! with_operand {
    ($variant:ident () $value:ident) => {
        Op::$variant
    };
    ($variant:ident ($operand:ident) $value:ident) => {
        Op::$variant($value)
    };
}

// The class of an operand.
macro_rules! operand_class {
    (()) => {
        OperandClass::Nothing
    };
    ((number)) => {
        OperandClass::Number
    };
    ((local)) => {
        OperandClass::Local
    };
    ((label)) => {
        OperandClass::Label
    };
    ((variable)) => {
        OperandClass::Variable
    };
    ((array)) => {
        OperandClass::Array
    };
    ((monitor)) => {
        OperandClass::Monitor
    };
}

// The operand of a class with this value.
macro_rules! operand_value {
    (() $value:ident) => {
        Operand::Nothing
    };
    ((number) $value:ident) => {
        Operand::Number($value)
    };
    ((local) $value:ident) => {
        Operand::Local($value)
    };
    ((label) $value:ident) => {
        Operand::Label($value)
    };
    ((variable) $value:ident) => {
        Operand::Variable($value)
    };
    ((array) $value:ident) => {
        Operand::Array($value)
    };
    ((monitor) $value:ident) => {
        Operand::Monitor($value)
    };
}

// The instruction of this variant with a number as its operand.
macro_rules! op_of_number {
    ($variant:ident () $number:ident) => {
        Op::$variant
    };
    ($variant:ident (number) $number:ident) => {
        Op::$variant($number)
    };
    ($variant:ident (local) $number:ident) => {
        Op::$variant($number as u8)
    };
    ($variant:ident (label) $number:ident) => {
        Op::$variant($number as u32)
    };
    ($variant:ident (variable) $number:ident) => {
        Op::$variant($number as u32)
    };
    ($variant:ident (array) $number:ident) => {
        Op::$variant($number as u32)
    };
    ($variant:ident (monitor) $number:ident) => {
        Op::$variant($number as u32)
    };
}

// Whether the next instruction may follow one of this group.
macro_rules! group_goes_on {
    (jumps) => {
        false
    };
    (halts) => {
        false
    };
    (pushes) => {
        true
    };
    (stack) => {
        true
    };
    (two) => {
        true
    };
    (quotient) => {
        true
    };
    (bits) => {
        true
    };
    (shift) => {
        true
    };
    (compare) => {
        true
    };
    (complement) => {
        true
    };
    (gets) => {
        true
    };
    (sets) => {
        true
    };
    (branches) => {
        true
    };
    (stands) => {
        true
    };
    (prints) => {
        true
    };
}

macro_rules! kinds {
    (($op:ident) $([$variant:ident $operand:tt $name:literal $popped:literal $pushed:literal $group:ident $($how:tt)*])*) => {
        match $op {
            $(any_operand!($variant $operand) => OpKind::$variant,)*
        }
    };
}

macro_rules! operands {
    (($op:ident) $([$variant:ident $operand:tt $name:literal $popped:literal $pushed:literal $group:ident $($how:tt)*])*) => {
        match $op {
            $(with_operand!($variant $operand value) => operand_value!($operand value),)*
        }
    };
}

macro_rules! classes {
    (($kind:ident) $([$variant:ident $operand:tt $name:literal $popped:literal $pushed:literal $group:ident $($how:tt)*])*) => {
        match $kind {
            $(OpKind::$variant => operand_class!($operand),)*
        }
    };
}

macro_rules! ops_of_number {
    (($kind:ident $number:ident) $([$variant:ident $operand:tt $name:literal $popped:literal $pushed:literal $group:ident $($how:tt)*])*) => {
        match $kind {
            $(OpKind::$variant => op_of_number!($variant $operand $number),)*
        }
    };
}

macro_rules! effects {
    (($kind:ident) $([$variant:ident $operand:tt $name:literal $popped:literal $pushed:literal $group:ident $($how:tt)*])*) => {
        match $kind {
            $(OpKind::$variant => ($popped, $pushed),)*
        }
    };
}

macro_rules! goings {
    (($kind:ident) $([$variant:ident $operand:tt $name:literal $popped:literal $pushed:literal $group:ident $($how:tt)*])*) => {
        match $kind {
            $(OpKind::$variant => group_goes_on!($group),)*
        }
    };
}

macro_rules! names {
    (($kind:ident) $([$variant:ident $operand:tt $name:literal $popped:literal $pushed:literal $group:ident $($how:tt)*])*) => {
        match $kind {
            $(OpKind::$variant => $name,)*
        }
    };
}

macro_rules! all_kinds {
    (() $([$variant:ident $operand:tt $name:literal $popped:literal $pushed:literal $group:ident $($how:tt)*])*) => {
        [$(OpKind::$variant),*]
    };
}

const KINDS: [OpKind; 34] = instructions!(all_kinds!());

/// Which instruction this is.
pub fn kind_of(op: Op) -> OpKind
    ensures { result ≡ kind op }
{
    instructions!(kinds!(op))
}

/// The instruction's operand.
pub fn operand_of(op: Op) -> Operand
    ensures { result ≡ operand op }
{
    instructions!(operands!(op))
}

/// The class of the operand of an instruction of this kind.
pub fn class_of(kind: OpKind) -> OperandClass
    ensures { result ≡ class kind }
{
    instructions!(classes!(kind))
}

/// The instruction of this kind that has the number as its operand, if it has one.
pub fn op_with(kind: OpKind, number: u64) -> Op
    requires { FitsClass (class kind) number }
    ensures { result ≡ op_made kind number }
{
    instructions!(ops_of_number!(kind number))
}

/// How many words the instruction pops, and how many it pushes then.
pub fn effect(kind: OpKind) -> (u8, u8)
    ensures pops { result.0 ≡ popped kind }
    ensures pushes { result.1 ≡ pushed kind }
{
    instructions!(effects!(kind))
}

/// Whether the next instruction may follow one of this kind.
pub fn goes_on(kind: OpKind) -> bool
    ensures { result ≡ may_go_on kind }
{
    instructions!(goings!(kind))
}

/// The instruction's name in a program's text.
pub fn name_of(kind: OpKind) -> &'static str
    ensures { result.now ≡ spelling kind }
{
    instructions!(names!(kind))
}

fn find_named(kinds: &[OpKind], word: &[u8]) -> Option<OpKind>
    ensures { result ≡ find (λ kind. bytes_eq (spelling kind) word.now) kinds.now }
{
    kinds
        .iter()
        .copied()
        .find(|kind| name_of(*kind).as_bytes() == word)
}

/// The instruction of this name, or `None` exactly where no instruction has it.
pub fn op_named(word: &[u8]) -> Option<OpKind>
    ensures is { result ≡ kind_named word.now }
    ensures found { IfSome result (λ kind. spelling kind ≡ word.now) }
    ensures none { IfNone result ((kind : OpKind) → spelling kind ≢ word.now) }
{
    find_named(&KINDS, word)
}
