//! `Operand`: what an instruction is written with.

/// What the operand of an instruction names.
#[derive(Clone, Copy, Debug, PartialEq, Eq)]
pub enum OperandClass {
    Nothing,
    Number,
    Local,
    Label,
    Variable,
    Array,
    Monitor,
}

/// The operand of an instruction, by its class.
#[derive(Clone, Copy, Debug, PartialEq, Eq)]
pub enum Operand {
    /// The instruction has none.
    Nothing,
    /// A word that is pushed.
    Number(u64),
    /// A local of the thread.
    Local(u8),
    /// A position of the thread's code, to which the instruction may jump.
    Label(u32),
    /// The position of the declaration of a variable.
    Variable(u32),
    /// The position of the declaration of an array.
    Array(u32),
    /// The position of a monitor.
    Monitor(u32),
}
