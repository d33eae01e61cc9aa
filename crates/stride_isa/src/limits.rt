//! The limits of programs and of a thread's state.

/// The most threads of a program.
pub const THREAD_LIMIT: usize = 16;
/// The most cells of all variables and arrays of a program together.
pub const CELL_LIMIT: u32 = 256;
/// The most cells of an array.
pub const ARRAY_LIMIT: u32 = 256;
/// The most monitors of a program.
pub const MONITOR_LIMIT: usize = 64;
/// The most instructions of all threads of a program together.
pub const INSTRUCTION_LIMIT: u32 = 65_536;
/// The most instructions that a thread may be given as fuel.
pub const FUEL_LIMIT: u32 = 1_000_000;
/// The most words on an operand stack.
pub const STACK_LIMIT: usize = 64;
/// How many locals a thread has.
pub const LOCAL_COUNT: usize = 16;
/// The most bytes of a name.
pub const NAME_LIMIT: usize = 32;
