//! What a thread runs.
ghost use Rattle.std.specs.Prelude.{◌≡◌, ◌<◌, ◌≤◌, ℕ, length};
ghost use Rattle.stride_isa.specs.Limits.{fuel_limit, instruction_limit};
ghost use Rattle.stride_isa.specs.Listing.{code_of, op_at};
ghost use Rattle.stride_isa.specs.Validity.{IsFine, Reaches};

use stride_isa::limits::{FUEL_LIMIT, INSTRUCTION_LIMIT};
use stride_isa::{Checked, Op};

/// A thread of a program, with its code at hand, and its fuel.
#[derive(Clone, Copy)]
pub struct Task<'p> {
    pub program: &'p Checked,
    code: &'p [Op],
    pub thread: u32,
    pub fuel: u32,
    ghost thread_is: { thread < length program.now.threads },
    ghost code_is: { code.now ≡ code_of program.now thread },
    ghost small: { length code.now ≤ instruction_limit },
    ghost some: { 1 ≤ fuel },
    ghost limit: { fuel ≤ fuel_limit },
}

impl<'p> Task<'p> {
    /// This thread of the program, with a fuel of 1 to 1,000,000 instructions.
    pub fn new(program: &'p Checked, thread: u32, fuel: u32) -> Task<'p>
        requires thread { thread < length program.now.threads }
        requires some { 1 ≤ fuel }
        requires limit { fuel ≤ FUEL_LIMIT }
        ensures program { result.program.now ≡ program.now }
        ensures thread { result.thread ≡ thread }
        ensures fuel { result.fuel ≡ fuel }
        ensures code { 0 < length (code_of program.now thread) }
    {
        Task {
            program,
            code: program.code(thread),
            thread,
            fuel,
        }
    }

    /// The thread's number as it stands among the holders of monitors.
    #[inline(always)]
    pub fn number(&self) -> u8
        ensures { result ≡ self.now.thread }
    {
        // A program has no more than 16 threads.
        self.program.facts();
        self.thread as u8
    }

    /// The instruction at a position.
    #[inline(always)]
    pub fn op(&self, at: u32) -> &'p Op
        requires { at < length (code_of self.now.program.now self.now.thread) }
        ensures is { result.now ≡ op_at self.now.program.now self.now.thread at }
        ensures small { at < INSTRUCTION_LIMIT }
        ensures fine { (depth : ℕ) → Reaches self.now.program.now self.now.thread at depth → IsFine self.now.program.now self.now.thread at depth }
    {
        self.program.facts();
        &self.code[at as usize]
    }
}
