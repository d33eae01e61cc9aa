//! Looking at a program.
ghost use Rattle.std.specs.Prelude.{◌≡◌, ◌≤◌, ◌<◌, ◌+◌, length, slice_index};
ghost use Rattle.std.specs.List.{slice_index_or};
ghost use Rattle.stride_isa.specs.Limits.{cell_limit, instruction_limit, monitor_limit, thread_limit};
ghost use Rattle.stride_isa.specs.Listing.{cell_count, cells_of, first_cell, start_of, starts_of, code_of, op_at, decl_at};
ghost use Rattle.stride_isa.specs.WellFormed.{IsWellFormed};

use crate::decl::Decl;
use crate::op::Op;
use crate::program::Program;

/// What the check looks at; `Checked` offers these and more to callers.
impl Program {
    /// What holds of every program; the call does nothing.
    pub(crate) fn facts(&self)
        ensures { IsWellFormed self.now }
    {
        let _ = &self.decls;
    }

    /// How many threads there are.
    pub(crate) fn threads(&self) -> u32
        ensures count { result ≡ length self.now.threads }
        ensures small { result ≤ thread_limit }
    {
        self.threads.len() as u32
    }

    /// How many instructions a thread has.
    pub(crate) fn code_len(&self, thread: u32) -> u32
        requires { thread < length self.now.threads }
        ensures count { result ≡ length (code_of self.now thread) }
        ensures small { result ≤ instruction_limit }
    {
        self.threads[thread as usize].len() as u32
    }

    /// The code of a thread.
    pub(crate) fn code(&self, thread: u32) -> &[Op]
        requires { thread < length self.now.threads }
        ensures { result.now ≡ code_of self.now thread }
    {
        self.threads[thread as usize].as_slice()
    }

    /// The instruction of a thread at a position.
    pub(crate) fn op(&self, thread: u32, at: u32) -> Op
        requires thread { thread < length self.now.threads }
        requires inside { at < length (code_of self.now thread) }
        ensures is { result ≡ op_at self.now thread at }
        ensures small { at < instruction_limit }
    {
        self.threads[thread as usize][at as usize]
    }

    /// How many variables and arrays are declared.
    pub(crate) fn decls(&self) -> u32
        ensures count { result ≡ length self.now.decls }
        ensures small { result ≤ cell_limit }
    {
        self.decls.len() as u32
    }

    /// The declaration at a position.
    pub(crate) fn decl(&self, at: u32) -> &Decl
        requires { at < length self.now.decls }
        ensures { result.now ≡ decl_at self.now at }
    {
        &self.decls[at as usize]
    }

    /// How many monitors are declared.
    pub(crate) fn monitors(&self) -> u32
        ensures count { result ≡ length self.now.monitors }
        ensures small { result ≤ monitor_limit }
    {
        self.monitors.len() as u32
    }
}
