//! The check of a program, and checked programs.
ghost use Rattle.std.specs.Prelude.{◌≡◌, ◌≤◌, ◌<◌, ◌+◌, ℕ, IfOk, IfErr, length, slice_index};
ghost use Rattle.std.specs.List.{slice_index_or};
ghost use Rattle.stride_isa.specs.Limits.{cell_limit, instruction_limit, monitor_limit, thread_limit};
ghost use Rattle.stride_isa.specs.Listing.{cell_count, cells_of, first_cell, start_of, starts_of, code_of, op_at, decl_at};
ghost use Rattle.stride_isa.specs.Faults.{IsRefusal};
ghost use Rattle.stride_isa.specs.Validity.{IsFine, IsValid, Reaches};
ghost use Rattle.stride_isa.specs.WellFormed.{IsWellFormed};

use crate::check_error::CheckError;
use crate::decl::Decl;
use crate::limits::INSTRUCTION_LIMIT;
use crate::name::Name;
use crate::naming::check_names;
use crate::op::Op;
use crate::program::Program;
use crate::straying::check_depths;
use std::alloc::Global;
use std::marker::Model;

/// A valid program: no thread of it can meet a missing operand, a full stack, a position outside its code, or a name
/// that is not declared. Only `check` makes one.
#[derive(Drop)]
pub struct Checked {
    program: Program,
}

impl Model for Checked {
    ghost use Rattle.stride_isa.specs.Listing.{Listing};
    ghost use Rattle.stride_isa.specs.Validity.{IsValid};

    ghost Value = { Listing };

    ghost view = { λ c. c.program };

    ghost invariant = { λ c. IsValid c.program };
}

/// The same program, checked, or its first fault. A refused program is given up.
pub fn check(alloc: Global, program: Program) -> Result<Checked, CheckError>
    ensures checked { IfOk result (λ checked. checked ≡ program) }
    ensures valid { IfOk result (λ _. IsValid program) }
    ensures refused { IfErr result (IsRefusal program) }
{
    check_names(&program)?;
    check_depths(alloc, &program)?;
    Ok(Checked { program })
}

fn start_in(decls: &[Decl], cell: u32) -> u64
    requires { cell < cell_count decls.now }
    ensures { result ≡ slice_index (starts_of decls.now) cell }
{
    let mut left = cell;
    let mut rest = decls;
    while let Some((decl, after)) = rest.split_first() {
        let size = decl.shape.cells();
        if left < size {
            return decl.start;
        }
        left -= size;
        rest = after;
    }
    unreachable!()
}

impl Checked {
    /// What holds of every checked program; the call does nothing.
    pub fn facts(&self)
        ensures formed { IsWellFormed self.now }
        ensures valid { IsValid self.now }
    {
        self.program.facts();
    }

    /// How many threads there are.
    pub fn threads(&self) -> u32
        ensures count { result ≡ length self.now.threads }
        ensures small { result ≤ thread_limit }
    {
        self.program.threads()
    }

    /// How many instructions a thread has.
    pub fn code_len(&self, thread: u32) -> u32
        requires { thread < length self.now.threads }
        ensures count { result ≡ length (code_of self.now thread) }
        ensures some { 0 < result }
        ensures small { result ≤ instruction_limit }
    {
        self.program.code_len(thread)
    }

    /// The code of a thread.
    pub fn code(&self, thread: u32) -> &[Op]
        requires { thread < length self.now.threads }
        ensures is { result.now ≡ code_of self.now thread }
        ensures some { 0 < length result.now }
        ensures small { length result.now ≤ instruction_limit }
        ensures fine { (at depth : ℕ) → Reaches self.now thread at depth → IsFine self.now thread at depth }
    {
        // A thread has code, and no more than the limit.
        let code_len = self.code_len(thread);
        prove!(0 < code_len && code_len <= INSTRUCTION_LIMIT);
        self.program.code(thread)
    }

    /// The instruction of a thread at a position.
    pub fn op(&self, thread: u32, at: u32) -> Op
        requires thread { thread < length self.now.threads }
        requires inside { at < length (code_of self.now thread) }
        ensures is { result ≡ op_at self.now thread at }
        ensures small { at < instruction_limit }
        ensures fine { (depth : ℕ) → Reaches self.now thread at depth → IsFine self.now thread at depth }
    {
        self.program.op(thread, at)
    }

    /// How many variables and arrays are declared.
    pub fn decls(&self) -> u32
        ensures count { result ≡ length self.now.decls }
        ensures small { result ≤ cell_limit }
    {
        self.program.decls()
    }

    /// The declaration at a position.
    pub fn decl(&self, at: u32) -> &Decl
        requires { at < length self.now.decls }
        ensures { result.now ≡ decl_at self.now at }
    {
        self.program.decl(at)
    }

    /// How many monitors are declared.
    pub fn monitors(&self) -> u32
        ensures count { result ≡ length self.now.monitors }
        ensures small { result ≤ monitor_limit }
    {
        self.program.monitors()
    }

    /// The name of the monitor at a position.
    pub fn monitor(&self, at: u32) -> &Name
        requires { at < length self.now.monitors }
        ensures { result.now ≡ slice_index_or self.now.monitors at result.now }
    {
        &self.program.monitors[at as usize]
    }

    /// How many cells the variables and arrays have together.
    pub fn cells(&self) -> u32
        ensures count { result ≡ cell_count self.now.decls }
        ensures small { result ≤ cell_limit }
    {
        self.program.cells
    }

    /// The starting value of a cell.
    pub fn start_of(&self, cell: u32) -> u64
        requires { cell < cell_count self.now.decls }
        ensures { result ≡ start_of self.now cell }
    {
        start_in(&self.program.decls, cell)
    }

    /// The number of the first cell of a declaration.
    pub fn first_cell(&self, decl: u32) -> u32
        requires { decl < length self.now.decls }
        ensures is { result ≡ first_cell self.now.decls decl }
        ensures within { result + cells_of (decl_at self.now decl).shape ≤ cell_count self.now.decls }
        ensures small { cell_count self.now.decls ≤ cell_limit }
    {
        self.program.firsts[decl as usize]
    }
}
