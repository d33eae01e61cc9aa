//! Programs while they are put together.
ghost use Rattle.std.specs.Prelude.{◌≡◌, ◌==◌, ◌||◌, ◌<◌, ◌≤◌, ◌+◌, ◌^◌, false, length, IfOk, IfErr, OnOk, OnErr, nat_lt, nat_le, map, slice_get, Some, slice_index};
ghost use Rattle.std.specs.List.{list_any};
ghost use Rattle.std.specs.Str.{bytes_eq};
ghost use Rattle.stride_isa.specs.Limits.{cell_limit, instruction_limit, monitor_limit, thread_limit};
ghost use Rattle.stride_isa.specs.Listing.{empty, is_taken, cell_count, cells_of, first_cell, start_of, instruction_count, code_of, op_at, decl_at, with_decl, with_monitor, with_thread, with_op, push_last, RefusesBy};
ghost use Rattle.stride_isa.specs.WellFormed.{HasSize, PushesWord};
ghost use Rattle.stride_isa.specs.declared.program.AddError.TheVariants.{NoMemory};

use crate::decl::{Decl, Shape, declaration_facts};
use crate::limits::{CELL_LIMIT, INSTRUCTION_LIMIT, MONITOR_LIMIT, THREAD_LIMIT};
use crate::name::Name;
use crate::op::Op;
use std::alloc::{AllocError, AllocFailed, Global};
use std::marker::Model;

/// Why something was not added to a program.
#[derive(Clone, Copy, Debug, PartialEq, Eq)]
pub enum AddError {
    /// A declaration or a monitor has the name already.
    Twice,
    /// A limit of the program is reached.
    TooMany,
    /// Memory ran out.
    NoMemory,
}

impl From<AllocError> for AddError {
    ghost from_gives = { λ _ e. e ≡ NoMemory };

    fn from(_error: AllocError) -> AddError {
        AddError::NoMemory
    }
}

impl<T: Drop> From<AllocFailed<T>> for AddError {
    ghost from_gives = { λ _ e. e ≡ NoMemory };

    fn from(_error: AllocFailed<T>) -> AddError {
        AddError::NoMemory
    }
}

fn declares(decls: &[Decl], name: &[u8]) -> bool
    ensures { result ≡ list_any (λ d. bytes_eq d.name name.now) decls.now }
{
    decls.iter().any(|decl| decl.name.as_slice() == name)
}

fn names_monitor(monitors: &[Name], name: &[u8]) -> bool
    ensures { result ≡ list_any (λ monitor. bytes_eq monitor name.now) monitors.now }
{
    monitors.iter().any(|monitor| monitor.as_slice() == name)
}

fn is_named(decls: &[Decl], monitors: &[Name], name: &[u8]) -> bool
    ensures { result ≡ (list_any (λ d. bytes_eq d.name name.now) decls.now || list_any (λ monitor. bytes_eq monitor name.now) monitors.now) }
{
    declares(decls, name) || names_monitor(monitors, name)
}

// What holds of every instruction; the call does nothing.
fn op_facts(op: Op)
    ensures { PushesWord op }
{
    if let Op::Push(word) = op {
        let _word = word;
    }
}

fn push_to_last(threads: &mut Vec<Vec<Op>>, op: Op) -> Result<(), AllocError>
    requires { 0 < length threads.old.items }
    ensures added { OnOk result (map (λ code. code.items) threads.new.items ≡ push_last (map (λ code. code.items) threads.old.items) op) }
    ensures err { OnErr result (map (λ code. code.items) threads.new.items ≡ map (λ code. code.items) threads.old.items) }
{
    let last = threads.len() - 1;
    threads[last].push(op)?;
    Ok(())
}

/// Declarations, monitors and the code of each thread, within the limits and with no name twice.
#[derive(Drop)]
pub struct Program {
    pub(crate) decls: Vec<Decl>,
    pub(crate) firsts: Vec<u32>,
    pub(crate) monitors: Vec<Name>,
    pub(crate) threads: Vec<Vec<Op>>,
    pub(crate) cells: u32,
    instructions: u32,
}

impl Model for Program {
    ghost use Rattle.std.specs.Prelude.{map};
    ghost use Rattle.stride_isa.specs.Limits.{cell_limit, instruction_limit, monitor_limit, thread_limit};
    ghost use Rattle.stride_isa.specs.Listing.{Listing};
    ghost use Rattle.stride_isa.specs.Kept.{IsKept};

    ghost Value = { Listing };

    ghost view = { λ p. record { decls = p.decls.items; monitors = p.monitors.items; threads = map (λ code. code.items) p.threads.items } };

    ghost invariant = { λ p. IsKept (record { decls = p.decls.items; monitors = p.monitors.items; threads = map (λ code. code.items) p.threads.items }) p.firsts.items p.cells p.instructions };
}

impl Program {
    /// The program that declares nothing and has no thread. It takes no memory.
    pub fn new(alloc: Global) -> Program
        ensures { result ≡ empty }
    {
        Program {
            decls: Vec::new(alloc),
            firsts: Vec::new(alloc),
            monitors: Vec::new(alloc),
            threads: Vec::new(alloc),
            cells: 0,
            instructions: 0,
        }
    }

    /// Declares a variable or an array, and answers the declaration's position. A refusal changes nothing.
    pub fn add_cells(&mut self, decl: Decl) -> Result<u32, AddError>
        requires { HasSize decl.shape }
        ensures position { IfOk result (λ at. at ≡ length self.old.decls) }
        ensures added { OnOk result (self.new ≡ with_decl self.old decl) }
        ensures refused { RefusesBy (is_taken self.old decl.name) (nat_lt cell_limit (cell_count self.old.decls + cells_of decl.shape)) result }
        ensures err { OnErr result (self.new ≡ self.old) }
    {
        if is_named(&self.decls, &self.monitors, decl.name.as_slice()) {
            return Err(AddError::Twice);
        }
        declaration_facts(&decl);
        let size = decl.shape.cells();
        if size > CELL_LIMIT - self.cells {
            return Err(AddError::TooMany);
        }
        let at = self.decls.len() as u32;
        self.firsts.reserve(1)?;
        self.decls.push(decl)?;
        self.firsts.push_reserved(self.cells);
        self.cells += size;
        Ok(at)
    }

    /// Declares a monitor, and answers its position. A refusal changes nothing.
    pub fn add_monitor(&mut self, name: Name) -> Result<u32, AddError>
        ensures position { IfOk result (λ at. at ≡ length self.old.monitors) }
        ensures added { OnOk result (self.new ≡ with_monitor self.old name) }
        ensures refused { RefusesBy (is_taken self.old name) (nat_le monitor_limit (length self.old.monitors)) result }
        ensures err { OnErr result (self.new ≡ self.old) }
    {
        if is_named(&self.decls, &self.monitors, name.as_slice()) {
            return Err(AddError::Twice);
        }
        let at = self.monitors.len();
        if at >= MONITOR_LIMIT {
            return Err(AddError::TooMany);
        }
        self.monitors.push(name)?;
        Ok(at as u32)
    }

    /// Begins the next thread, and answers its number. A refusal changes nothing, and none is `Twice`.
    pub fn add_thread(&mut self) -> Result<u32, AddError>
        ensures position { IfOk result (λ thread. thread ≡ length self.old.threads) }
        ensures added { OnOk result (self.new ≡ with_thread self.old) }
        ensures refused { RefusesBy false (nat_le thread_limit (length self.old.threads)) result }
        ensures err { OnErr result (self.new ≡ self.old) }
    {
        let thread = self.threads.len();
        if thread >= THREAD_LIMIT {
            return Err(AddError::TooMany);
        }
        let code = Vec::new(*self.threads.allocator());
        self.threads.push(code)?;
        Ok(thread as u32)
    }

    /// Appends an instruction to the last thread. A refusal changes nothing, and none is `Twice`.
    pub fn add_op(&mut self, op: Op) -> Result<(), AddError>
        requires { 0 < length self.old.threads }
        ensures added { OnOk result (self.new ≡ with_op self.old op) }
        ensures threads { length self.new.threads ≡ length self.old.threads }
        ensures refused { RefusesBy false (nat_le instruction_limit (instruction_count self.old.threads)) result }
        ensures err { OnErr result (self.new ≡ self.old) }
    {
        if self.instructions >= INSTRUCTION_LIMIT {
            return Err(AddError::TooMany);
        }
        op_facts(op);
        push_to_last(&mut self.threads, op)?;
        self.instructions += 1;
        Ok(())
    }
}
