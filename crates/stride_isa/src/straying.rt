//! Rule two of the check: the faults on the ways that a thread can take.
ghost use Rattle.std.specs.Prelude.{ℕ, ◌<◌, ◌≤◌, length, IfOk, IfErr};
ghost use Rattle.stride_isa.specs.Faults.{HasDepthFault};
ghost use Rattle.stride_isa.specs.Listing.{code_of};
ghost use Rattle.stride_isa.specs.Marks.{IsTable};
ghost use Rattle.stride_isa.specs.Telling.{TellsKind, TellsSpot, StraysWith, IsFaultless, IsFaultlessThread, IsFaultlessWhole, IsDepthRefusal, IsNamedThread, IsNamedWhole};
ghost use Rattle.stride_isa.specs.Limits.{stack_limit};
ghost use Rattle.stride_isa.specs.declared.check_error.CheckKind.{CheckKind};

use crate::check_error::{CheckError, CheckKind};
use crate::depths::{Depths, depths_at};
use crate::limits::STACK_LIMIT;
use crate::op::{Op, effect, goes_on, kind_of};
use crate::program::Program;
use crate::reaching::reached;
use crate::spot::Spot;
use std::alloc::{AllocError, Global};

// The fault of an instruction that is met with one depth.
fn straying(op: Op, depth: u32, last: bool) -> Option<CheckKind>
    requires { depth ≤ stack_limit }
    ensures { TellsKind (StraysWith op depth last) ((kind : CheckKind) → StraysWith op depth last kind → ⊥) result }
{
    let kind = kind_of(op);
    let (pops, pushes) = effect(kind);
    if depth < u32::from(pops) {
        return Some(CheckKind::Underflow);
    }
    if depth - u32::from(pops) + u32::from(pushes) > STACK_LIMIT as u32 {
        return Some(CheckKind::Overflow);
    }
    if last && goes_on(kind) {
        return Some(CheckKind::RunsOff);
    }
    None
}

// The first fault of a position.
fn fault_at(program: &Program, thread: u32, marks: &Vec<bool>, at: u32) -> Option<CheckKind>
    requires thread { thread < length program.now.threads }
    requires inside { at < length (code_of program.now thread) }
    requires named { IsNamedThread program.now thread }
    requires table { IsTable program.now thread marks.now.items }
    ensures { TellsKind (HasDepthFault program.now thread at) (IsFaultless program.now thread at) result }
{
    match depths_at(marks, at) {
        Depths::Nothing => None,
        Depths::One(depth) => straying(
            program.op(thread, at),
            depth,
            at + 1 == program.code_len(thread),
        ),
        Depths::Several => Some(CheckKind::TwoDepths),
    }
}

// The first fault of a thread that has code.
fn first_marked_fault(program: &Program, thread: u32, marks: &Vec<bool>) -> Option<Spot>
    requires thread { thread < length program.now.threads }
    requires some { 0 < length (code_of program.now thread) }
    requires named { IsNamedThread program.now thread }
    requires table { IsTable program.now thread marks.now.items }
    ensures { TellsSpot (HasDepthFault program.now thread) (IsFaultlessThread program.now thread) result }
{
    for at in 0..program.code_len(thread) {
        if let Some(kind) = fault_at(program, thread, marks, at) {
            return Some(Spot { at, kind });
        }
    }
    None
}

// The first fault of a thread. One without code runs off at once.
fn first_straying(alloc: Global, program: &Program, thread: u32) -> Result<Option<Spot>, AllocError>
    requires thread { thread < length program.now.threads }
    requires named { IsNamedThread program.now thread }
    ensures { IfOk result (TellsSpot (HasDepthFault program.now thread) (IsFaultlessThread program.now thread)) }
{
    if program.code_len(thread) == 0 {
        return Ok(Some(Spot {
            at: 0,
            kind: CheckKind::RunsOff,
        }));
    }
    let marks = reached(alloc, program, thread)?;
    Ok(first_marked_fault(program, thread, &marks))
}

/// Refuses a program for the first fault on a way that a thread can take.
pub(crate) fn check_depths(alloc: Global, program: &Program) -> Result<(), CheckError>
    requires { IsNamedWhole program.now }
    ensures faultless { IfOk result (λ _. IsFaultlessWhole program.now) }
    ensures refused { IfErr result (IsDepthRefusal program.now) }
{
    for thread in 0..program.threads() {
        if let Some(spot) = first_straying(alloc, program, thread)? {
            return Err(spot.refusal(thread));
        }
    }
    Ok(())
}
