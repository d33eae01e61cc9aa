//! A plain, slow check of programs that declare a variable, an array and a monitor: by the definitions, over a table that
//! is gone through again until nothing changes. `check` is compared with it.

use crate::check_error::{CheckError, CheckKind};
use crate::limits::{LOCAL_COUNT, STACK_LIMIT};
use crate::op::{Op, effect, kind_of};
use std::alloc::{AllocError, Global};

/// How many depths a stack may have.
const DEPTHS: usize = STACK_LIMIT + 1;

fn names_well(op: Op) -> bool {
    match op {
        Op::Get(local) | Op::Set(local) => usize::from(local) < LOCAL_COUNT,
        Op::Read(decl) | Op::Write(decl) | Op::Xchg(decl) | Op::AddTo(decl) | Op::Cas(decl) => decl
            == 0,
        Op::ReadAt(decl) | Op::WriteAt(decl) => decl == 1,
        Op::Enter(monitor) | Op::Exit(monitor) => monitor == 0,
        _ => true,
    }
}

// The positions that may follow.
fn successors(op: Op, at: usize) -> [Option<usize>; 2] {
    let next = at.saturating_add(1);
    match op {
        Op::Jump(target) => [Some(target as usize), None],
        Op::Jz(target) | Op::Jnz(target) => [Some(target as usize), Some(next)],
        Op::Halt => [None, None],
        _ => [Some(next), None],
    }
}

fn jumps_inside(op: Op, size: usize) -> bool {
    match op {
        Op::Jump(target) | Op::Jz(target) | Op::Jnz(target) => (target as usize) < size,
        _ => true,
    }
}

fn first_misnaming(code: &[Op]) -> Option<(usize, CheckKind)> {
    for (at, op) in code.iter().enumerate() {
        if !names_well(*op) {
            return Some((at, CheckKind::BadName));
        }
        if !jumps_inside(*op, code.len()) {
            return Some((at, CheckKind::BadTarget));
        }
    }
    None
}

// The depth after an instruction that has its operands.
fn depth_after(op: Op, depth: usize) -> Option<usize> {
    let (pops, pushes) = effect(kind_of(op));
    let rest = depth.checked_sub(usize::from(pops))?;
    Some(rest.saturating_add(usize::from(pushes)))
}

fn place(at: usize, depth: usize) -> usize {
    at.saturating_mul(DEPTHS).saturating_add(depth)
}

fn is_marked(marks: &Vec<bool>, at: usize, depth: usize) -> bool {
    matches!(marks.get(place(at, depth)), Some(true))
}

// Marks a pair inside the table, and tells whether it was not marked.
fn mark(marks: &mut Vec<bool>, at: usize, depth: usize) -> bool {
    let place = place(at, depth);
    if depth >= DEPTHS || place >= marks.len() || marks[place] {
        return false;
    }
    marks[place] = true;
    true
}

// Marks what one pair leads to, if it is marked itself.
fn spread_pair(marks: &mut Vec<bool>, op: Op, at: usize, depth: usize) -> bool {
    if !is_marked(marks, at, depth) {
        return false;
    }
    let Some(after) = depth_after(op, depth) else {
        return false;
    };
    let mut changed = false;
    for next in successors(op, at) {
        if let Some(next) = next {
            changed |= mark(marks, next, after);
        }
    }
    changed
}

fn spread_position(marks: &mut Vec<bool>, op: Op, at: usize) -> bool {
    let mut changed = false;
    for depth in 0..DEPTHS {
        changed |= spread_pair(marks, op, at, depth);
    }
    changed
}

fn spread(marks: &mut Vec<bool>, code: &[Op]) -> bool {
    let mut changed = false;
    for (at, op) in code.iter().enumerate() {
        changed |= spread_position(marks, *op, at);
    }
    changed
}

// What a thread reaches: each round marks a pair at least, until one changes nothing.
fn reached(alloc: Global, code: &[Op]) -> Result<Vec<bool>, AllocError> {
    let mut marks = vec![in alloc; false; code.len().saturating_mul(DEPTHS)]?;
    mark(&mut marks, 0, 0);
    for _round in 0..marks.len() {
        if !spread(&mut marks, code) {
            return Ok(marks);
        }
    }
    Ok(marks)
}

fn fault_at(marks: &Vec<bool>, op: Op, at: usize, size: usize) -> Option<CheckKind> {
    let count = (0..DEPTHS)
        .filter(|depth| is_marked(marks, at, *depth))
        .count();
    let least = (0..DEPTHS).find(|depth| is_marked(marks, at, *depth))?;
    if count > 1 {
        return Some(CheckKind::TwoDepths);
    }
    match depth_after(op, least) {
        None => Some(CheckKind::Underflow),
        Some(after) if after >= DEPTHS => Some(CheckKind::Overflow),
        Some(_) if successors(op, at).contains(&Some(size)) => Some(CheckKind::RunsOff),
        Some(_) => None,
    }
}

fn first_straying(alloc: Global, code: &[Op]) -> Result<Option<(usize, CheckKind)>, AllocError> {
    if code.is_empty() {
        return Ok(Some((0, CheckKind::RunsOff)));
    }
    let marks = reached(alloc, code)?;
    for (at, op) in code.iter().enumerate() {
        if let Some(kind) = fault_at(&marks, *op, at, code.len()) {
            return Ok(Some((at, kind)));
        }
    }
    Ok(None)
}

fn bad(kind: CheckKind, thread: usize, at: usize) -> CheckError {
    let thread = u32::try_from(thread).unwrap_or(u32::MAX);
    let instruction = u32::try_from(at).unwrap_or(u32::MAX);
    CheckError::Bad {
        kind,
        thread,
        instruction,
    }
}

/// The refusal of a program with these threads.
pub(crate) fn refusal(alloc: Global, threads: &[&[Op]]) -> Result<Option<CheckError>, AllocError> {
    for (thread, code) in threads.iter().enumerate() {
        if let Some((at, kind)) = first_misnaming(code) {
            return Ok(Some(bad(kind, thread, at)));
        }
    }
    for (thread, code) in threads.iter().enumerate() {
        if let Some((at, kind)) = first_straying(alloc, code)? {
            return Ok(Some(bad(kind, thread, at)));
        }
    }
    Ok(None)
}
