//! The pairs of position and depth that a thread reaches: marks for them, closed by a worklist.
ghost use Rattle.std.specs.Prelude.{◌≡◌, ℕ, ◌+◌, ◌*◌, ◌<◌, ◌≤◌, length, replicate, false, Some, true, IfOk, OnOk};
ghost use Rattle.stride_isa.specs.Listing.{code_of};
ghost use Rattle.stride_isa.specs.Marks.{depth_count, place_of, IsMarked, VisitsOnly, IsPair, IsPairInside, IsGrowing, IsTable};
ghost use Rattle.stride_isa.specs.Instructions.{goes_on, kind};
ghost use Rattle.stride_isa.specs.Limits.{stack_limit};
ghost use Rattle.stride_isa.specs.Steps.{FollowsAt, Step};
ghost use Rattle.stride_isa.specs.Validity.{target_of};

use crate::op::{Op, goes_on, kind_of};
use crate::pair::{DEPTHS, Pair};
use crate::program::Program;
use crate::successors::{depth_after, target_of};
use std::alloc::{AllocError, Global};

/// The pairs that are marked, and those of them whose steps are still to be taken.
#[derive(Drop)]
struct Growing {
    marks: Vec<bool>,
    work: Vec<Pair>,
}

// A row of marks, none of them set.
fn unmarked(alloc: Global, count: usize) -> Result<Vec<bool>, AllocError>
    ensures { IfOk result (λ marks. marks.items ≡ replicate count false) }
{
    vec![in alloc; false; count]
}

impl Growing {
    // Marks a pair, which then waits for its steps, unless it is marked already.
    fn visit(&mut self, pair: Pair) -> Result<(), AllocError>
        requires inside { place_of pair.at pair.depth < length self.old.marks.items }
        requires shallow { pair.depth ≤ stack_limit }
        ensures marked { OnOk result (IsMarked self.new.marks.items pair.at pair.depth) }
        ensures visits { OnOk result (VisitsOnly (IsPair pair) self.old self.new) }
    {
        let place = pair.place();
        if self.marks[place] {
            return Ok(());
        }
        self.marks[place] = true;
        self.work.push(pair)?;
        Ok(())
    }

    // The same, where the position is inside the code.
    fn visit_inside(&mut self, pair: Pair, size: u32) -> Result<(), AllocError>
        requires long { length self.old.marks.items ≡ depth_count * size }
        requires shallow { pair.depth ≤ stack_limit }
        ensures marked { OnOk result (pair.at < size → IsMarked self.new.marks.items pair.at pair.depth) }
        ensures visits { OnOk result (VisitsOnly (IsPairInside pair size) self.old self.new) }
    {
        if pair.at >= size {
            return Ok(());
        }
        self.visit(pair)
    }

    // Visits the position to which an instruction may jump.
    fn visit_target(&mut self, op: Op, depth: u32, size: u32) -> Result<(), AllocError>
        requires long { length self.old.marks.items ≡ depth_count * size }
        requires shallow { depth ≤ stack_limit }
        ensures marked { OnOk result ((next : ℕ) → target_of op ≡ Some next → next < size → IsMarked self.new.marks.items next depth) }
        ensures visits { OnOk result (VisitsOnly (λ next after. (target_of op ≡ Some next) × (next < size) × (after ≡ depth)) self.old self.new) }
    {
        match target_of(op) {
            Some(target) => self.visit_inside(Pair { at: target, depth }, size),
            None => Ok(()),
        }
    }

    // Visits the next position, where it may follow.
    fn visit_next(&mut self, op: Op, at: u32, depth: u32, size: u32) -> Result<(), AllocError>
        requires long { length self.old.marks.items ≡ depth_count * size }
        requires inside { at < size }
        requires shallow { depth ≤ stack_limit }
        ensures marked { OnOk result (goes_on (kind op) ≡ true → at + 1 < size → IsMarked self.new.marks.items (at + 1) depth) }
        ensures visits { OnOk result (VisitsOnly (λ next after. (goes_on (kind op) ≡ true) × (next ≡ at + 1) × (next < size) × (after ≡ depth)) self.old self.new) }
    {
        if !goes_on(kind_of(op)) {
            return Ok(());
        }
        self.visit_inside(Pair { at: at + 1, depth }, size)
    }

    // Visits each position that may follow.
    fn follow(&mut self, op: Op, at: u32, depth: u32, size: u32) -> Result<(), AllocError>
        requires long { length self.old.marks.items ≡ depth_count * size }
        requires inside { at < size }
        requires shallow { depth ≤ stack_limit }
        ensures marked { OnOk result ((next : ℕ) → FollowsAt op size at next → IsMarked self.new.marks.items next depth) }
        ensures visits { OnOk result (VisitsOnly (λ next after. FollowsAt op size at next × (after ≡ depth)) self.old self.new) }
    {
        self.visit_target(op, depth, size)?;
        self.visit_next(op, at, depth, size)
    }

    // Takes the steps of a pair.
    fn expand(&mut self, op: Op, pair: Pair, size: u32) -> Result<(), AllocError>
        requires long { length self.old.marks.items ≡ depth_count * size }
        requires inside { pair.at < size }
        ensures marked { OnOk result ((next after : ℕ) → Step op size pair.at pair.depth next after → IsMarked self.new.marks.items next after) }
        ensures visits { OnOk result (VisitsOnly (Step op size pair.at pair.depth) self.old self.new) }
    {
        match depth_after(op, pair.depth) {
            Some(after) => self.follow(op, pair.at, after, size),
            None => Ok(()),
        }
    }
}

// The table in which the start alone is marked.
fn begun(alloc: Global, program: &Program, thread: u32) -> Result<Growing, AllocError>
    requires thread { thread < length program.now.threads }
    requires some { 0 < length (code_of program.now thread) }
    ensures { IfOk result (λ table. IsGrowing program.now thread table.marks.items table.work.items) }
{
    let size = program.code_len(thread);
    let mut table = Growing {
        marks: unmarked(alloc, DEPTHS as usize * size as usize)?,
        work: Vec::new(alloc),
    };
    table.visit(Pair { at: 0, depth: 0 })?;
    Ok(table)
}

/// The table of the pairs that a thread reaches.
pub(crate) fn reached(
    alloc: Global,
    program: &Program,
    thread: u32,
) -> Result<Vec<bool>, AllocError>
    requires thread { thread < length program.now.threads }
    requires some { 0 < length (code_of program.now thread) }
    ensures { IfOk result (λ marks. IsTable program.now thread marks.items) }
{
    let size = program.code_len(thread);
    let mut table = begun(alloc, program, thread)?;
    while let Some(pair) = table.work.pop() {
        table.expand(program.op(thread, pair.at), pair, size)?;
    }
    Ok(table.marks)
}
