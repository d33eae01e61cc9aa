//! Which positions of a thread's code are targets of jumps.
ghost use Rattle.std.specs.Prelude.{◌≡◌, ◌<◌, ◌||◌, ℕ, false, length, IfOk, replicate};
ghost use Rattle.std.specs.List.{slice_index_or};
ghost use Rattle.assembler.specs.Canonical.{is_target, jumps_to};
ghost use Rattle.stride_isa.specs.Listing.{code_of, op_at};

use std::alloc::Global;
use stride_base::NoMemory;
use stride_isa::{Checked, target_of};

fn no_targets(alloc: Global, count: u32) -> Result<Vec<bool>, NoMemory>
    ensures { IfOk result (λ targets. targets.items ≡ replicate count false) }
{
    let targets = vec![in alloc; false; count as usize]?;
    Ok(targets)
}

// Marks the position that an instruction jumps to.
fn mark_target(targets: &mut Vec<bool>, program: &Checked, thread: u32, at: u32)
    requires thread { thread < length program.now.threads }
    requires inside { at < length (code_of program.now thread) }
    requires places { length targets.old.items ≡ length (code_of program.now thread) }
    ensures places { length targets.new.items ≡ length targets.old.items }
    ensures marked { (k : ℕ) → k < length targets.old.items → slice_index_or targets.new.items k false ≡ (slice_index_or targets.old.items k false || jumps_to k (op_at program.now thread at)) }
{
    program.facts();
    if let Some(target) = target_of(program.op(thread, at)) {
        targets[target as usize] = true;
    }
}

/// For each position of a thread's code whether a jump has it as its target. The whole row is made in one pass over the
/// code, since a search at each position would take the square of its length.
pub(crate) fn targets_of(
    alloc: Global,
    program: &Checked,
    thread: u32,
) -> Result<Vec<bool>, NoMemory>
    requires { thread < length program.now.threads }
    ensures places { IfOk result (λ targets. length targets.items ≡ length (code_of program.now thread)) }
    ensures marked { IfOk result (λ targets. (k : ℕ) → k < length targets.items → slice_index_or targets.items k false ≡ is_target (code_of program.now thread) k) }
{
    let count = program.code_len(thread);
    let mut targets = no_targets(alloc, count)?;
    for at in 0..count {
        mark_target(&mut targets, program, thread, at);
    }
    Ok(targets)
}
