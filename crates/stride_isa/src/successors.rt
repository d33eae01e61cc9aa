//! Where an instruction leads, and the depth that it leaves.
ghost use Rattle.std.specs.Prelude.{◌≡◌, ℕ, MatchOption};
ghost use Rattle.stride_isa.specs.Steps.{LeavesDepth};
ghost use Rattle.stride_isa.specs.Validity.{target_of};

use crate::limits::STACK_LIMIT;
use crate::op::{Op, effect, kind_of, operand_of};
use crate::operand::Operand;

/// The position to which an instruction may jump.
pub fn target_of(op: Op) -> Option<u32>
    ensures { result ≡ target_of op }
{
    match operand_of(op) {
        Operand::Label(target) => Some(target),
        Operand::Nothing
        | Operand::Number(_)
        | Operand::Local(_)
        | Operand::Variable(_)
        | Operand::Array(_)
        | Operand::Monitor(_) => None,
    }
}

/// The depth that an instruction leaves, if it has its operands and its results have room.
pub(crate) fn depth_after(op: Op, depth: u32) -> Option<u32>
    ensures { MatchOption result ((after : ℕ) → LeavesDepth op depth after → ⊥) (λ after. LeavesDepth op depth after) }
{
    let (pops, pushes) = effect(kind_of(op));
    let rest = depth.checked_sub(u32::from(pops))?;
    let after = rest.checked_add(u32::from(pushes))?;
    if after > STACK_LIMIT as u32 {
        return None;
    }
    Some(after)
}
