//! `latest`: a look-up in a sorted list of writes.
ghost use Rattle.std.specs.Prelude.{◌≡◌, ◌+◌, ◌-◌, ◌*◌, ◌^◌, ◌<◌, ◌≤◌, ◌↔◌, IsTrue, length};
ghost use Rattle.linkage.specs.Answers.{IsLatest};
ghost use Rattle.linkage.specs.Looking.{IsHit, IsUpTo};

use std::sync::ledger::Ledger;
use stride_base::{Ascending, Steps};

// Whether a member of the index stands at this triple or before it, in dictionary order.
fn is_up_to(member: (u32, u64, u32), cell: u32, value: u64, bound: u32) -> bool
    ensures { IsTrue result ↔ IsUpTo member cell value bound }
{
    if member.0 != cell {
        return member.0 < cell;
    }
    if member.1 != value {
        return member.1 < value;
    }
    member.2 <= bound
}

// The number of a member that has this cell and value.
fn hit(member: (u32, u64, u32), cell: u32, value: u64) -> Option<u32>
    ensures { IsHit member cell value result }
{
    if member.0 == cell && member.1 == value {
        Some(member.2)
    } else {
        None
    }
}

/// The greatest number within the bound that the index lists with this cell and value, or `None` exactly where it lists none.
/// The index lists a write as its cell, its value and its number. It takes no memory.
pub fn latest<L: Ledger>(
    index: &Ascending,
    cell: u32,
    value: u64,
    bound: u32,
    steps: &mut Steps<L>,
) -> Option<u32>
    ensures latest { IsLatest index.now cell value bound result }
    ensures counted { steps.old ≤ steps.new }
    ensures looks { 2 ^ (steps.new - steps.old) ≤ 2 * length index.now + 1 }
{
    let mut low = 0;
    let mut high = index.len();
    let mut found = None;
    while low < high {
        let middle = low + (high - low) / 2;
        let member = index.at(middle, steps);
        if is_up_to(member, cell, value, bound) {
            found = hit(member, cell, value);
            low = middle + 1;
        } else {
            high = middle;
        }
    }
    found
}
