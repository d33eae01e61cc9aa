//! Numbers that no item has.
ghost use Rattle.std.specs.Prelude.{◌≡◌, ◌≤◌, length, slice_get};
ghost use Rattle.linkage.specs.Numbers.{AreOwned, AreStarted, IsFirstGap, IsGapAfter, IsOrdered};

use crate::numbered::Numbered;
use stride_isa::limits::CELL_LIMIT;

// The number behind this item's that the next item leaves out, if the owner has a greater one.
fn gap_after<V: Copy>(item: Numbered<V>, next: Option<Numbered<V>>, greatest: u32) -> Option<u32>
    ensures { IsGapAfter item next greatest result }
{
    if greatest == 0 || item.number >= greatest - 1 {
        return None;
    }
    let missing = item.number + 1;
    match next {
        Some(next) if next.owner == item.owner && next.number <= missing => None,
        Some(_) | None => Some(missing),
    }
}

fn item_at<V: Copy>(items: &[Numbered<V>], i: usize) -> Option<Numbered<V>>
    ensures { result ≡ slice_get items.now i }
{
    items.get(i).copied()
}

/// The least owner and number that no item has, of the numbers below the greatest of their owner.
pub(crate) fn first_gap<V: Copy>(items: &[Numbered<V>], greatest: &[u32]) -> Option<(u32, u32)>
    requires few { length greatest.now ≤ CELL_LIMIT }
    requires ordered { IsOrdered items.now }
    requires owned { AreOwned items.now (length greatest.now) }
    requires started { AreStarted items.now (length greatest.now) }
    ensures { IsFirstGap items.now greatest.now result }
{
    for i in 0..items.len() {
        let item = items[i];
        let next = item_at(items, i + 1);
        if let Some(missing) = gap_after(item, next, greatest[item.owner as usize]) {
            return Some((item.owner, missing));
        }
    }
    None
}
