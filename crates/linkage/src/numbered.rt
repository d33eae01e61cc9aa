//! Items that are numbered: writes of cells, and turns of monitors.
ghost use Rattle.std.specs.Prelude.{◌≡◌, IsPermutation};
ghost use Rattle.linkage.specs.Numbers.{IsFirstTwice, IsOrdered};

/// An item that has a number among those of its owner. A write belongs to a cell and has a value; a turn belongs to a monitor and
/// has none.
#[derive(Clone, Copy, Debug, PartialEq, Eq)]
pub(crate) struct Numbered<V> {
    pub(crate) owner: u32,
    pub(crate) number: u32,
    pub(crate) value: V,
}

/// Sorts items by owner, then number.
pub(crate) fn sort<V: Copy>(items: &mut Vec<Numbered<V>>)
    ensures permutation { IsPermutation items.old.items items.new.items }
    ensures ordered { IsOrdered items.new.items }
{
    items.sort_unstable_by_key(|item| (item.owner, item.number));
}

/// The least owner and number that two of the items have.
pub(crate) fn first_twice<V: Copy>(items: &[Numbered<V>]) -> Option<(u32, u32)>
    requires { IsOrdered items.now }
    ensures { IsFirstTwice items.now result }
{
    for i in 1..items.len() {
        let before = items[i - 1];
        let item = items[i];
        if before.owner == item.owner && before.number == item.number {
            return Some((item.owner, item.number));
        }
    }
    None
}
