//! Which depths of one position are marked.
ghost use Rattle.std.specs.Prelude.{◌≡◌, ◌+◌, ◌<◌, ◌≤◌, length, false};
ghost use Rattle.std.specs.List.{slice_index_or};
ghost use Rattle.stride_isa.specs.Marks.{depth_count, place_of, IsMarked};
ghost use Rattle.stride_isa.specs.Telling.{AreDepths};

use crate::pair::{DEPTHS, Pair};

/// The depths with which a position is reached, as far as the check asks.
#[derive(Clone, Copy, Debug)]
pub(crate) enum Depths {
    Nothing,
    One(u32),
    Several,
}

// Whether a pair is marked.
fn is_marked(marks: &Vec<bool>, pair: Pair) -> bool
    requires { place_of pair.at pair.depth < length marks.now.items }
    ensures { result ≡ slice_index_or marks.now.items (place_of pair.at pair.depth) false }
{
    marks[pair.place()]
}

// What was found, after one more depth of the same position.
fn after_next(found: Depths, marks: &Vec<bool>, pair: Pair) -> Depths
    requires inside { place_of pair.at pair.depth < length marks.now.items }
    requires found { AreDepths (IsMarked marks.now.items pair.at) pair.depth found }
    ensures { AreDepths (IsMarked marks.now.items pair.at) (pair.depth + 1) result }
{
    if !is_marked(marks, pair) {
        return found;
    }
    match found {
        Depths::Nothing => Depths::One(pair.depth),
        Depths::One(_) => Depths::Several,
        Depths::Several => Depths::Several,
    }
}

/// The depths that are marked at a position.
pub(crate) fn depths_at(marks: &Vec<bool>, at: u32) -> Depths
    requires { place_of at depth_count ≤ length marks.now.items }
    ensures { AreDepths (IsMarked marks.now.items at) depth_count result }
{
    let mut found = Depths::Nothing;
    for depth in 0..DEPTHS {
        found = after_next(found, marks, Pair { at, depth });
    }
    found
}
