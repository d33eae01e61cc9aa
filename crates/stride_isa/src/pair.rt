//! Pairs of a position and a depth of the stack, and their places in a table.
ghost use Rattle.std.specs.Prelude.{◌≡◌, ◌≤◌};
ghost use Rattle.stride_isa.specs.Marks.{place_of};

use crate::limits::STACK_LIMIT;

/// How many depths a stack may have: none to all of its words.
pub(crate) const DEPTHS: u32 = STACK_LIMIT as u32 + 1;

/// A position of a thread's code, and the depth of the stack with which it is reached.
#[derive(Clone, Copy, Debug, Drop)]
pub(crate) struct Pair {
    pub at: u32,
    pub depth: u32,
}

impl Pair {
    /// The pair's place in the table, which has a row of depths for each position.
    pub(crate) fn place(self) -> usize
        ensures { result ≡ place_of self.at self.depth }
    {
        DEPTHS as usize * self.at as usize + self.depth as usize
    }
}
