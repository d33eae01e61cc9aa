//! What a pass knows.

use interleavings::{Activity, SeenNumber, Tally};
use std::collections::LinkedList;

/// What a pass knows of its own thread and of those that were taken in by it. Contracts alone see it: no value of it is made.
#[derive(Drop)]
pub struct View {
    /// Whether this is a pass, and not what is left of one that was taken in.
    pub live: bool,
    /// Its name, if it has drawn one, and what it has done and is doing.
    pub activity: Activity,
    /// How many steps it has made, and the last of them.
    pub tally: Tally,
    /// The numbers of cells that it has seen: by itself, before it was split off, or through passes that it took in. Only the
    /// greatest of a cell counts.
    pub seen: LinkedList<SeenNumber>,
    /// What each named pass had done that was taken in, in the order in which they came; what such a pass had gathered stands
    /// behind it.
    pub gathered: LinkedList<Activity>,
    /// The starting values of the cells.
    pub starts: LinkedList<u64>,
    /// How many names may still be drawn by it and by what is split off it.
    pub draws: u64,
}
