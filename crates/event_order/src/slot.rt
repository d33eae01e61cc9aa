//! `Slot`: what an event fills, and what other events wait for.

/// A number of a row. Each cell has a row for its writes and one for the reads that are linked to them, and each monitor has one
/// for its exits.
#[derive(Clone, Copy, PartialEq, Eq)]
pub(crate) struct Slot {
    pub(crate) row: u32,
    pub(crate) number: u32,
}
