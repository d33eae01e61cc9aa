//! Rows that have a place for each number of each owner.
ghost use Rattle.std.specs.Prelude.{◌≡◌, ◌<◌, ◌≤◌, IfOk, length};
ghost use Rattle.linkage.specs.Spans.{AreSpans, HasPlace, place_of};

use std::alloc::Global;
use stride_base::NoMemory;
use stride_isa::limits::CELL_LIMIT;

/// The places of a row: one for each number of each owner, from 0 to the greatest, the owners one behind the other. A write's
/// owner is its cell, and a turn's is its monitor.
#[derive(Drop)]
pub(crate) struct Spans {
    pub(crate) firsts: Vec<usize>,
    pub(crate) greatest: Vec<u32>,
    pub(crate) places: usize,
}

impl Spans {
    /// The places of owners with these greatest numbers.
    pub(crate) fn of(alloc: Global, greatest: Vec<u32>) -> Result<Spans, NoMemory>
        requires few { length greatest.items ≤ CELL_LIMIT }
        ensures spans { IfOk result (λ spans. AreSpans spans) }
        ensures greatest { IfOk result (λ spans. spans.greatest ≡ greatest) }
    {
        let mut firsts = Vec::with_capacity(alloc, greatest.len())?;
        let mut places = 0;
        for top in &greatest {
            firsts.push(places)?;
            places += *top as usize + 1;
        }
        Ok(Spans {
            firsts,
            greatest,
            places,
        })
    }

    /// The place of an owner's number.
    pub(crate) fn place(&self, owner: u32, number: u32) -> usize
        requires spans { AreSpans self.now }
        requires there { HasPlace self.now owner number }
        ensures place { result ≡ place_of self.now owner number }
        ensures inside { result < self.now.places }
    {
        self.firsts[owner as usize] + number as usize
    }
}
