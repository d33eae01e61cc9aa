//! The write that a read is linked to.
ghost use Rattle.std.specs.Prelude.{◌≡◌, ◌+◌, ◌<◌, ◌≤◌, [], IfOk, IfSome, OnOk, None as Nothing, length, slice_index};
ghost use Rattle.linkage.specs.Checking.{IsRow, IsShaped};
ghost use Rattle.linkage.specs.Finding.{IsFinder, IsIndex, IsLinkOrNone, IsNear, IsWindow, index_looks, look_up_looks, window_looks};
ghost use Rattle.linkage.specs.Indexing.{AreListedBefore, AreListedFrom};
ghost use Rattle.linkage.specs.Links.{IsLink};
ghost use Rattle.linkage.specs.Spans.{HasPlace, places_before};

use crate::latest_write::latest;
use crate::row::Row;
use interleavings::Traces;
use std::alloc::Global;
use std::sync::ledger::Ledger;
use stride_base::{Ascending, List, NoMemory, Steps};

/// How many writes are looked at before the index is: the one at the bound and eight below.
const NEAR: u32 = 9;

/// How many writes below the bound are sorted first for a read whose write is not near.
const NARROW: u32 = 32;

/// How many are sorted if it is not among those.
const WIDE: u32 = 1024;

/// The row of all writes, and their index by value once a read has needed it. Nearly each read of a recording is linked to its
/// bound or to one of a few writes below, which the row shows. For nearly each of the others an index of the writes not far
/// below the bound is enough, which is sorted for that read alone; an index of all writes is sorted only for what is left.
#[derive(Drop)]
pub(crate) struct Finder {
    pub(crate) row: Row,
    pub(crate) index: Option<Ascending>,
    /// How many writes may still be sorted for one read alone, so that all of this takes no longer than sorting all writes.
    pub(crate) spare: usize,
}

// The greatest number within the bound that stored the value, if it is near the bound.
fn near(row: &Row, cell: u32, value: u64, bound: u32) -> Option<u32>
    requires shape { IsShaped row.now }
    requires there { HasPlace row.now.spans cell bound }
    ensures { IsNear row.now cell value bound result }
{
    let place = row.spans.place(cell, bound);
    for below in 0..NEAR {
        if below > bound {
            return None;
        }
        if row.values[place - below as usize] == value {
            return Some(bound - below);
        }
    }
    None
}

// Lists the writes of a cell from one number to another by cell, value and number.
fn list_span(row: &Row, cell: u32, first: u32, last: u32, triples: &mut List<(u32, u64, u32)>)
    requires shape { IsShaped row.now }
    requires there { HasPlace row.now.spans cell last }
    requires order { first ≤ last }
    requires none { triples.old.items ≡ [] }
    requires room { last < first + triples.old.spare }
    ensures { AreListedFrom row.now cell first (last + 1) triples.new.items }
{
    for number in first..=last {
        let value = row.values[row.spans.place(cell, number)];
        triples.push_spare((cell, value, number));
    }
}

// The writes of a cell from `width` below the bound up to it, by value and number.
fn window_of(
    alloc: Global,
    row: &Row,
    cell: u32,
    bound: u32,
    width: u32,
) -> Result<Ascending, NoMemory>
    requires shape { IsShaped row.now }
    requires there { HasPlace row.now.spans cell bound }
    ensures { IfOk result (λ index. IsWindow row.now cell bound width index) }
{
    let first = bound.saturating_sub(width);
    let mut triples = List::new(alloc);
    triples.reserve((bound - first) as usize + 1)?;
    list_span(row, cell, first, bound, &mut triples);
    Ok(Ascending::sorted(triples))
}

// Lists the writes of a cell by cell, value and number.
fn list_cell(row: &Row, cell: u32, triples: &mut List<(u32, u64, u32)>)
    requires shape { IsShaped row.now }
    requires cell { cell < length row.now.spans.greatest.items }
    requires room { places_before row.now.spans.greatest.items (cell + 1) ≤ length triples.old.items + triples.old.spare }
    requires triples { AreListedBefore row.now cell 0 triples.old.items }
    ensures triples { AreListedBefore row.now (cell + 1) 0 triples.new.items }
    ensures room { length triples.new.items + triples.new.spare ≡ length triples.old.items + triples.old.spare }
{
    for number in 0..=row.spans.greatest[cell as usize] {
        let value = row.values[row.spans.place(cell, number)];
        triples.push_spare((cell, value, number));
    }
}

// All writes by cell, value and number.
fn index_of(alloc: Global, traces: &Traces, row: &Row) -> Result<Ascending, NoMemory>
    requires { IsRow traces.now row.now }
    ensures { IfOk result (λ index. IsIndex traces.now index) }
{
    let mut triples = List::new(alloc);
    triples.reserve(row.values.len())?;
    for cell in 0..traces.cells() {
        list_cell(row, cell, &mut triples);
    }
    Ok(Ascending::sorted(triples))
}

// The index that is there, or a new one.
fn index_or_new(
    alloc: Global,
    traces: &Traces,
    row: &Row,
    known: Option<Ascending>,
) -> Result<Ascending, NoMemory>
    requires row { IsRow traces.now row.now }
    requires known { IfSome known (IsIndex traces.now) }
    ensures { IfOk result (λ index. IsIndex traces.now index) }
{
    match known {
        Some(index) => Ok(index),
        None => index_of(alloc, traces, row),
    }
}

impl Finder {
    /// The row of all writes, and no index yet.
    pub(crate) fn new(row: Row) -> Finder
        ensures row { result.row ≡ row }
        ensures index { result.index ≡ Nothing }
    {
        let spare = row.values.len();
        Finder {
            row,
            index: None,
            spare,
        }
    }

    // The greatest number within the bound whose write of the cell stored the value, if it is at most so much below the bound and
    // no index of all writes is there.
    fn look_below<L: Ledger>(
        &mut self,
        alloc: Global,
        traces: &Traces,
        cell: u32,
        value: u64,
        bound: u32,
        width: u32,
        steps: &mut Steps<L>,
    ) -> Result<Option<u32>, NoMemory>
        requires finder { IsFinder traces.now self.old }
        requires cell { cell < length traces.now.starts }
        requires bound { bound ≤ slice_index self.old.row.spans.greatest.items cell }
        requires width { width ≤ WIDE }
        ensures found { IfOk result (λ found. IfSome found (IsLink traces.now cell value bound)) }
        ensures finder { OnOk result (IsFinder traces.now self.new) }
        ensures row { self.new.row ≡ self.old.row }
        ensures looks { steps.new ≤ steps.old + window_looks }
    {
        if self.index.is_some() || self.spare < width as usize {
            return Ok(None);
        }
        self.spare -= width as usize;
        let index = window_of(alloc, &self.row, cell, bound, width)?;
        Ok(latest(&index, cell, value, bound, steps))
    }

    // Looks the write up in the index, which is made where it is not there yet.
    fn look_up<L: Ledger>(
        &mut self,
        alloc: Global,
        traces: &Traces,
        cell: u32,
        value: u64,
        bound: u32,
        steps: &mut Steps<L>,
    ) -> Result<Option<u32>, NoMemory>
        requires { IsFinder traces.now self.old }
        ensures found { IfOk result (λ found. IsLinkOrNone traces.now cell value bound found) }
        ensures finder { OnOk result (IsFinder traces.now self.new) }
        ensures looks { steps.new ≤ steps.old + index_looks }
    {
        let index = index_or_new(alloc, traces, &self.row, self.index.take())?;
        let found = latest(&index, cell, value, bound, steps);
        self.index = Some(index);
        Ok(found)
    }

    /// The greatest number within the bound whose write of the cell stored the value, if there is one.
    pub(crate) fn find<L: Ledger>(
        &mut self,
        alloc: Global,
        traces: &Traces,
        cell: u32,
        value: u64,
        bound: u32,
        steps: &mut Steps<L>,
    ) -> Result<Option<u32>, NoMemory>
        requires finder { IsFinder traces.now self.old }
        requires cell { cell < length traces.now.starts }
        requires bound { bound ≤ slice_index self.old.row.spans.greatest.items cell }
        ensures found { IfOk result (λ found. IsLinkOrNone traces.now cell value bound found) }
        ensures finder { OnOk result (IsFinder traces.now self.new) }
        ensures looks { steps.new ≤ steps.old + look_up_looks }
    {
        if let Some(number) = near(&self.row, cell, value, bound) {
            return Ok(Some(number));
        }
        if let Some(number) = self.look_below(alloc, traces, cell, value, bound, NARROW, steps)? {
            return Ok(Some(number));
        }
        if let Some(number) = self.look_below(alloc, traces, cell, value, bound, WIDE, steps)? {
            return Ok(Some(number));
        }
        self.look_up(alloc, traces, cell, value, bound, steps)
    }
}
