//! What the event at a place is linked to, or why not.
ghost use Rattle.std.specs.Prelude.{◌≡◌, ◌+◌, ◌<◌, ◌≤◌, IfOk, OnOk, Some, length, slice_index};
ghost use Rattle.interleavings.specs.TraceLists.{IsInRange};
ghost use Rattle.linkage.specs.Checking.{IsRow};
ghost use Rattle.linkage.specs.Finding.{IsFinder, look_up_looks};
ghost use Rattle.linkage.specs.Misfitting.{IsFinding, IsOldStored};
ghost use Rattle.linkage.specs.Sources.{event_at};

use crate::finder::Finder;
use crate::row::Row;
use interleavings::{Event, Place, Traces};
use std::alloc::Global;
use std::sync::ledger::Ledger;
use stride_base::{NoMemory, Steps};

/// What the event at a place is linked to, or why not.
#[derive(Clone, Copy, Debug, PartialEq, Eq)]
pub(crate) enum Finding {
    /// A read is linked to the write of this number.
    Linked { number: u32 },
    /// The event is no read, and it fits.
    Unlinked,
    /// The bound of the read is above every number of its cell.
    TooLarge,
    /// No write within the bound of the read stored its value.
    Unequal,
    /// The write before the update did not store its old value.
    Mismatch,
}

// Whether the write numbered one below an update's number stored the update's old value.
fn is_old_stored(row: &Row, traces: &Traces, cell: u32, old: u64, number: u32) -> bool
    requires row { IsRow traces.now row.now }
    requires cell { cell < length traces.now.starts }
    requires number { number ≤ slice_index row.now.spans.greatest.items cell }
    ensures { IsOldStored traces.now cell old number result }
{
    number > 0 && row.values[row.spans.place(cell, number) - 1] == old
}

/// Links the event at a place.
pub(crate) fn link_event<L: Ledger>(
    alloc: Global,
    traces: &Traces,
    at: Place,
    event: Event,
    finder: &mut Finder,
    steps: &mut Steps<L>,
) -> Result<Finding, NoMemory>
    requires event { event_at traces.now at ≡ Some event }
    requires range { IsInRange traces.now event }
    requires finder { IsFinder traces.now finder.old }
    ensures finding { IfOk result (IsFinding traces.now at) }
    ensures finder { OnOk result (IsFinder traces.now finder.new) }
    ensures looks { steps.new ≤ steps.old + look_up_looks }
{
    match event {
        Event::Read { cell, value, bound } => {
            if bound > finder.row.spans.greatest[cell as usize] {
                return Ok(Finding::TooLarge);
            }
            match finder.find(alloc, traces, cell, value, bound, steps)? {
                Some(number) => Ok(Finding::Linked { number }),
                None => Ok(Finding::Unequal),
            }
        }
        Event::Update {
            cell,
            old,
            number,
            ..
        } => {
            if is_old_stored(&finder.row, traces, cell, old, number) {
                Ok(Finding::Unlinked)
            } else {
                Ok(Finding::Mismatch)
            }
        }
        Event::Write { .. } | Event::Enter { .. } | Event::Exit { .. } => Ok(Finding::Unlinked),
    }
}
