//! The row of all writes, by cell and number.
ghost use Rattle.std.specs.Prelude.{◌≡◌, ◌+◌, ◌*◌, ◌≤◌, IfOk, length};
ghost use Rattle.linkage.specs.AllOf.{WriteGiven};
ghost use Rattle.linkage.specs.Answers.{IsTold};
ghost use Rattle.linkage.specs.Checking.{IsRowAnswer};
ghost use Rattle.linkage.specs.Placing.{AreWriteSpans, IsUnplaced};
ghost use Rattle.linkage.specs.Sources.{event_count};
ghost use Rattle.linkage.specs.Spans.{AreTops};

use crate::gaps::first_gap;
use crate::gathered::gather;
use crate::link_error::LinkError;
use crate::numbered::{first_twice, sort};
use crate::placing::place_writes;
use crate::spans::Spans;
use interleavings::Traces;
use std::alloc::Global;
use std::sync::ledger::Ledger;
use stride_base::{NoMemory, Steps};
use stride_isa::limits::CELL_LIMIT;

/// The values of all writes. No number is twice there or left out, and each stands behind the first of its cell by its number.
#[derive(Drop)]
pub(crate) struct Row {
    pub(crate) values: Vec<u64>,
    pub(crate) spans: Spans,
}

// The least number that is written twice, or the least that is left out where none is twice. All writes are sorted for it, which
// takes more time and memory than the row does, but only where something is refused.
fn first_refused<L: Ledger>(
    alloc: Global,
    traces: &Traces,
    spans: &Spans,
    steps: &mut Steps<L>,
) -> Result<LinkError, NoMemory>
    requires spans { AreWriteSpans traces.now spans.now }
    requires unplaced { IsUnplaced traces.now spans.now }
    ensures told { IfOk result (IsTold traces.now) }
    ensures looks { steps.new ≤ steps.old + event_count traces.now }
{
    let mut writes = gather(alloc, traces, steps)?.writes;
    sort(&mut writes);
    let items = writes.as_slice();
    if let Some((cell, number)) = first_twice(items) {
        return Ok(LinkError::TwiceWritten { cell, number });
    }
    let (cell, number) = first_gap(items, spans.greatest.as_slice()).unwrap();
    Ok(LinkError::WriteGap { cell, number })
}

/// The row of all writes, or the first number that is written twice or left out.
pub(crate) fn row_of<L: Ledger>(
    alloc: Global,
    traces: &Traces,
    greatest: Vec<u32>,
    steps: &mut Steps<L>,
) -> Result<Row, LinkError>
    requires greatest { AreTops (WriteGiven traces.now) (length traces.now.starts) greatest.items }
    requires cells { length traces.now.starts ≤ CELL_LIMIT }
    ensures row { IsRowAnswer traces.now result }
    ensures looks { steps.new ≤ steps.old + 2 * event_count traces.now }
{
    let spans = Spans::of(alloc, greatest)?;
    if let Some(placing) = place_writes(alloc, traces, &spans, steps)? {
        return Ok(Row {
            values: placing.values,
            spans,
        });
    }
    Err(first_refused(alloc, traces, &spans, steps)?)
}
