//! The check of the turns of monitors.
ghost use Rattle.std.specs.Prelude.{◌≡◌, ◌+◌, ◌*◌, ◌≤◌};
ghost use Rattle.linkage.specs.Checking.{IsTurnsAnswer, NoneBelow};
ghost use Rattle.linkage.specs.GatherShows.{EntryGiven, IsGatheredAll};
ghost use Rattle.linkage.specs.Sources.{event_count};
ghost use Rattle.linkage.specs.Spans.{AreTops};

use crate::gaps::first_gap;
use crate::gathered::{Gathered, gather};
use crate::link_error::LinkError;
use crate::numbered::{first_twice, sort};
use crate::spans::Spans;
use crate::turn_marks::are_turns_whole;
use interleavings::Traces;
use std::alloc::Global;
use std::sync::ledger::Ledger;
use stride_base::Steps;
use stride_isa::limits::MONITOR_LIMIT;

// Tells which turn is taken twice, or not left though a later one is taken. All turns are sorted for it.
fn check_sorted_turns(
    traces: &Traces,
    greatest: &[u32],
    gathered: Gathered,
) -> Result<(), LinkError>
    requires gathered { IsGatheredAll traces.now gathered }
    requires greatest { AreTops (EntryGiven traces.now) traces.now.monitors greatest.now }
    requires numbers { NoneBelow traces.now 3 }
    ensures { IsTurnsAnswer traces.now result }
{
    let mut entries = gathered.entries;
    sort(&mut entries);
    if let Some((mon, turn)) = first_twice(entries.as_slice()) {
        return Err(LinkError::TwiceTurned { mon, turn });
    }
    let mut exits = gathered.exits;
    sort(&mut exits);
    if let Some((mon, turn)) = first_gap(exits.as_slice(), greatest) {
        return Err(LinkError::TurnGap { mon, turn });
    }
    Ok(())
}

/// Tells which turn of a monitor is taken twice, or not left though a later one is taken. The greatest turn that was taken of
/// each monitor is given. The turns are sorted only where marking them shows that something may be wrong.
pub(crate) fn check_turns<L: Ledger>(
    alloc: Global,
    traces: &Traces,
    greatest: Vec<u32>,
    steps: &mut Steps<L>,
) -> Result<(), LinkError>
    requires greatest { AreTops (EntryGiven traces.now) traces.now.monitors greatest.items }
    requires monitors { traces.now.monitors ≤ MONITOR_LIMIT }
    requires numbers { NoneBelow traces.now 3 }
    ensures turns { IsTurnsAnswer traces.now result }
    ensures looks { steps.new ≤ steps.old + 2 * event_count traces.now }
{
    if traces.monitors() == 0 {
        return Ok(());
    }
    let spans = Spans::of(alloc, greatest)?;
    if are_turns_whole(alloc, traces, &spans, steps)? {
        return Ok(());
    }
    let gathered = gather(alloc, traces, steps)?;
    check_sorted_turns(traces, spans.greatest.as_slice(), gathered)
}
