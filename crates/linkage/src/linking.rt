//! `link`: the links of all events, or why there are none.
ghost use Rattle.std.specs.Prelude.{◌≡◌, ◌+◌, ◌*◌, ◌<◌, ◌≤◌, IfOk, OnOk, length, map};
ghost use Rattle.interleavings.specs.TraceLists.{events_of};
ghost use Rattle.linkage.specs.Answers.{IsAnswer};
ghost use Rattle.linkage.specs.Checking.{NoneBelow};
ghost use Rattle.linkage.specs.Finding.{IsFinder, look_up_looks};
ghost use Rattle.linkage.specs.GatherShows.{place_at};
ghost use Rattle.linkage.specs.Links.{most_looks};
ghost use Rattle.linkage.specs.Misfitting.{AreRowsUpTo, IsAmongFirst, IsProgress, IsRowUpTo};
ghost use Rattle.linkage.specs.Rounds.{IsReached, first_events, sum_first};
ghost use Rattle.linkage.specs.Sources.{event_count};

use crate::finder::Finder;
use crate::finding::link_event;
use crate::link_error::LinkError;
use crate::links::Links;
use crate::misfits::Misfits;
use crate::rounds::{ROUND, longest};
use crate::row::row_of;
use crate::tops::tops_of;
use crate::turns::check_turns;
use interleavings::{Place, Traces};
use std::alloc::Global;
use std::sync::ledger::Ledger;
use stride_base::{NoMemory, Steps};

// Room for the links of each thread's events.
fn room_of(alloc: Global, traces: &Traces) -> Result<Vec<Vec<Option<u32>>>, NoMemory>
    ensures { IfOk result (λ rows. AreRowsUpTo traces.now 0 (map (λ row. row.items) rows.items)) }
{
    let mut rows = Vec::with_capacity(alloc, traces.threads() as usize)?;
    for thread in 0..traces.threads() {
        rows.push(Vec::with_capacity(alloc, traces.count(thread) as usize)?)?;
    }
    Ok(rows)
}

// Links the events of a thread in a round, and keeps the first misfits.
fn link_part<L: Ledger>(
    alloc: Global,
    traces: &Traces,
    thread: u32,
    from: u32,
    to: u32,
    finder: &mut Finder,
    row: &mut Vec<Option<u32>>,
    misfits: &mut Misfits,
    steps: &mut Steps<L>,
) -> Result<(), NoMemory>
    requires thread { thread < length traces.now.events }
    requires order { from ≤ to }
    requires finder { IsFinder traces.now finder.old }
    requires row { IsRowUpTo traces.now thread (first_events traces.now from thread) row.old.items }
    requires progress { IsProgress traces.now (IsReached from to (place_at thread 0)) misfits.old }
    ensures row { OnOk result (IsRowUpTo traces.now thread (first_events traces.now to thread) row.new.items) }
    ensures progress { OnOk result (IsProgress traces.now (IsReached from to (place_at (thread + 1) 0)) misfits.new) }
    ensures finder { OnOk result (IsFinder traces.now finder.new) }
    ensures looks { steps.new + (look_up_looks + 1) * first_events traces.now from thread
        ≤ steps.old + (look_up_looks + 1) * first_events traces.now to thread }
{
    let count = traces.count(thread);
    for place in from.min(count)..to.min(count) {
        let at = Place { thread, place };
        let event = traces.at(thread, place, steps);
        let finding = link_event(alloc, traces, at, event, finder, steps)?;
        row.push(misfits.note(at, finding))?;
    }
    Ok(())
}

// Links the events of all threads in a round.
fn link_round<L: Ledger>(
    alloc: Global,
    traces: &Traces,
    from: u32,
    to: u32,
    finder: &mut Finder,
    rows: &mut Vec<Vec<Option<u32>>>,
    misfits: &mut Misfits,
    steps: &mut Steps<L>,
) -> Result<(), NoMemory>
    requires order { from ≤ to }
    requires finder { IsFinder traces.now finder.old }
    requires rows { AreRowsUpTo traces.now from (map (λ row. row.items) rows.old.items) }
    requires progress { IsProgress traces.now (IsAmongFirst from) misfits.old }
    ensures rows { OnOk result (AreRowsUpTo traces.now to (map (λ row. row.items) rows.new.items)) }
    ensures progress { OnOk result (IsProgress traces.now (IsAmongFirst to) misfits.new) }
    ensures finder { OnOk result (IsFinder traces.now finder.new) }
    ensures looks { steps.new + (look_up_looks + 1) * sum_first from traces.now.events
        ≤ steps.old + (look_up_looks + 1) * sum_first to traces.now.events }
{
    for thread in 0..traces.threads() {
        let row = &mut rows[thread as usize];
        link_part(alloc, traces, thread, from, to, finder, row, misfits, steps)?;
    }
    Ok(())
}

// Links the events of all threads, round by round.
fn link_all<L: Ledger>(
    alloc: Global,
    traces: &Traces,
    finder: &mut Finder,
    steps: &mut Steps<L>,
) -> Result<Links, LinkError>
    requires numbers { NoneBelow traces.now 5 }
    requires finder { IsFinder traces.now finder.old }
    ensures answer { IsAnswer traces.now result }
    ensures looks { steps.new ≤ steps.old + (look_up_looks + 1) * event_count traces.now }
{
    let mut rows = room_of(alloc, traces)?;
    let mut misfits = Misfits {
        too_large: None,
        unequal: None,
        mismatch: None,
    };
    let longest = longest(traces);
    let mut from = 0;
    while from < longest {
        let to = from + ROUND;
        link_round(
            alloc,
            traces,
            from,
            to,
            finder,
            &mut rows,
            &mut misfits,
            steps,
        )?;
        from = to;
    }
    misfits.told()?;
    Ok(Links { rows })
}

/// Links each read to the greatest number within its bound whose write of the cell stored the value that was read.
pub fn link<L: Ledger>(
    alloc: Global,
    traces: &Traces,
    steps: &mut Steps<L>,
) -> Result<Links, LinkError>
    ensures answer { IsAnswer traces.now result }
    ensures looks { steps.new ≤ steps.old + most_looks traces.now }
{
    let tops = tops_of(alloc, traces, steps)?;
    let row = row_of(alloc, traces, tops.writes, steps)?;
    check_turns(alloc, traces, tops.entries, steps)?;
    let mut finder = Finder::new(row);
    link_all(alloc, traces, &mut finder, steps)
}
