//! Which turns of monitors were entered and left.
ghost use Rattle.std.specs.Prelude.{◌≡◌, ◌+◌, ◌<◌, ◌≤◌, IfOk, IsTrue, length};
ghost use Rattle.interleavings.specs.TraceLists.{events_of};
ghost use Rattle.linkage.specs.Checking.{NoneBelow};
ghost use Rattle.linkage.specs.GatherShows.{place_at};
ghost use Rattle.linkage.specs.Sources.{event_count};
ghost use Rattle.linkage.specs.Spans.{AreSpans};
ghost use Rattle.linkage.specs.Turns.{AreBelowLeft, AreTurnSpans, AreTurnsMarked, IsTurnPlaced, IsMarked};

use crate::placing::count_events;
use crate::spans::Spans;
use interleavings::{Event, Traces};
use std::alloc::Global;
use std::sync::ledger::Ledger;
use stride_base::{NoMemory, Steps};
use stride_isa::limits::MONITOR_LIMIT;

/// Which turns were entered, and which were left, of those up to the greatest that was entered of each monitor.
#[derive(Drop)]
pub(crate) struct TurnMarks {
    pub(crate) entered: Vec<bool>,
    pub(crate) left: Vec<bool>,
}

impl TurnMarks {
    // Marks the turn of an event. It is false where the turn is entered and was before.
    fn mark(&mut self, spans: &Spans, event: Event) -> bool
        requires spans { AreSpans spans.now }
        requires there { IsTurnPlaced spans.now event }
        requires entered { length self.old.entered.items ≡ spans.now.places }
        requires left { length self.old.left.items ≡ spans.now.places }
        ensures { IsMarked spans.now event self.old self.new result }
    {
        match event {
            Event::Enter { mon, turn } => {
                let place = spans.place(mon, turn);
                if self.entered[place] {
                    return false;
                }
                self.entered[place] = true;
            }
            Event::Exit { mon, turn } if turn <= spans.greatest[mon as usize] => {
                let place = spans.place(mon, turn);
                self.left[place] = true;
            }
            Event::Exit { .. } | Event::Read { .. } | Event::Write { .. } | Event::Update { .. } =>
                {}
        }
        true
    }
}

// Turn 0 of each monitor, which nobody entered or left, counts as both.
fn starting_marks(alloc: Global, traces: &Traces, spans: &Spans) -> Result<TurnMarks, NoMemory>
    requires { AreTurnSpans traces.now spans.now }
    ensures { IfOk result (λ marks. AreTurnsMarked traces.now (place_at 0 0) spans.now marks) }
{
    let mut entered = vec![in alloc; false; spans.places]?;
    let mut left = vec![in alloc; false; spans.places]?;
    for monitor in 0..traces.monitors() {
        let place = spans.place(monitor, 0);
        entered[place] = true;
        left[place] = true;
    }
    Ok(TurnMarks { entered, left })
}

// Marks the turns of a thread's events. It ends where a turn is entered twice.
fn mark_thread<L: Ledger>(
    traces: &Traces,
    thread: u32,
    spans: &Spans,
    marks: &mut TurnMarks,
    steps: &mut Steps<L>,
) -> bool
    requires thread { thread < length traces.now.events }
    requires spans { AreTurnSpans traces.now spans.now }
    requires marks { AreTurnsMarked traces.now (place_at thread 0) spans.now marks.old }
    ensures marks { IsTrue result → AreTurnsMarked traces.now (place_at (thread + 1) 0) spans.now marks.new }
    ensures looks { steps.new ≤ steps.old + length (events_of traces.now thread) }
{
    for place in 0..traces.count(thread) {
        let event = traces.at(thread, place, steps);
        if !marks.mark(spans, event) {
            return false;
        }
    }
    true
}

// Whether each turn below the greatest that was entered was left.
fn are_left(spans: &Spans, left: &[bool]) -> bool
    requires spans { AreSpans spans.now }
    requires few { length spans.now.greatest.items ≤ MONITOR_LIMIT }
    requires left { length left.now ≡ spans.now.places }
    ensures { IsTrue result → AreBelowLeft spans.now left.now }
{
    for monitor in 0..spans.greatest.len() as u32 {
        for turn in 0..spans.greatest[monitor as usize] {
            if !left[spans.place(monitor, turn)] {
                return false;
            }
        }
    }
    true
}

/// Whether no turn is entered twice, and each below one that was entered was left. Where it is false, that may still be so.
pub(crate) fn are_turns_whole<L: Ledger>(
    alloc: Global,
    traces: &Traces,
    spans: &Spans,
    steps: &mut Steps<L>,
) -> Result<bool, NoMemory>
    requires spans { AreTurnSpans traces.now spans.now }
    requires numbers { NoneBelow traces.now 3 }
    ensures whole { IfOk result (λ whole. IsTrue whole → NoneBelow traces.now 5) }
    ensures looks { steps.new ≤ steps.old + event_count traces.now }
{
    if spans.places > traces.monitors() as usize + count_events(traces) {
        return Ok(false);
    }
    let mut marks = starting_marks(alloc, traces, spans)?;
    for thread in 0..traces.threads() {
        if !mark_thread(traces, thread, spans, &mut marks, steps) {
            return Ok(false);
        }
    }
    Ok(are_left(spans, marks.left.as_slice()))
}
