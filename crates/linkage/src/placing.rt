//! All writes, each put at the place of its cell and number.
ghost use Rattle.std.specs.Prelude.{◌≡◌, ℕ, ◌+◌, ◌*◌, ◌<◌, ◌≤◌, ◌↔◌, IfOk, IsTrue, length};
ghost use Rattle.interleavings.specs.Events.{write_of};
ghost use Rattle.linkage.specs.AllOf.{WriteGiven};
ghost use Rattle.linkage.specs.GatherShows.{place_at};
ghost use Rattle.linkage.specs.Placing.{AreWriteSpans, IsFull, IsPlaced, IsPlacedAnswer, IsPlacedOrUnfit, IsPut, IsTaken, IsWritePlaced};
ghost use Rattle.linkage.specs.Rounds.{first_events, sum_first, Reached};
ghost use Rattle.linkage.specs.Sources.{event_count};
ghost use Rattle.linkage.specs.Spans.{AreSpans, HasPlace, place_of};

use crate::rounds::{ROUND, longest};
use crate::spans::Spans;
use interleavings::{Event, Traces};
use std::alloc::Global;
use std::sync::ledger::Ledger;
use stride_base::{NoMemory, Steps};
use stride_isa::limits::{FUEL_LIMIT, THREAD_LIMIT};

/// The values of writes at their places, and which places have one.
#[derive(Drop)]
pub(crate) struct Placing {
    pub(crate) values: Vec<u64>,
    pub(crate) filled: Vec<bool>,
}

/// How many events there are in all. It looks at none.
pub(crate) fn count_events(traces: &Traces) -> usize
    ensures count { result ≡ event_count traces.now }
    ensures small { result ≤ FUEL_LIMIT * THREAD_LIMIT }
{
    let mut count = 0;
    for thread in 0..traces.threads() {
        count += traces.count(thread) as usize;
    }
    count
}

impl Placing {
    fn put(&mut self, place: usize, value: u64)
        requires values { place < length self.old.values.items }
        requires filled { place < length self.old.filled.items }
        ensures { IsPut place value self.old self.new }
    {
        self.values[place] = value;
        self.filled[place] = true;
    }

    // Puts the write of an event at its place, unless another is there.
    fn take(&mut self, spans: &Spans, event: Event) -> bool
        requires spans { AreSpans spans.now }
        requires there { IsWritePlaced spans.now (write_of event) }
        requires values { length self.old.values.items ≡ spans.now.places }
        requires filled { length self.old.filled.items ≡ spans.now.places }
        ensures { IsTaken spans.now (write_of event) self.old self.new result }
    {
        match event {
            Event::Write {
                cell,
                value,
                number,
            }
            | Event::Update {
                cell,
                new: value,
                number,
                ..
            } => {
                let place = spans.place(cell, number);
                if self.filled[place] {
                    return false;
                }
                self.put(place, value);
                true
            }
            Event::Read { .. } | Event::Enter { .. } | Event::Exit { .. } => true,
        }
    }

    // Whether every place has a value.
    fn is_full(&self) -> bool
        ensures { IsTrue result ↔ IsFull self.now.filled.items }
    {
        for filled in &self.filled {
            if !*filled {
                return false;
            }
        }
        true
    }
}

// The starting values, which are the writes numbered 0, at their places.
fn starting_values(alloc: Global, traces: &Traces, spans: &Spans) -> Result<Placing, NoMemory>
    requires { AreWriteSpans traces.now spans.now }
    ensures { IfOk result (λ placing. (to : ℕ) → IsPlaced (Reached 0 to (place_at 0 0) (WriteGiven traces.now)) spans.now placing) }
{
    let mut placing = Placing {
        values: vec![in alloc; 0; spans.places]?,
        filled: vec![in alloc; false; spans.places]?,
    };
    for cell in 0..traces.cells() {
        placing.put(spans.place(cell, 0), traces.start_of(cell));
    }
    Ok(placing)
}

// Puts the writes of a thread's events from one place on, and before another, at their places. It ends where two have one place.
fn place_part<L: Ledger>(
    traces: &Traces,
    thread: u32,
    from: u32,
    to: u32,
    spans: &Spans,
    placing: &mut Placing,
    steps: &mut Steps<L>,
) -> bool
    requires thread { thread < length traces.now.events }
    requires order { from ≤ to }
    requires spans { AreWriteSpans traces.now spans.now }
    requires placing { IsPlaced (Reached from to (place_at thread 0) (WriteGiven traces.now)) spans.now placing.old }
    ensures placing { IsPlacedOrUnfit traces.now (Reached from to (place_at (thread + 1) 0) (WriteGiven traces.now)) spans.now placing.new result }
    ensures looks { steps.new + first_events traces.now from thread ≤ steps.old + first_events traces.now to thread }
{
    let count = traces.count(thread);
    for place in from.min(count)..to.min(count) {
        let event = traces.at(thread, place, steps);
        if !placing.take(spans, event) {
            return false;
        }
    }
    true
}

// Puts the writes of all threads' events from one place on, and before another, at their places. It ends where two have one place.
fn place_round<L: Ledger>(
    traces: &Traces,
    from: u32,
    to: u32,
    spans: &Spans,
    placing: &mut Placing,
    steps: &mut Steps<L>,
) -> bool
    requires order { from ≤ to }
    requires spans { AreWriteSpans traces.now spans.now }
    requires placing { IsPlaced (Reached from to (place_at 0 0) (WriteGiven traces.now)) spans.now placing.old }
    ensures placing { (later : ℕ) → IsPlacedOrUnfit traces.now (Reached to later (place_at 0 0) (WriteGiven traces.now)) spans.now placing.new result }
    ensures looks { steps.new + sum_first from traces.now.events ≤ steps.old + sum_first to traces.now.events }
{
    for thread in 0..traces.threads() {
        if !place_part(traces, thread, from, to, spans, placing, steps) {
            return false;
        }
    }
    true
}

// Puts the writes of all events at their places, round by round. It ends where two have one place.
fn place_events<L: Ledger>(
    traces: &Traces,
    spans: &Spans,
    placing: &mut Placing,
    steps: &mut Steps<L>,
) -> bool
    requires spans { AreWriteSpans traces.now spans.now }
    requires placing { (to : ℕ) → IsPlaced (Reached 0 to (place_at 0 0) (WriteGiven traces.now)) spans.now placing.old }
    ensures placing { IsPlacedOrUnfit traces.now (WriteGiven traces.now) spans.now placing.new result }
    ensures looks { steps.new ≤ steps.old + event_count traces.now }
{
    let longest = longest(traces);
    let mut from = 0;
    while from < longest {
        let to = from + ROUND;
        if !place_round(traces, from, to, spans, placing, steps) {
            return false;
        }
        from = to;
    }
    true
}

/// All writes at their places, or none where two have one place, or a place has none.
pub(crate) fn place_writes<L: Ledger>(
    alloc: Global,
    traces: &Traces,
    spans: &Spans,
    steps: &mut Steps<L>,
) -> Result<Option<Placing>, NoMemory>
    requires { AreWriteSpans traces.now spans.now }
    ensures placing { IfOk result (IsPlacedAnswer traces.now spans.now) }
    ensures looks { steps.new ≤ steps.old + event_count traces.now }
{
    if spans.places > traces.cells() as usize + count_events(traces) {
        return Ok(None);
    }
    let mut placing = starting_values(alloc, traces, spans)?;
    if place_events(traces, spans, &mut placing, steps) && placing.is_full() {
        Ok(Some(placing))
    } else {
        Ok(None)
    }
}
