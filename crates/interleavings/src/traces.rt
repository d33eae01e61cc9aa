//! `Traces`: the events of each thread.
ghost use Rattle.std.specs.Prelude.{◌≡◌, ◌+◌, ◌<◌, ◌≤◌, [], ◌∷◌, ◌++◌, length, replicate, slice_index, slice_set, IfOk, OnOk, OnErr};
ghost use Rattle.std.specs.List.{slice_index_or};
ghost use Rattle.stride_isa.specs.Listing.{starts_of};
ghost use Rattle.interleavings.specs.KeptEvents.{IsNarrow};
ghost use Rattle.interleavings.specs.TraceLists.{IsInRange, IsTraces, events_of, no_events as none, with_event_of};

use crate::event::Event;
use crate::event_row::EventRow;
use std::alloc::Global;
use std::marker::Model;
use std::sync::ledger::Ledger;
use stride_base::{NoMemory, Steps};
use stride_isa::limits::{CELL_LIMIT, FUEL_LIMIT, MONITOR_LIMIT, THREAD_LIMIT};
use stride_isa::{Checked, each_cell_starts};

/// A thread and the position of an event among that thread's events, both from 0.
#[derive(Clone, Copy, Debug, PartialEq, Eq)]
pub struct Place {
    pub thread: u32,
    pub place: u32,
}

/// The finished events of each thread of a program, with the starting values of its cells and the number of its monitors.
/// An event is seen by `at` alone, which counts the look.
#[derive(Drop)]
pub struct Traces {
    events: Vec<EventRow>,
    starts: Vec<u64>,
    monitors: u32,
}

impl Model for Traces {
    ghost use Rattle.stride_isa.specs.Listing.{starts_of};
    ghost use Rattle.interleavings.specs.TraceLists.{TraceLists, IsTraces};

    ghost Value = { TraceLists };

    ghost view = { λ t. record { events = t.events.items; starts = t.starts.items; monitors = t.monitors } };

    ghost invariant = { λ t. IsTraces (record { events = t.events.items; starts = t.starts.items; monitors = t.monitors }) };
}

fn empty_rows(alloc: Global, count: u32) -> Result<Vec<EventRow>, NoMemory>
    ensures { IfOk result (λ rows. rows.items ≡ replicate count []) }
{
    let mut rows = Vec::new(alloc);
    for _ in 0..count {
        rows.push(EventRow::new(alloc))?;
    }
    Ok(rows)
}

fn starting_values(alloc: Global, program: &Checked) -> Result<Vec<u64>, NoMemory>
    ensures { IfOk result (λ starts. starts.items ≡ starts_of program.now.decls) }
{
    each_cell_starts();
    let mut starts = Vec::new(alloc);
    for cell in 0..program.cells() {
        starts.push(program.start_of(cell))?;
    }
    Ok(starts)
}

fn push_to(rows: &mut Vec<EventRow>, at: u32, event: Event) -> Result<(), NoMemory>
    requires there { at < length rows.old.items }
    requires narrow { IsNarrow event }
    ensures ok { OnOk result (rows.new.items ≡ slice_set rows.old.items at (slice_index_or rows.old.items at [] ++ event ∷ [])) }
    ensures err { OnErr result (rows.new.items ≡ rows.old.items) }
{
    rows[at as usize].push(event)
}

impl Traces {
    /// No events of the program's threads yet.
    pub fn new(alloc: Global, program: &Checked) -> Result<Traces, NoMemory>
        ensures { IfOk result (λ traces. traces ≡ none program.now) }
    {
        program.facts();
        each_cell_starts();
        Ok(Traces {
            events: empty_rows(alloc, program.threads())?,
            starts: starting_values(alloc, program)?,
            monitors: program.monitors(),
        })
    }

    /// Appends an event of a thread. Where memory runs out nothing has changed.
    pub fn push(&mut self, thread: u32, event: Event) -> Result<(), NoMemory>
        requires thread { thread < length self.old.events }
        requires range { IsInRange self.old event }
        requires few { length (events_of self.old thread) < FUEL_LIMIT }
        ensures ok { OnOk result (self.new ≡ with_event_of self.old thread event) }
        ensures err { OnErr result (self.new ≡ self.old) }
    {
        push_to(&mut self.events, thread, event)
    }

    /// How many threads there are. It tells besides what always holds of traces: they are within the limits, and each event is of a
    /// cell or a monitor that is there.
    pub fn threads(&self) -> u32
        ensures count { result ≡ length self.now.events }
        ensures small { result ≤ THREAD_LIMIT }
        ensures kept { IsTraces self.now }
    {
        self.events.len() as u32
    }

    /// How many cells there are.
    pub fn cells(&self) -> u32
        ensures count { result ≡ length self.now.starts }
        ensures small { result ≤ CELL_LIMIT }
    {
        self.starts.len() as u32
    }

    /// How many monitors there are.
    pub fn monitors(&self) -> u32
        ensures count { result ≡ self.now.monitors }
        ensures small { result ≤ MONITOR_LIMIT }
    {
        self.monitors
    }

    /// The starting value of a cell.
    pub fn start_of(&self, cell: u32) -> u64
        requires { cell < length self.now.starts }
        ensures { result ≡ slice_index self.now.starts cell }
    {
        self.starts[cell as usize]
    }

    /// How many events a thread has.
    pub fn count(&self, thread: u32) -> u32
        requires { thread < length self.now.events }
        ensures count { result ≡ length (events_of self.now thread) }
        ensures small { result ≤ FUEL_LIMIT }
    {
        self.events[thread as usize].len() as u32
    }

    /// The event of a thread at a place, which is one look. No other call gives an event.
    pub fn at<L: Ledger>(&self, thread: u32, place: u32, steps: &mut Steps<L>) -> Event
        requires thread { thread < length self.now.events }
        requires place { place < length (events_of self.now thread) }
        ensures event { result ≡ slice_index_or (events_of self.now thread) place result }
        ensures range { IsInRange self.now result }
        ensures look { steps.new ≡ steps.old + 1 }
    {
        steps.tick();
        self.events[thread as usize].at(place as usize)
    }
}
