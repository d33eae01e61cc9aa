//! All writes and turns of the events, for what is refused to be told.
ghost use Rattle.std.specs.Prelude.{◌≡◌, ◌+◌, ◌<◌, ◌≤◌, IfOk, OnOk, length};
ghost use Rattle.interleavings.specs.TraceLists.{IsInRange, events_of};
ghost use Rattle.linkage.specs.AllOf.{AreStartingTurns, AreStartingWrites};
ghost use Rattle.linkage.specs.GatherShows.{IsAdded, IsGathered, IsGatheredAll, place_at};
ghost use Rattle.linkage.specs.Sources.{event_count};

use crate::numbered::Numbered;
use interleavings::{Event, Traces};
use std::alloc::Global;
use std::sync::ledger::Ledger;
use stride_base::{NoMemory, Steps};
use stride_isa::limits::CELL_LIMIT;

/// The writes of cells, the starting values among them, and the entries into and exits from monitors, turn 0 among them.
#[derive(Drop)]
pub(crate) struct Gathered {
    pub(crate) writes: Vec<Numbered<u64>>,
    pub(crate) entries: Vec<Numbered<()>>,
    pub(crate) exits: Vec<Numbered<()>>,
}

// The starting values, which are the writes numbered 0.
fn starting_writes(alloc: Global, traces: &Traces) -> Result<Vec<Numbered<u64>>, NoMemory>
    ensures writes { IfOk result (λ writes. AreStartingWrites traces.now (length traces.now.starts) writes.items) }
    ensures few { length traces.now.starts ≤ CELL_LIMIT }
{
    let mut writes = Vec::new(alloc);
    for cell in 0..traces.cells() {
        writes.push(Numbered {
            owner: cell,
            number: 0,
            value: traces.start_of(cell),
        })?;
    }
    Ok(writes)
}

// Turn 0 of each monitor.
fn starting_turns(alloc: Global, monitors: u32) -> Result<Vec<Numbered<()>>, NoMemory>
    ensures { IfOk result (λ turns. AreStartingTurns monitors turns.items) }
{
    let mut turns = Vec::new(alloc);
    for monitor in 0..monitors {
        turns.push(Numbered {
            owner: monitor,
            number: 0,
            value: (),
        })?;
    }
    Ok(turns)
}

impl Gathered {
    fn start(alloc: Global, traces: &Traces) -> Result<Gathered, NoMemory>
        ensures { IfOk result (λ gathered. IsGathered traces.now (place_at 0 0) gathered) }
    {
        let monitors = traces.monitors();
        Ok(Gathered {
            writes: starting_writes(alloc, traces)?,
            entries: starting_turns(alloc, monitors)?,
            exits: starting_turns(alloc, monitors)?,
        })
    }

    fn add(&mut self, event: Event) -> Result<(), NoMemory>
        ensures { OnOk result (IsAdded event self.old self.new) }
    {
        match event {
            Event::Read { .. } => {}
            Event::Write {
                cell,
                value,
                number,
            } => self.writes.push(Numbered {
                owner: cell,
                number,
                value,
            })?,
            Event::Update {
                cell,
                new,
                number,
                ..
            } => self.writes.push(Numbered {
                owner: cell,
                number,
                value: new,
            })?,
            Event::Enter { mon, turn } => self.entries.push(Numbered {
                owner: mon,
                number: turn,
                value: (),
            })?,
            Event::Exit { mon, turn } => self.exits.push(Numbered {
                owner: mon,
                number: turn,
                value: (),
            })?,
        }
        Ok(())
    }
}

// Adds the events of a thread.
fn gather_thread<L: Ledger>(
    traces: &Traces,
    thread: u32,
    gathered: &mut Gathered,
    steps: &mut Steps<L>,
) -> Result<(), NoMemory>
    requires thread { thread < length traces.now.events }
    requires gathered { IsGathered traces.now (place_at thread 0) gathered.old }
    ensures gathered { OnOk result (IsGathered traces.now (place_at (thread + 1) 0) gathered.new) }
    ensures looks { steps.new ≤ steps.old + length (events_of traces.now thread) }
{
    for place in 0..traces.count(thread) {
        let event = traces.at(thread, place, steps);
        gathered.add(event)?;
    }
    Ok(())
}

/// All writes and turns of the events, each of which is looked at once.
pub(crate) fn gather<L: Ledger>(
    alloc: Global,
    traces: &Traces,
    steps: &mut Steps<L>,
) -> Result<Gathered, NoMemory>
    ensures gathered { IfOk result (λ gathered. IsGatheredAll traces.now gathered) }
    ensures looks { steps.new ≤ steps.old + event_count traces.now }
{
    let mut gathered = Gathered::start(alloc, traces)?;
    for thread in 0..traces.threads() {
        gather_thread(traces, thread, &mut gathered, steps)?;
    }
    Ok(gathered)
}
