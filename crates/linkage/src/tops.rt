//! The greatest numbers of writes and of turns.
ghost use Rattle.std.specs.Prelude.{◌≡◌, ◌+◌, ◌<◌, ◌≤◌, IfOk, length, replicate};
ghost use Rattle.interleavings.specs.TraceLists.{IsInRange, events_of};
ghost use Rattle.linkage.specs.GatherShows.{place_at};
ghost use Rattle.linkage.specs.Placing.{AreTopsBefore, AreTopsOfAll, IsRaised, raised};
ghost use Rattle.linkage.specs.Sources.{event_count};

use interleavings::{Event, Traces};
use std::alloc::Global;
use std::sync::ledger::Ledger;
use stride_base::{NoMemory, Steps};

/// The greatest number of the writes of each cell, and the greatest turn of the entries into each monitor. A starting value and
/// the turn of nobody have number 0.
#[derive(Drop)]
pub(crate) struct Tops {
    pub(crate) writes: Vec<u32>,
    pub(crate) entries: Vec<u32>,
}

fn zeros(alloc: Global, count: u32) -> Result<Vec<u32>, NoMemory>
    ensures { IfOk result (λ numbers. numbers.items ≡ replicate count 0) }
{
    Ok(vec![in alloc; 0; count as usize]?)
}

// Raises the number of an owner to this one, if it is less.
fn raise(tops: &mut Vec<u32>, owner: u32, number: u32)
    requires { owner < length tops.old.items }
    ensures { tops.new.items ≡ raised tops.old.items owner number }
{
    let owner = owner as usize;
    tops[owner] = tops[owner].max(number);
}

impl Tops {
    fn start(alloc: Global, traces: &Traces) -> Result<Tops, NoMemory>
        ensures { IfOk result (λ tops. AreTopsBefore traces.now (place_at 0 0) tops) }
    {
        Ok(Tops {
            writes: zeros(alloc, traces.cells())?,
            entries: zeros(alloc, traces.monitors())?,
        })
    }

    fn raise(&mut self, traces: &Traces, event: Event)
        requires range { IsInRange traces.now event }
        requires cells { length self.old.writes.items ≡ length traces.now.starts }
        requires monitors { length self.old.entries.items ≡ traces.now.monitors }
        ensures { IsRaised event self.old self.new }
    {
        match event {
            Event::Write { cell, number, .. } | Event::Update { cell, number, .. } => {
                raise(&mut self.writes, cell, number);
            }
            Event::Enter { mon, turn } => raise(&mut self.entries, mon, turn),
            Event::Read { .. } | Event::Exit { .. } => {}
        }
    }
}

// Raises the numbers by the events of a thread.
fn raise_by_thread<L: Ledger>(traces: &Traces, thread: u32, tops: &mut Tops, steps: &mut Steps<L>)
    requires thread { thread < length traces.now.events }
    requires tops { AreTopsBefore traces.now (place_at thread 0) tops.old }
    ensures tops { AreTopsBefore traces.now (place_at (thread + 1) 0) tops.new }
    ensures looks { steps.new ≡ steps.old + length (events_of traces.now thread) }
{
    for place in 0..traces.count(thread) {
        let event = traces.at(thread, place, steps);
        tops.raise(traces, event);
    }
}

/// The greatest numbers of all writes and entries. Each event is looked at once.
pub(crate) fn tops_of<L: Ledger>(
    alloc: Global,
    traces: &Traces,
    steps: &mut Steps<L>,
) -> Result<Tops, NoMemory>
    ensures tops { IfOk result (λ tops. AreTopsOfAll traces.now tops) }
    ensures looks { steps.new ≤ steps.old + event_count traces.now }
{
    let mut tops = Tops::start(alloc, traces)?;
    for thread in 0..traces.threads() {
        raise_by_thread(traces, thread, &mut tops, steps);
    }
    Ok(tops)
}
