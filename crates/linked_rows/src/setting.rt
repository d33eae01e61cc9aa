//! Traces of one program, and their links read out.
ghost use Rattle.std.specs.Prelude.{◌≡◌, ◌<◌, IsTrue, length};
ghost use Rattle.interleavings.specs.TraceLists.{IsInRange, events_of};
ghost use Rattle.linkage.specs.Links.{IsLinked};

use assembler::assemble;
use interleavings::{Event, Place, Traces};
use linkage::{LinkError, Links, link};
use std::alloc::{AllocError, Global};
use std::marker::Brand;
use std::sync::Wait;
use std::sync::ledger::{Blank, Ledger};
use std::test::Fail;
use std::thread::Threads;
use stride_base::Steps;
use stride_isa::check;
use stride_isa::limits::FUEL_LIMIT;

/// Three threads, two variables that start with 5 and 6, and two monitors.
const TEXT: &[u8] =
    b"var x 5\nvar y 6\nmonitor m\nmonitor n\nthread\nhalt\nthread\nhalt\nthread\nhalt\n";

/// The starting values of the variables.
pub(crate) const STARTS: [u64; 2] = [5, 6];

/// How many monitors there are.
pub(crate) const MONITORS: u32 = 2;

/// The links of each thread's events, or why there are none.
pub(crate) type Outcome = Result<Vec<Vec<Option<u32>>>, LinkError>;

// A read: cell, value, bound.
macro_rules! seen {
    ($cell:expr, $value:expr, $bound:expr) => {
        Event::Read { cell: $cell, value: $value, bound: $bound }
    };
}

pub(crate) use seen;

// A write: cell, value, number.
macro_rules! written {
    ($cell:expr, $value:expr, $number:expr) => {
        Event::Write { cell: $cell, value: $value, number: $number }
    };
}

pub(crate) use written;

// An update: cell, old value, new value, number.
macro_rules! updated {
    ($cell:expr, $old:expr, $new:expr, $number:expr) => {
        Event::Update { cell: $cell, old: $old, new: $new, number: $number }
    };
}

pub(crate) use updated;

// An entry: monitor, turn.
macro_rules! entered {
    ($mon:expr, $turn:expr) => {
        Event::Enter { mon: $mon, turn: $turn }
    };
}

pub(crate) use entered;

// An exit: monitor, turn.
macro_rules! left {
    ($mon:expr, $turn:expr) => {
        Event::Exit { mon: $mon, turn: $turn }
    };
}

pub(crate) use left;

// A place: thread, position.
macro_rules! place {
    ($thread:expr, $place:expr) => {
        Place { thread: $thread, place: $place }
    };
}

pub(crate) use place;

// Whether the event is of a cell or a monitor that is there.
fn is_there(traces: &Traces, event: Event) -> bool
    ensures { IsTrue result → IsInRange traces.now event }
{
    match event {
        Event::Read { cell, .. } | Event::Write { cell, .. } | Event::Update { cell, .. } => {
            cell < traces.cells()
        }
        Event::Enter { mon, .. } | Event::Exit { mon, .. } => mon < traces.monitors(),
    }
}

fn add(traces: &mut Traces, thread: u32, event: Event) -> Result<(), Fail> {
    if thread >= traces.threads() || !is_there(traces, event) {
        return Err("no such thread, cell or monitor")?;
    }
    if traces.count(thread) >= FUEL_LIMIT {
        return Err("too many events")?;
    }
    traces.push(thread, event)?;
    Ok(())
}

/// The traces of these events of the threads.
pub(crate) fn traces_of(alloc: Global, threads: &[&[Event]]) -> Result<Traces, Fail> {
    let program = check(alloc, assemble(alloc, TEXT)?)?;
    let mut traces = Traces::new(alloc, &program)?;
    for (thread, events) in threads.iter().enumerate() {
        for event in *events {
            add(&mut traces, (thread % 3) as u32, *event)?;
        }
    }
    Ok(traces)
}

/// The links of a thread's events, read one by one.
pub(crate) fn row_of<L: Ledger>(
    alloc: Global,
    traces: &Traces,
    links: &Links,
    thread: u32,
    steps: &mut Steps<L>,
) -> Result<Vec<Option<u32>>, AllocError>
    requires linked { IsLinked traces.now links.now }
    requires thread { thread < length traces.now.events }
{
    let mut row = Vec::new(alloc);
    for at in 0..traces.count(thread) {
        row.push(links.of(Place { thread, place: at }, steps))?;
    }
    Ok(row)
}

fn linked_by<L: Ledger, R: Threads + Wait + Sync>(
    rt: &R,
    alloc: Global,
    traces: &Traces,
    blank: Blank,
) -> Result<Outcome, Fail>
    requires name { blank.name ≡ L.name }
    requires parts { blank.parts ≡ L.parts }
    requires some_part { 0 < blank.parts }
{
    let mut steps = Steps::<L>::new(rt, blank);
    let links = match link(alloc, traces, &mut steps) {
        Ok(links) => links,
        Err(error) => return Ok(Err(error)),
    };
    let mut rows = Vec::new(alloc);
    for thread in 0..traces.threads() {
        rows.push(row_of(alloc, traces, &links, thread, &mut steps)?)?;
    }
    Ok(Ok(rows))
}

/// What linking these events gives, each link read out by the call that gives it.
pub(crate) fn outcome_of<R: Threads + Wait + Sync>(
    rt: &R,
    alloc: Global,
    threads: &[&[Event]],
) -> Result<Outcome, Fail> {
    let traces = traces_of(alloc, threads)?;
    linked_by::<Brand, R>(rt, alloc, &traces, Blank::new(1))
}
