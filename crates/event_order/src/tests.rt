//! Events made by hand, linked and arranged, beside the order or the cycle that they have by the rules.
ghost use Rattle.std.specs.Prelude.{◌≡◌, ◌<◌, IfSome, IsTrue};
ghost use Rattle.stride_isa.specs.declared.decl.Shape.TheVariants.{Single};
ghost use Rattle.interleavings.specs.TraceLists.{IsInRange};

use crate::arranging::arrange;
use crate::order_error::OrderError;
use interleavings::{Event, Place, Traces};
use linkage::link;
use std::alloc::Global;
use std::marker::Brand;
use std::sync::Wait;
use std::sync::ledger::{Blank, Ledger};
use std::test::Fail;
use std::thread::Threads;
use stride_base::{List, Steps};
use stride_isa::limits::FUEL_LIMIT;
use stride_isa::{Checked, Decl, Name, Op, Program, Shape, check};

fn variable(bytes: &[u8]) -> Option<Decl>
    ensures { IfSome result (λ d. d.shape ≡ Single) }
{
    let name = Name::of(bytes)?;
    Some(Decl {
        name,
        shape: Shape::Single,
        start: 0,
    })
}

// A program of two variables, which start with 0, a monitor and so many threads.
fn program_of(alloc: Global, threads: u32) -> Result<Checked, Fail> {
    let mut program = Program::new(alloc);
    program.add_cells(variable(b"x").ok_or("a name")?)?;
    program.add_cells(variable(b"y").ok_or("a name")?)?;
    program.add_monitor(Name::of(b"m").ok_or("a name")?)?;
    for _ in 0..threads {
        program.add_thread()?;
        program.add_op(Op::Halt)?;
    }
    Ok(check(alloc, program)?)
}

fn fits(traces: &Traces, event: Event) -> bool
    ensures { IsTrue result → IsInRange traces.now event }
{
    match event {
        Event::Read { cell, .. } | Event::Write { cell, .. } | Event::Update { cell, .. } => {
            cell < traces.cells()
        }
        Event::Enter { mon, .. } | Event::Exit { mon, .. } => mon < traces.monitors(),
    }
}

fn push(traces: &mut Traces, thread: u32, event: Event) -> Result<(), Fail> {
    if thread >= traces.threads() || !fits(traces, event) || traces.count(thread) >= FUEL_LIMIT {
        return Err("an event of a thread of the program")?;
    }
    traces.push(thread, event)?;
    Ok(())
}

fn traces_of(alloc: Global, threads: u32, events: &[(u32, Event)]) -> Result<Traces, Fail> {
    let program = program_of(alloc, threads)?;
    let mut traces = Traces::new(alloc, &program)?;
    for (thread, event) in events {
        push(&mut traces, *thread, *event)?;
    }
    Ok(traces)
}

fn arranged_by<L: Ledger, R: Threads + Wait + Sync>(
    rt: &R,
    alloc: Global,
    traces: &Traces,
    blank: Blank,
) -> Result<Result<List<u8>, OrderError>, Fail>
    requires name { blank.name ≡ L.name }
    requires parts { blank.parts ≡ L.parts }
    requires some_part { 0 < blank.parts }
{
    let mut steps = Steps::<L>::new(rt, blank);
    let links = link(alloc, traces, &mut steps)?;
    Ok(arrange(alloc, traces, &links, &mut steps))
}

// The events, linked and arranged.
fn arranged<R: Threads + Wait + Sync>(
    rt: &R,
    alloc: Global,
    threads: u32,
    events: &[(u32, Event)],
) -> Result<Result<List<u8>, OrderError>, Fail> {
    let traces = traces_of(alloc, threads, events)?;
    arranged_by::<Brand, R>(rt, alloc, &traces, Blank::new(1))
}

fn read(cell: u32, value: u64, bound: u32) -> Event {
    Event::Read { cell, value, bound }
}

fn write(cell: u32, value: u64, number: u32) -> Event {
    Event::Write {
        cell,
        value,
        number,
    }
}

fn update(old: u64, new: u64, number: u32) -> Event {
    Event::Update {
        cell: 0,
        old,
        new,
        number,
    }
}

fn enter(turn: u32) -> Event {
    Event::Enter { mon: 0, turn }
}

fn exit(turn: u32) -> Event {
    Event::Exit { mon: 0, turn }
}

// What the row is about, the number of threads, the events of each, and the order.
type OrderRow<'a> = (&'a str, u32, &'a [(u32, Event)], &'a [u8]);

fn have_orders<R: Threads + Wait + Sync>(
    rt: &R,
    alloc: Global,
    rows: &[OrderRow<'_>],
) -> Result<(), Fail> {
    for (name, threads, events, order) in rows {
        let Ok(found) = arranged(rt, alloc, *threads, events)? else {
            return Err(*name)?;
        };
        if found.as_slice() != *order {
            return Err(*name)?;
        }
    }
    Ok(())
}

#[test]
fn reads_come_where_their_links_allow(rt: HostRuntime) -> Result<(), Fail> {
    let rows: [OrderRow<'_>; 3] = [
        (
            "a read of the starting value stays before the write",
            2,
            &[(0, read(0, 0, 1)), (1, write(0, 7, 1))],
            &[0, 1],
        ),
        (
            "a read moves behind the later of two writes",
            2,
            &[(0, read(0, 0, 2)), (1, write(0, 5, 1)), (1, write(0, 0, 2))],
            &[1, 1, 0],
        ),
        (
            "a read of one of two equal writes",
            3,
            &[(0, write(0, 3, 1)), (1, write(0, 3, 2)), (2, read(0, 3, 2))],
            &[0, 1, 2],
        ),
    ];
    have_orders(&rt, rt.alloc(), &rows)
}

#[test]
fn events_that_nothing_ties_come_thread_by_thread(rt: HostRuntime) -> Result<(), Fail> {
    let rows: [OrderRow<'_>; 3] = [
        ("no thread", 0, &[], &[]),
        ("threads without events", 3, &[], &[]),
        (
            "events of other cells and monitors",
            3,
            &[
                (2, write(0, 1, 1)),
                (2, write(0, 2, 2)),
                (1, read(1, 0, 0)),
                (1, read(1, 0, 0)),
                (0, enter(1)),
            ],
            &[0, 1, 1, 2, 2],
        ),
    ];
    have_orders(&rt, rt.alloc(), &rows)
}

#[test]
fn updates_and_turns_follow_one_another(rt: HostRuntime) -> Result<(), Fail> {
    let rows: [OrderRow<'_>; 3] = [
        (
            "a read between two updates",
            3,
            &[
                (0, update(1, 2, 2)),
                (1, update(0, 1, 1)),
                (2, read(0, 1, 1)),
            ],
            &[1, 2, 0],
        ),
        (
            "turns of a monitor",
            2,
            &[
                (0, enter(2)),
                (0, exit(2)),
                (1, enter(1)),
                (1, exit(1)),
                (1, enter(3)),
            ],
            &[1, 1, 0, 0, 1],
        ),
        (
            "each of several exits of a turn comes before the next enter",
            3,
            &[
                (0, enter(2)),
                (1, enter(1)),
                (1, exit(1)),
                (2, read(0, 0, 0)),
                (2, exit(1)),
            ],
            &[1, 1, 2, 2, 0],
        ),
    ];
    have_orders(&rt, rt.alloc(), &rows)
}

fn place(thread: u32, place: u32) -> Place {
    Place { thread, place }
}

// What the row is about, the number of threads, the events of each, and the cycle.
type CycleRow<'a> = (&'a str, u32, &'a [(u32, Event)], &'a [Place]);

fn have_cycles<R: Threads + Wait + Sync>(
    rt: &R,
    alloc: Global,
    rows: &[CycleRow<'_>],
) -> Result<(), Fail> {
    for (name, threads, events, cycle) in rows {
        let found = match arranged(rt, alloc, *threads, events)? {
            Err(OrderError::Cycle { places }) => places,
            Err(OrderError::NoMemory) | Ok(_) => return Err(*name)?,
        };
        if found.as_slice() != *cycle {
            return Err(*name)?;
        }
    }
    Ok(())
}

#[test]
fn a_cycle_begins_at_its_least_event(rt: HostRuntime) -> Result<(), Fail> {
    let rows: [CycleRow<'_>; 3] = [
        (
            "two threads that read each other's variable before it is written",
            2,
            &[
                (0, write(0, 1, 1)),
                (0, read(1, 0, 0)),
                (1, write(1, 1, 1)),
                (1, read(0, 0, 0)),
            ],
            &[place(0, 0), place(0, 1), place(1, 0), place(1, 1)],
        ),
        (
            "a thread that reads its own later write",
            2,
            &[(0, read(1, 0, 0)), (1, read(0, 7, 1)), (1, write(0, 7, 1))],
            &[place(1, 0), place(1, 1)],
        ),
        (
            "an update that comes before the write below it",
            1,
            &[(0, update(4, 5, 2)), (0, write(0, 4, 1))],
            &[place(0, 0), place(0, 1)],
        ),
    ];
    have_cycles(&rt, rt.alloc(), &rows)
}

#[test]
fn the_cycle_is_that_of_the_least_event(rt: HostRuntime) -> Result<(), Fail> {
    let rows: [CycleRow<'_>; 2] = [
        (
            "the least event leads into a cycle without it",
            3,
            &[
                (0, read(0, 9, 2)),
                (1, read(1, 6, 1)),
                (1, write(0, 8, 1)),
                (2, write(0, 9, 2)),
                (2, write(1, 6, 1)),
            ],
            &[place(1, 0), place(1, 1), place(2, 0), place(2, 1)],
        ),
        (
            "of two cycles the first",
            3,
            &[
                (1, read(0, 7, 1)),
                (1, write(0, 7, 1)),
                (2, read(1, 7, 1)),
                (2, write(1, 7, 1)),
            ],
            &[place(1, 0), place(1, 1)],
        ),
    ];
    have_cycles(&rt, rt.alloc(), &rows)
}
