//! What no clause says of traces: that they are made and grow with ample memory, are seen at a ledger, and may be shared by
//! threads and moved to them.
ghost use Rattle.std.specs.Prelude.{◌≡◌, ◌<◌, IfSome, IfOk, length};
ghost use Rattle.stride_isa.specs.declared.decl.Shape.TheVariants.{Single};

use crate::event::Event;
use crate::traces::Traces;
use std::alloc::Global;
use std::marker::Brand;
use std::sync::Wait;
use std::sync::ledger::{Blank, Ledger};
use std::test::Fail;
use std::thread::Threads;
use stride_base::Steps;
use stride_isa::{Checked, Decl, Name, Op, Program, Shape, check};

fn variable(bytes: &[u8], start: u64) -> Option<Decl>
    ensures { IfSome result (λ d. d.shape ≡ Single) }
{
    let name = Name::of(bytes)?;
    Some(Decl {
        name,
        shape: Shape::Single,
        start,
    })
}

// A program of one variable that starts with 5, and one thread.
fn one_thread(alloc: Global) -> Result<Checked, Fail> {
    let mut program = Program::new(alloc);
    program.add_cells(variable(b"x", 5).ok_or("a name")?)?;
    program.add_thread()?;
    program.add_op(Op::Halt)?;
    Ok(check(alloc, program)?)
}

fn second_event_by<L: Ledger, R: Threads + Wait + Sync>(
    rt: &R,
    traces: &Traces,
    blank: Blank,
) -> Result<Event, Fail>
    requires name { blank.name ≡ L.name }
    requires parts { blank.parts ≡ L.parts }
    requires some_part { 0 < blank.parts }
{
    let mut steps = Steps::<L>::new(rt, blank);
    if traces.threads() != 1 || traces.count(0) != 2 {
        return Err("two events of one thread")?;
    }
    Ok(traces.at(0, 1, &mut steps))
}

fn second_event<R: Threads + Wait + Sync>(rt: &R, traces: &Traces) -> Result<Event, Fail> {
    second_event_by::<Brand, R>(rt, traces, Blank::new(1))
}

// Compiles only for what threads may share and take over.
fn crosses_threads<T: Send + Sync>(_value: &T) {}

#[test]
fn traces_cross_threads(rt: HostRuntime) -> Result<(), Fail> {
    let program = one_thread(rt.alloc())?;
    let traces = Traces::new(rt.alloc(), &program)?;
    crosses_threads(&traces);
    Ok(())
}

#[test]
fn events_are_kept_in_order(rt: HostRuntime) -> Result<(), Fail> {
    let program = one_thread(rt.alloc())?;
    let mut traces = Traces::new(rt.alloc(), &program)?;
    if traces.threads() != 1 || traces.cells() != 1 || traces.monitors() != 0 {
        return Err("one thread and one cell")?;
    }
    assert_eq!(rt; traces.start_of(0), 5);
    let read = Event::Read {
        cell: 0,
        value: 5,
        bound: 0,
    };
    let write = Event::Write {
        cell: 0,
        value: 7,
        number: 1,
    };
    for event in [read, write] {
        if traces.threads() != 1 || traces.cells() != 1 || traces.count(0) >= 2 {
            return Err("room for an event")?;
        }
        traces.push(0, event)?;
    }
    assert_eq!(rt; second_event(&rt, &traces)?, write);
    Ok(())
}
