//! Sessions of many threads, replayed: what each thread printed itself is what its lines of the transcript say.
ghost use Rattle.std.specs.Prelude.{◌≡◌, ◌<◌};

use assembler::assemble;
use event_order::arrange;
use interleavings::Traces;
use linkage::link;
use recorder::{OpenGate, Session, Taken};
use replayer::{Replay, replay};
use sc_machine::End;
use std::alloc::Global;
use std::marker::Brand;
use std::process::Abort;
use std::sync::Wait;
use std::sync::ledger::{Blank, Ledger};
use std::test::Fail;
use std::thread::Threads;
use stride_base::limits::{INPUT_LIMIT, ORDER_LIMIT};
use stride_base::{List, Steps};
use stride_isa::{Checked, check};
use thread_rerun::rerun;

/// What a thread does.
#[derive(Clone, Copy)]
enum Code {
    /// Reads and writes, again and again, what the others do too.
    Race,
    /// Reads mostly, in an array as well.
    Reads,
    /// Updates of each kind.
    Updates,
    /// Two monitors, one within the other.
    Monitors,
    /// Runs until its fuel is out.
    Endless,
    /// Holds a monitor when it traps, behind the end of an array.
    Traps,
    /// Takes two monitors, again and again.
    OneOrder,
    /// Takes them in the other order.
    OtherOrder,
}

fn text_of(code: Code) -> &'static [u8] {
    match code {
        Code::Race =>
            b"push 60\nset 0\ntop:\nread x\npush 1\nadd\nwrite x\nread x\nprint\nread y\ndrop\nget 0\npush 1\nsub\nset 0\nget 0\njnz top\nhalt\n",
        Code::Reads =>
            b"push 80\nset 0\ntop:\nread x\nread y\nadd\nprint\nget 0\npush 3\nrem\nreadat a\nprint\nget 0\npush 1\nsub\nset 0\nget 0\njnz top\npush 9\nwrite y\nhalt\n",
        Code::Updates =>
            b"push 40\nset 0\ntop:\npush 1\naddto x\nprint\nget 0\nxchg y\nprint\npush 5\npush 6\ncas x\ndrop\nget 0\npush 1\nsub\nset 0\nget 0\njnz top\nhalt\n",
        Code::Monitors =>
            b"push 30\nset 0\ntop:\nenter m\nread x\npush 1\nadd\nwrite x\nenter n\nread x\nprint\nexit n\nexit m\nget 0\npush 1\nsub\nset 0\nget 0\njnz top\nhalt\n",
        Code::Endless => b"top:\nread x\npush 1\nadd\nwrite x\njump top\n",
        Code::Traps =>
            b"top:\nenter m\npush 1\naddto x\npush 2\ndiv\npush 7\nwriteat a\nexit m\njump top\n",
        Code::OneOrder => b"top:\nenter m\nenter n\nread x\nprint\nexit n\nexit m\njump top\n",
        Code::OtherOrder => b"top:\nenter n\nenter m\nread y\nprint\nexit m\nexit n\njump top\n",
    }
}

/// A program of so many threads, which have these codes in turn.
fn program_of(alloc: Global, first: Code, second: Code, threads: u32) -> Result<Checked, Fail> {
    let mut text = Vec::new(alloc);
    text.extend_from_slice(b"var x 0\nvar y 0\narray a 3\nmonitor m\nmonitor n\n")?;
    for thread in 0..threads {
        text.extend_from_slice(b"thread\n")?;
        text.extend_from_slice(text_of(if thread % 2 == 0 { first } else { second }))?;
    }
    if text.len() > INPUT_LIMIT {
        return Err("a long text")?;
    }
    Ok(check(alloc, assemble(alloc, &text)?)?)
}

// What the program prints in a session and in the replay of what it logged.
fn replayed_by<L: Ledger, R: Threads + Wait + Sync>(
    rt: &R,
    alloc: Global,
    program: &Checked,
    fuel: u32,
    patience: u32,
    blank: Blank,
) -> Result<(Taken, Replay), Fail>
    requires name { blank.name ≡ L.name }
    requires parts { blank.parts ≡ L.parts }
    requires some_part { 0 < blank.parts }
{
    let mut steps = Steps::<L>::new(rt, blank);
    if !(1..=1_000_000).contains(&fuel) || !(1..=10_000_000).contains(&patience) {
        return Err("a setting out of range")?;
    }
    let mut session = Session::reserve(alloc, program, fuel, patience)?;
    session.run_threads(rt, &OpenGate);
    let taken = session.finish();
    let again = rerun(alloc, program, fuel, &taken.logs)?;
    let links = link(alloc, &again.traces, &mut steps)?;
    let Ok(schedule) = arrange(alloc, &again.traces, &links, &mut steps) else {
        return Err("a recording has no order")?;
    };
    if schedule.len() > ORDER_LIMIT {
        return Err("a long schedule")?;
    }
    let played = replay(alloc, program, fuel, schedule.as_slice())?;
    Ok((taken, played))
}

fn replayed<R: Threads + Wait + Sync>(
    rt: &R,
    alloc: Global,
    program: &Checked,
    fuel: u32,
    patience: u32,
) -> Result<(Taken, Replay), Fail> {
    replayed_by::<Brand, R>(rt, alloc, program, fuel, patience, Blank::new(1))
}

// The lines of the transcript that are one thread's, without its number.
fn lines_of(alloc: Global, transcript: &[u8], thread: usize) -> Result<Vec<u8>, Fail> {
    let prefix = format!(in alloc; "{thread} ")?;
    let mut lines = Vec::new(alloc);
    for line in transcript.split_inclusive(|byte| *byte == b'\n') {
        if let Some(word) = line.strip_prefix(prefix.as_bytes()) {
            lines.extend_from_slice(word)?;
        }
    }
    Ok(lines)
}

// Records the program and replays it, so often, and answers how many threads were stopped in the end.
fn record_again<R: Threads + Wait + Sync + Abort>(
    rt: &R,
    alloc: Global,
    program: &Checked,
    fuel: u32,
    patience: u32,
    often: u32,
) -> Result<u32, Fail> {
    let mut stopped = 0u32;
    for _ in 0..often {
        let (taken, played) = replayed(rt, alloc, program, fuel, patience)?;
        assert!(rt; played.ends.as_slice() == taken.ends.as_slice());
        assert!(rt; played.last_values.as_slice() == taken.last_values.as_slice());
        for (thread, output) in taken.outputs.as_slice().iter().enumerate() {
            let lines = lines_of(alloc, played.transcript.as_slice(), thread)?;
            assert!(rt; lines.as_slice() == output.as_slice(), "thread {thread}");
        }
        for end in taken.ends.as_slice() {
            if let End::Stopped { .. } = end {
                stopped = stopped.wrapping_add(1);
            }
        }
    }
    Ok(stopped)
}

// Two, four and sixteen threads with these codes: none is stopped.
fn all_are_replayed<R: Threads + Wait + Sync + Abort>(
    rt: &R,
    alloc: Global,
    first: Code,
    second: Code,
) -> Result<(), Fail> {
    for threads in [2u32, 4, 16] {
        let program = program_of(alloc, first, second, threads)?;
        let stopped = record_again(rt, alloc, &program, 100_000, 10_000_000, 10)?;
        assert_eq!(rt; stopped, 0);
    }
    Ok(())
}

#[test]
fn threads_that_race_are_replayed(rt: HostRuntime) -> Result<(), Fail> {
    let alloc = rt.alloc();
    all_are_replayed(&rt, alloc, Code::Race, Code::Race)?;
    all_are_replayed(&rt, alloc, Code::Reads, Code::Race)?;
    all_are_replayed(&rt, alloc, Code::Updates, Code::Reads)?;
    all_are_replayed(&rt, alloc, Code::Monitors, Code::Updates)
}

#[test]
fn threads_that_do_not_halt_are_replayed(rt: HostRuntime) -> Result<(), Fail> {
    let alloc = rt.alloc();
    // By its fuel each ends, also where that is used up within a few instructions.
    let program = program_of(alloc, Code::Endless, Code::Race, 4)?;
    for fuel in [1u32, 2, 5, 500] {
        record_again(&rt, alloc, &program, fuel, 10, 10)?;
    }
    // Threads that trap keep their monitor, so that others give up.
    let program = program_of(alloc, Code::Traps, Code::Monitors, 3)?;
    record_again(&rt, alloc, &program, 1000, 50, 10)?;
    Ok(())
}

#[test]
fn threads_that_wait_for_each_other_are_replayed(rt: HostRuntime) -> Result<(), Fail> {
    let alloc = rt.alloc();
    // Sooner or later each takes one monitor and waits for the other's.
    let program = program_of(alloc, Code::OneOrder, Code::OtherOrder, 2)?;
    let stopped = record_again(&rt, alloc, &program, 100_000, 100, 20)?;
    assert!(rt; stopped > 0);
    Ok(())
}

#[test]
fn a_loop_ends_out_of_steps(rt: HostRuntime) -> Result<(), Fail> {
    let alloc = rt.alloc();
    let program = check(alloc, assemble(alloc, b"thread\ntop:\njump top\n")?)?;
    for fuel in [5, 1_000_000] {
        let mut session = Session::reserve(alloc, &program, fuel, 100_000)?;
        session.run_threads(&rt, &OpenGate);
        let taken = session.finish();
        assert!(rt; taken.ends.as_slice() == [End::OutOfSteps].as_slice());
        assert!(rt; taken.logs.as_slice().iter().all(|log| log.is_empty()));
    }
    Ok(())
}
