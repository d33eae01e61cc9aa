//! Rows of `rerun`: threads that are run again from logs.

use assembler::assemble;
use interleavings::{LogEntry, drive};
use sc_machine::{End, Trap};
use std::alloc::Global;
use std::test::Fail;
use stride_base::List;
use stride_isa::{Checked, check};
use thread_rerun::{Rerun, RerunError, rerun};

/// One thread writes 4 into a variable, reads it and prints what it read.
pub(crate) const WRITING: &[u8] = b"var x 0\nthread\npush 4\nwrite x\nread x\nprint\nhalt\n";

/// One thread reads a variable and prints it, and another writes 7 into it.
const PUBLISH: &[u8] = b"var x 0\nthread\nread x\nprint\nhalt\nthread\npush 7\nwrite x\nhalt\n";

/// One thread enters a monitor, leaves it, enters it again, and divides by zero inside it.
const TRAPPING: &[u8] =
    b"monitor m\nthread\nenter m\nexit m\nenter m\npush 1\npush 0\ndiv\nprint\nhalt\n";

const fn write(number: u32) -> LogEntry {
    LogEntry::Write { number }
}

const fn read(value: u64, bound: u32) -> LogEntry {
    LogEntry::Read { bound, value }
}

const fn update(old: u64, number: u32) -> LogEntry {
    LogEntry::Update { number, old }
}

const fn enter(turn: u32) -> LogEntry {
    LogEntry::Enter { turn }
}

/// One thread adds 5 to a variable and prints what it met, then puts 7 in place of 8 there and prints what it met.
const UPDATING: &[u8] =
    b"var x 3\nthread\npush 5\naddto x\nprint\npush 8\npush 7\ncas x\nprint\nhalt\n";

/// The program of a text.
pub(crate) fn program_of(alloc: Global, text: &[u8]) -> Result<Checked, Fail> {
    if text.len() > 10_000 {
        return Err("a long text")?;
    }
    Ok(check(alloc, assemble(alloc, text)?)?)
}

/// The threads of a text run again by these logs, each with at most so many instructions.
fn run_again(
    alloc: Global,
    text: &[u8],
    fuel: u32,
    logs: &[&[LogEntry]],
) -> Result<Result<Rerun, RerunError>, Fail> {
    if fuel == 0 || fuel > 1000 {
        return Err("no fuel, or much of it")?;
    }
    let program = program_of(alloc, text)?;
    let mut lists = List::new(alloc);
    for log in logs {
        let mut list = List::new(alloc);
        list.push_all(log)?;
        lists.push(list)?;
    }
    Ok(rerun(alloc, &program, fuel, &lists))
}

/// Whether one thread made so many events, printed this and ended so.
fn is_one(rerun: &Rerun, events: u32, output: &[u8], end: End) -> bool {
    let ([only], [last]) = (rerun.outputs.as_slice(), rerun.ends.as_slice()) else {
        return false;
    };
    rerun.traces.threads() == 1
        && rerun.traces.count(0) == events
        && only.as_slice() == output
        && *last == end
}

#[test]
fn threads_run_again_as_far_as_their_logs(rt: HostRuntime) -> Result<(), Fail> {
    let rows: [(&[u8], u32, &[LogEntry], u32, &[u8], End); 8] = [
        (
            WRITING,
            100,
            &[write(1), read(4, 1)],
            2,
            b"4\n",
            End::Halted,
        ),
        (WRITING, 100, &[write(1)], 1, b"", End::Stopped { pc: 2 }),
        (
            WRITING,
            100,
            &[write(9), read(5, 0)],
            2,
            b"5\n",
            End::Halted,
        ),
        (
            TRAPPING,
            100,
            &[enter(3), enter(5)],
            3,
            b"",
            End::Trapped {
                trap: Trap::DivZero,
                pc: 5,
            },
        ),
        (
            UPDATING,
            100,
            &[update(3, 1), update(8, 2)],
            2,
            b"3\n8\n",
            End::Halted,
        ),
        (
            UPDATING,
            100,
            &[update(9, 4)],
            1,
            b"9\n",
            End::Stopped { pc: 5 },
        ),
        // The exit after the entry is made without an entry of the log.
        (TRAPPING, 100, &[enter(1)], 2, b"", End::Stopped { pc: 2 }),
        (TRAPPING, 1, &[enter(1)], 1, b"", End::OutOfSteps),
    ];
    for (text, fuel, log, events, output, end) in rows {
        let again = run_again(rt.alloc(), text, fuel, &[log])??;
        assert!(rt; is_one(&again, events, output, end), "{log:?}");
    }
    Ok(())
}

/// What is told of two threads and logs that diverge.
fn publish_diverges(alloc: Global, logs: &[&[LogEntry]]) -> Result<Option<RerunError>, Fail> {
    Ok(run_again(alloc, PUBLISH, 100, logs)?.err())
}

const fn at(thread: u32, place: u32) -> Option<RerunError> {
    Some(RerunError::Diverges { thread, place })
}

#[test]
fn a_log_that_diverges_from_its_thread_is_named(rt: HostRuntime) -> Result<(), Fail> {
    let another_kind = publish_diverges(rt.alloc(), &[&[write(1)], &[write(1)]])?;
    assert_eq!(rt; another_kind, at(0, 0));
    let one_left = publish_diverges(rt.alloc(), &[&[read(0, 0), read(0, 0)], &[write(1)]])?;
    assert_eq!(rt; one_left, at(0, 1));
    // The lesser of two threads is named, though it diverges at a later place.
    let both = publish_diverges(rt.alloc(), &[&[read(0, 0), read(0, 0)], &[read(0, 0)]])?;
    assert_eq!(rt; both, at(0, 1));
    let log_more = publish_diverges(rt.alloc(), &[&[read(0, 1)], &[write(1)], &[]])?;
    assert_eq!(rt; log_more, at(2, 0));
    let log_less = publish_diverges(rt.alloc(), &[&[read(0, 1)]])?;
    assert_eq!(rt; log_less, at(1, 0));
    let swapped = [write(1), read(3, 1)];
    let mistaken = run_again(rt.alloc(), UPDATING, 100, &[&swapped])?.err();
    assert_eq!(rt; mistaken, at(0, 0));
    let rows: [(u32, &[LogEntry]); 2] = [
        // The exit in between uses no entry.
        (100, &[enter(1), write(9)]),
        // The fuel is used up by the first entry.
        (1, &[enter(1), enter(2)]),
    ];
    for (fuel, log) in rows {
        let diverged = run_again(rt.alloc(), TRAPPING, fuel, &[log])?.err();
        assert_eq!(rt; diverged, at(0, 1), "{log:?}");
    }
    Ok(())
}

/// The threads of a text recorded by an order of atomic steps, and run again by the logs of this recording.
fn record_and_run_again(alloc: Global, text: &[u8], order: &[u8]) -> Result<Rerun, Fail> {
    if order.len() > 1000 {
        return Err("a long order")?;
    }
    let program = program_of(alloc, text)?;
    let driven = drive(alloc, &program, 100, 3, order)?;
    Ok(rerun(alloc, &program, 100, &driven.logs)?)
}

#[test]
fn recorded_threads_run_again(rt: HostRuntime) -> Result<(), Fail> {
    let rows: [(&[u8], &[u8], u32, &[u8], End); 6] = [
        (WRITING, &[0, 0, 0, 0, 0, 0, 0, 0], 2, b"4\n", End::Halted),
        // A writer that has claimed its number finishes after the order, and one that has only seen it does not.
        (WRITING, &[0, 0], 1, b"", End::Stopped { pc: 2 }),
        (WRITING, &[0], 0, b"", End::Stopped { pc: 1 }),
        (WRITING, &[], 0, b"", End::Stopped { pc: 1 }),
        (UPDATING, &[0, 0, 0, 0, 0, 0, 0], 2, b"3\n8\n", End::Halted),
        (
            TRAPPING,
            &[0, 0, 0, 0, 0],
            3,
            b"",
            End::Trapped {
                trap: Trap::DivZero,
                pc: 5,
            },
        ),
    ];
    for (text, order, events, output, end) in rows {
        let again = record_and_run_again(rt.alloc(), text, order)?;
        assert!(rt; is_one(&again, events, output, end), "{order:?}");
    }
    let reader = record_and_run_again(rt.alloc(), PUBLISH, &[1, 1, 1, 0, 0, 1, 0])?;
    let [printed, _] = reader.outputs.as_slice() else {
        return Err("not two outputs")?;
    };
    assert!(rt; printed.as_slice() == b"7\n".as_slice());
    Ok(())
}
