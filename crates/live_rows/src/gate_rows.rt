//! Commands under gates: each gate forces what is logged.

use crate::meeting::{Hold, Meeting, Rendezvous, Slow, Spot};
use crate::whole_calls::{AMPLE, ending_of};
use recorder::{Gate, Point};
use std::alloc::Global;
use std::process::Abort;
use std::sync::Wait;
use std::test::Fail;
use std::thread::Threads;

/// Thread 0 reads and prints a variable that thread 1 writes.
const READ_AND_WRITE: &[u8] =
    b"var x 0\nthread\nread x\nprint\nhalt\nthread\npush 7\nwrite x\nhalt\n";

fn spot(thread: u32, point: Point) -> Spot {
    Spot { thread, point }
}

fn hold(at: Spot, until: Spot) -> Hold {
    Hold { at, until }
}

// What a command puts, if it is done.
fn report_of<R: Threads + Wait + Sync, G: Gate>(
    rt: &R,
    alloc: Global,
    words: &[&str],
    input: &[u8],
    gate: &G,
) -> Result<Option<Vec<u8>>, Fail> {
    let ending = ending_of(rt, alloc, words, input, AMPLE, gate)?;
    Ok(if ending.code == 0 {
        Some(ending.held)
    } else {
        None
    })
}

// What a command puts under the gate that holds threads so.
fn is_put<R: Threads + Wait + Sync + Abort>(
    rt: &R,
    alloc: Global,
    words: &[&str],
    input: &[u8],
    holds: &[Hold],
    wanted: &[u8],
) -> Result<(), Fail> {
    let gate = Meeting::new(holds);
    let report = report_of(rt, alloc, words, input, &gate)?;
    assert!(rt; gate.succeeded());
    let Some(report) = report else {
        return Err("a live command is refused")?;
    };
    assert!(rt; report.as_slice() == wanted);
    Ok(())
}

// The same, again and again.
fn is_forced<R: Threads + Wait + Sync + Abort>(
    rt: &R,
    alloc: Global,
    words: &[&str],
    input: &[u8],
    holds: &[Hold],
    wanted: &[u8],
) -> Result<(), Fail> {
    for _ in 0..20u32 {
        is_put(rt, alloc, words, input, holds, wanted)?;
    }
    Ok(())
}

/// The reader has loaded the value before it is stored, and loads the number only once it is.
fn reader_first() -> [Hold; 2] {
    [
        hold(spot(0, Point::AfterValue), spot(1, Point::AfterPut)),
        hold(spot(1, Point::AfterMark), spot(0, Point::AfterValue)),
    ]
}

/// The reader loads the value while the writer has claimed, and finds the number odd.
fn writer_first() -> [Hold; 2] {
    [
        hold(spot(0, Point::BeforeValue), spot(1, Point::AfterMark)),
        hold(spot(1, Point::AfterMark), spot(0, Point::AfterOdd)),
    ]
}

/// The reader begins once the write is complete.
fn reader_after() -> [Hold; 1] {
    [hold(spot(0, Point::BeforeValue), spot(1, Point::AfterTurn))]
}

const OLD_VALUE: &[u8] = b"schedule 2\n0*1\n1*1\ntranscript\n0 0\nends\n0 halted\n1 halted\n";

const NEW_VALUE: &[u8] = b"schedule 2\n1*1\n0*1\ntranscript\n0 7\nends\n0 halted\n1 halted\n";

#[test]
fn gates_force_what_run_replays(rt: HostRuntime) -> Result<(), Fail> {
    let alloc = rt.alloc();
    is_forced(
        &rt,
        alloc,
        &["run"],
        READ_AND_WRITE,
        &reader_first(),
        OLD_VALUE,
    )?;
    is_forced(
        &rt,
        alloc,
        &["run"],
        READ_AND_WRITE,
        &writer_first(),
        OLD_VALUE,
    )?;
    is_forced(
        &rt,
        alloc,
        &["run"],
        READ_AND_WRITE,
        &reader_after(),
        NEW_VALUE,
    )
}

/// The bundle of a text with these logs: the text behind its length, and then the number of threads and the logs.
fn bundle_of(alloc: Global, text: &[u8], logs: &[u8]) -> Result<Vec<u8>, Fail> {
    if text.len() >= 128 {
        return Err("a length of two bytes")?;
    }
    let mut bytes = Vec::new(alloc);
    bytes.extend_from_slice(b"STRIDE2\n\xa0\x8d\x06")?;
    bytes.push(text.len() as u8)?;
    bytes.extend_from_slice(text)?;
    bytes.extend_from_slice(logs)?;
    Ok(bytes)
}

// The bundle of the two threads: a read of this value with bound 1, and write 1.
fn read_and_write_bundle(alloc: Global, value: u8) -> Result<Vec<u8>, Fail> {
    bundle_of(alloc, READ_AND_WRITE, &[2, 1, 1, value, 2, 1, 2, 1])
}

#[test]
fn gates_force_what_bundle_logs(rt: HostRuntime) -> Result<(), Fail> {
    let alloc = rt.alloc();
    let old = read_and_write_bundle(alloc, 0)?;
    let new = read_and_write_bundle(alloc, 7)?;
    is_forced(
        &rt,
        alloc,
        &["bundle"],
        READ_AND_WRITE,
        &reader_first(),
        &old,
    )?;
    is_forced(
        &rt,
        alloc,
        &["bundle"],
        READ_AND_WRITE,
        &writer_first(),
        &old,
    )?;
    is_forced(
        &rt,
        alloc,
        &["bundle"],
        READ_AND_WRITE,
        &reader_after(),
        &new,
    )
}

/// Updates that each make 7 of 3, and give the 3 that they met.
const UPDATES: [&[u8]; 3] = [
    b"push 7\nxchg x\n",
    b"push 4\naddto x\n",
    b"push 3\npush 7\ncas x\n",
];

/// Thread 0 reads and prints a variable and then writes it. Thread 1 updates it, and reads and prints it afterwards.
fn beside_update(alloc: Global, update: &[u8]) -> Result<Vec<u8>, Fail> {
    let mut text = Vec::new(alloc);
    text.extend_from_slice(b"var x 3\nthread\nread x\nprint\npush 9\nwrite x\nhalt\nthread\n")?;
    text.extend_from_slice(update)?;
    text.extend_from_slice(b"print\nread x\nprint\nhalt\n")?;
    Ok(text)
}

/// The reader loads the value while the update is held at this point, and finds the number odd. The write comes before the update's
/// thread goes on.
fn update_held(point: Point) -> [Hold; 3] {
    [
        hold(spot(0, Point::BeforeValue), spot(1, point)),
        hold(spot(1, point), spot(0, Point::AfterOdd)),
        hold(spot(1, Point::AfterTurn), spot(0, Point::AfterTurn)),
    ]
}

/// The reader begins once the update is complete. The write comes before the update's thread goes on.
fn update_complete() -> [Hold; 2] {
    [
        hold(spot(0, Point::BeforeValue), spot(1, Point::AfterTurn)),
        hold(spot(1, Point::AfterTurn), spot(0, Point::AfterTurn)),
    ]
}

// What both commands put of each update, where thread 0 reads this value.
fn updates_are_forced<R: Threads + Wait + Sync + Abort>(
    rt: &R,
    alloc: Global,
    holds: &[Hold],
    value: u8,
    report: &[u8],
) -> Result<(), Fail> {
    // A read of the value with bound 1, and write 2; update 1, which met 3, and a read of 9 with bound 2.
    let logs = [2, 2, 1, value, 2, 2, 2, 2, 4, 3, 1, 1, 9, 4];
    for update in UPDATES {
        let text = beside_update(alloc, update)?;
        let bundle = bundle_of(alloc, &text, &logs)?;
        for _ in 0..4u32 {
            is_put(rt, alloc, &["run"], &text, holds, report)?;
            is_put(rt, alloc, &["bundle"], &text, holds, &bundle)?;
        }
    }
    Ok(())
}

const OLD_OF_UPDATE: &[u8] =
    b"schedule 4\n0*1\n1*1\n0*1\n1*1\ntranscript\n0 3\n1 3\n1 9\nends\n0 halted\n1 halted\n";

const NEW_OF_UPDATE: &[u8] =
    b"schedule 4\n1*1\n0*2\n1*1\ntranscript\n1 3\n0 7\n1 9\nends\n0 halted\n1 halted\n";

#[test]
fn gates_force_updates(rt: HostRuntime) -> Result<(), Fail> {
    let alloc = rt.alloc();
    let marked = update_held(Point::AfterMark);
    updates_are_forced(&rt, alloc, &marked, 3, OLD_OF_UPDATE)?;
    let stored = update_held(Point::AfterPut);
    updates_are_forced(&rt, alloc, &stored, 7, NEW_OF_UPDATE)?;
    updates_are_forced(&rt, alloc, &update_complete(), 7, NEW_OF_UPDATE)
}

/// Thread 0 writes a variable within a monitor, which thread 1 enters once it has read another.
const WRITE_INSIDE: &[u8] =
    b"var x 0\nvar y 0\nmonitor m\nthread\nenter m\npush 1\nwrite x\nexit m\nhalt\nthread\nread y\ndrop\nenter m\nexit m\nhalt\n";

/// The writer waits within the monitor until the other has found it held.
fn inside_first() -> [Hold; 2] {
    [
        hold(spot(1, Point::BeforeValue), spot(0, Point::AfterMark)),
        hold(spot(0, Point::AfterMark), spot(1, Point::Held)),
    ]
}

#[test]
fn a_held_monitor_is_waited_for(rt: HostRuntime) -> Result<(), Fail> {
    is_forced(
        &rt,
        rt.alloc(),
        &["run", "--patience", "10000000"],
        WRITE_INSIDE,
        &inside_first(),
        b"schedule 6\n0*3\n1*3\ntranscript\nends\n0 halted\n1 halted\n",
    )
}

/// Two threads write the same value, and a third reads it.
const TWO_WRITERS: &[u8] =
    b"var x 0\nthread\npush 3\nwrite x\nhalt\nthread\npush 3\nwrite x\nhalt\nthread\nread x\nprint\nhalt\n";

#[test]
fn threads_that_are_slow_everywhere_are_recorded(rt: HostRuntime) -> Result<(), Fail> {
    let report = report_of(&rt, rt.alloc(), &["run"], TWO_WRITERS, &Slow)?;
    assert!(rt; report.is_some());
    Ok(())
}

/// Sixteen threads that each read a variable.
fn sixteen_readers(alloc: Global) -> Result<Vec<u8>, Fail> {
    let mut text = Vec::new(alloc);
    text.extend_from_slice(b"var x 3\n")?;
    for _ in 0..16u32 {
        text.extend_from_slice(b"thread\nread x\nprint\nhalt\n")?;
    }
    Ok(text)
}

#[test]
fn sixteen_threads_meet(rt: HostRuntime) -> Result<(), Fail> {
    let alloc = rt.alloc();
    let text = sixteen_readers(alloc)?;
    // Each waits at its read until all have come to theirs, so none can wait for another to end.
    let gate = Rendezvous::of(16);
    let report = report_of(&rt, alloc, &["run"], &text, &gate)?;
    assert!(rt; gate.succeeded());
    assert!(rt; report.is_some());
    Ok(())
}
