//! What no clause says: whole recordings, worked by hand.

use super::*;
use sc_machine::{End, Trap};
use std::alloc::Global;
use std::test::Fail;
use stride_isa::{Checked, Decl, Name, Op, Program, Shape, check};

const READS: [Op; 3] = [Op::Read(0), Op::Print, Op::Halt];

const WRITES: [Op; 3] = [Op::Push(7), Op::Write(0), Op::Halt];

const ADDS: [Op; 4] = [Op::Push(5), Op::AddTo(0), Op::Print, Op::Halt];

const EXCHANGES: [Op; 4] = [Op::Push(7), Op::Xchg(0), Op::Print, Op::Halt];

const WRITES_TWICE: [Op; 5] = [
    Op::Push(5),
    Op::Write(0),
    Op::Push(0),
    Op::Write(0),
    Op::Halt,
];

const ENTERS_A_THEN_B: [Op; 5] = [
    Op::Enter(0),
    Op::Enter(1),
    Op::Exit(1),
    Op::Exit(0),
    Op::Halt,
];

const ENTERS_B_THEN_A: [Op; 5] = [
    Op::Enter(1),
    Op::Enter(0),
    Op::Exit(0),
    Op::Exit(1),
    Op::Halt,
];

const TRAPS_INSIDE: [Op; 6] = [
    Op::Enter(0),
    Op::Push(1),
    Op::Push(0),
    Op::Div,
    Op::Print,
    Op::Halt,
];

const ENTERS: [Op; 3] = [Op::Enter(0), Op::Exit(0), Op::Halt];

/// Two threads, an order, and the logs and ends of its recording.
#[derive(Drop)]
struct Row<'a> {
    threads: [&'a [Op]; 2],
    order: &'a [u8],
    logs: [&'a [LogEntry]; 2],
    ends: [End; 2],
}

fn add_thread(program: &mut Program, code: &[Op]) -> Result<(), Fail> {
    program.add_thread()?;
    for op in code {
        program.add_op(*op)?;
    }
    Ok(())
}

// A program of one variable, `x`, that starts with 0, two monitors, `a` and `b`, and two threads.
fn two_threads(alloc: Global, first: &[Op], second: &[Op]) -> Result<Checked, Fail> {
    let mut program = Program::new(alloc);
    program.add_cells(Decl {
        name: Name::of(b"x").ok_or("a name")?,
        shape: Shape::Single,
        start: 0,
    })?;
    program.add_monitor(Name::of(b"a").ok_or("a name")?)?;
    program.add_monitor(Name::of(b"b").ok_or("a name")?)?;
    add_thread(&mut program, first)?;
    add_thread(&mut program, second)?;
    Ok(check(alloc, program)?)
}

// The recording of an order, with a fuel of 9 and a patience of 2.
fn recording(
    alloc: Global,
    threads: [&[Op]; 2],
    order: &[u8],
) -> Result<Result<Driven, DriveError>, Fail> {
    if order.len() > 100 {
        return Err("a long order")?;
    }
    let [first, second] = threads;
    let checked = two_threads(alloc, first, second)?;
    Ok(drive(alloc, &checked, 9, 2, order))
}

fn has_logs(driven: &Driven, wanted: [&[LogEntry]; 2]) -> bool {
    let [first, second] = wanted;
    driven.logs.len() == 2
        && driven.logs.get(0).as_slice() == first
        && driven.logs.get(1).as_slice() == second
}

#[test]
fn orders_give_recordings(rt: HostRuntime) -> Result<(), Fail> {
    let rows = [
        Row {
            threads: [&READS, &WRITES],
            order: &[0, 1, 1, 1, 1, 1, 1, 0],
            logs: [
                &[LogEntry::Read { value: 0, bound: 1 }],
                &[LogEntry::Write { number: 1 }],
            ],
            ends: [End::Halted, End::Halted],
        },
        // Members of a thread that has ended.
        Row {
            threads: [&READS, &WRITES],
            order: &[0, 1, 1, 1, 1, 1, 1, 1, 1, 0, 0, 1],
            logs: [
                &[LogEntry::Read { value: 0, bound: 1 }],
                &[LogEntry::Write { number: 1 }],
            ],
            ends: [End::Halted, End::Halted],
        },
        // The number is odd once.
        Row {
            threads: [&READS, &WRITES],
            order: &[1, 1, 1, 0, 0, 1, 0],
            logs: [
                &[LogEntry::Read { value: 7, bound: 1 }],
                &[LogEntry::Write { number: 1 }],
            ],
            ends: [End::Halted, End::Halted],
        },
        // The writer finishes after the order, and then the reader.
        Row {
            threads: [&READS, &WRITES],
            order: &[1, 1, 1, 0],
            logs: [
                &[LogEntry::Read { value: 7, bound: 1 }],
                &[LogEntry::Write { number: 1 }],
            ],
            ends: [End::Halted, End::Halted],
        },
        Row {
            threads: [&READS, &WRITES_TWICE],
            order: &[0, 1, 1, 1, 1, 1, 1, 1, 1, 1, 1, 1, 1, 0],
            logs: [
                &[LogEntry::Read { value: 0, bound: 2 }],
                &[LogEntry::Write { number: 1 }, LogEntry::Write { number: 2 }],
            ],
            ends: [End::Halted, End::Halted],
        },
        Row {
            threads: [&ADDS, &EXCHANGES],
            order: &[0, 0, 0, 0, 0, 1, 1, 1, 1, 1],
            logs: [
                &[LogEntry::Update { number: 1, old: 0 }],
                &[LogEntry::Update { number: 2, old: 5 }],
            ],
            ends: [End::Halted, End::Halted],
        },
        // The number is odd when the first thread sees it.
        Row {
            threads: [&ADDS, &EXCHANGES],
            order: &[1, 1, 1, 0, 0],
            logs: [&[], &[LogEntry::Update { number: 1, old: 0 }]],
            ends: [End::Stopped { pc: 1 }, End::Halted],
        },
        // A claim is lost, and made again.
        Row {
            threads: [&WRITES, &WRITES_TWICE],
            order: &[0, 1, 1, 0, 1, 1, 0, 0, 0, 0],
            logs: [
                &[LogEntry::Write { number: 2 }],
                &[LogEntry::Write { number: 1 }],
            ],
            ends: [End::Halted, End::Stopped { pc: 3 }],
        },
        Row {
            threads: [&READS, &WRITES],
            order: &[],
            logs: [&[], &[]],
            ends: [End::Stopped { pc: 0 }, End::Stopped { pc: 1 }],
        },
    ];
    for row in rows {
        let driven = recording(rt.alloc(), row.threads, row.order)??;
        assert!(rt; has_logs(&driven, row.logs));
        assert!(rt; driven.ends.as_slice() == row.ends.as_slice());
    }
    Ok(())
}

#[test]
fn threads_give_up_at_monitors(rt: HostRuntime) -> Result<(), Fail> {
    let rows = [
        // Each holds what the other wants.
        Row {
            threads: [&ENTERS_A_THEN_B, &ENTERS_B_THEN_A],
            order: &[0, 0, 1, 1, 0, 0, 1, 1],
            logs: [
                &[LogEntry::Enter { turn: 1 }],
                &[LogEntry::Enter { turn: 1 }],
            ],
            ends: [End::Stopped { pc: 1 }, End::Stopped { pc: 1 }],
        },
        // A thread that traps keeps its monitor.
        Row {
            threads: [&TRAPS_INSIDE, &ENTERS],
            order: &[0, 0, 1, 1],
            logs: [&[LogEntry::Enter { turn: 1 }], &[]],
            ends: [
                End::Trapped {
                    trap: Trap::DivZero,
                    pc: 3,
                },
                End::Stopped { pc: 0 },
            ],
        },
        // Exits are made after the order.
        Row {
            threads: [&ENTERS_A_THEN_B, &ENTERS],
            order: &[0, 0, 0, 0, 1],
            logs: [
                &[LogEntry::Enter { turn: 1 }, LogEntry::Enter { turn: 1 }],
                &[],
            ],
            ends: [End::Halted, End::Stopped { pc: 0 }],
        },
    ];
    for row in rows {
        let driven = recording(rt.alloc(), row.threads, row.order)??;
        assert!(rt; has_logs(&driven, row.logs));
        assert!(rt; driven.ends.as_slice() == row.ends.as_slice());
    }
    Ok(())
}

#[test]
fn outputs_and_last_values_are_kept(rt: HostRuntime) -> Result<(), Fail> {
    let driven = recording(rt.alloc(), [&READS, &WRITES], &[1, 1, 1, 0])??;
    assert_eq!(rt; driven.outputs.len(), 2);
    assert!(rt; driven.outputs.get(0).as_slice() == b"7\n".as_slice());
    assert!(rt; driven.outputs.get(1).as_slice() == b"".as_slice());
    assert!(rt; driven.last_values.as_slice() == [7].as_slice());
    Ok(())
}

#[test]
fn a_stranger_is_refused(rt: HostRuntime) -> Result<(), Fail> {
    let refused = recording(rt.alloc(), [&READS, &WRITES], &[0, 1, 2, 0, 9])?;
    let Err(error) = refused else {
        return Err("a recording")?;
    };
    assert_eq!(rt; error, DriveError::NoSuchThread { place: 2 });
    Ok(())
}
