//! Demonstrations beside figures that were worked out apart from this code.
ghost use Rattle.std.specs.Prelude.{◌≡◌, ◌<◌, length};

use super::*;
use std::alloc::Global;
use std::process::Abort;
use std::test::Fail;
use stride_isa::{Checked, Op, Shape};

/// What a demonstration comes to.
#[derive(Clone, Copy)]
struct Row {
    number: u64,
    /// The rounds and the amount of each thread.
    workers: &'static [(u64, u64)],
    /// How many members the order has, with which it begins, and which stand about the end of its first part.
    members: usize,
    first: &'static [u8],
    middle: (usize, &'static [u8]),
}

const SIXTEEN: [(u64, u64); 16] = [
    (233, 653),
    (245, 642),
    (144, 232),
    (25, 505),
    (50, 640),
    (321, 935),
    (172, 258),
    (362, 169),
    (180, 586),
    (99, 688),
    (106, 868),
    (345, 906),
    (85, 461),
    (74, 670),
    (146, 840),
    (79, 69),
];

const SIXTEEN_FIRST: [u8; 12] = [4, 7, 10, 5, 7, 6, 3, 7, 2, 10, 12, 15];

// A demonstration with two threads.
fn two_threads() -> Row {
    Row {
        number: 6116,
        workers: &[(227, 463), (423, 212)],
        members: 124_800,
        first: &[1, 0, 0, 1, 0, 0, 1, 0, 0, 1, 1, 1],
        middle: (41_597, &[0, 0, 0, 0, 1, 0, 1]),
    }
}

// One that draws the same number again and again.
fn one_draw() -> Row {
    Row {
        number: 65_536,
        workers: &[(243, 537), (243, 537), (243, 537)],
        members: 186_624,
        first: &[1, 1, 1, 1, 1, 1],
        middle: (46_653, &[1, 1, 1, 0, 1, 2, 0]),
    }
}

// One with a number that has more than 32 bits.
fn long_number() -> Row {
    Row {
        number: 9_876_543_210,
        workers: &[(241, 427), (271, 739), (164, 307)],
        members: 173_056,
        first: &[1, 1, 1, 1, 2, 1, 1, 0, 2, 1, 2, 1],
        middle: (43_261, &[0, 0, 1, 0, 1, 2, 0]),
    }
}

// One with as many threads as a program has at most.
fn sixteen_threads(number: u64) -> Row {
    Row {
        number,
        workers: &SIXTEEN,
        members: 2_900_608,
        first: &SIXTEEN_FIRST,
        middle: (170_621, &[13, 2, 8, 0, 1, 2, 3]),
    }
}

// The code of a worker.
fn code_of((rounds, amount): (u64, u64)) -> [Op; 19] {
    [
        Op::Push(rounds),
        Op::Set(0),
        Op::Enter(0),
        Op::Read(0),
        Op::Push(amount),
        Op::Add,
        Op::Write(0),
        Op::Exit(0),
        Op::Read(1),
        Op::Push(1),
        Op::Add,
        Op::Write(1),
        Op::Get(0),
        Op::Push(1),
        Op::Sub,
        Op::Set(0),
        Op::Get(0),
        Op::Jnz(2),
        Op::Halt,
    ]
}

fn has_declarations(rt: &impl Abort, program: &Checked) {
    assert!(rt; program.decls() == 2);
    for (decl, name) in [(0, b"total"), (1, b"noise")] {
        let decl = program.decl(decl);
        assert!(rt; decl.name.as_slice() == name.as_slice());
        assert_eq!(rt; decl.shape, Shape::Single);
        assert_eq!(rt; decl.start, 0);
    }
    assert!(rt; program.monitors() == 1);
    assert!(rt; program.monitor(0).as_slice() == b"m".as_slice());
}

fn has_workers(rt: &impl Abort, program: &Checked, workers: &[(u64, u64)]) {
    assert_eq!(rt; program.threads() as usize, workers.len());
    for (thread, worker) in workers.iter().enumerate() {
        let thread = thread as u32;
        assert!(rt; thread < program.threads());
        assert!(rt; program.code(thread) == code_of(*worker).as_slice());
    }
}

fn has_members(rt: &impl Abort, order: &[u8], row: &Row) {
    assert_eq!(rt; order.len(), row.members);
    assert!(rt; order.starts_with(row.first));
    let (at, members) = row.middle;
    assert!(rt; at <= order.len());
    assert!(rt; order[at..].starts_with(members));
}

fn is_as_in(rt: &impl Abort, alloc: Global, row: Row) -> Result<(), Fail> {
    let program = demo_program(alloc, row.number)?;
    has_declarations(rt, &program);
    has_workers(rt, &program, row.workers);
    let order = demo_order(alloc, row.number)?;
    has_members(rt, order.as_slice(), &row);
    Ok(())
}

#[test]
fn small_demonstrations(rt: HostRuntime) -> Result<(), Fail> {
    is_as_in(&rt, rt.alloc(), two_threads())?;
    is_as_in(&rt, rt.alloc(), one_draw())?;
    is_as_in(&rt, rt.alloc(), long_number())?;
    Ok(())
}

#[test]
fn demonstrations_of_sixteen_threads(rt: HostRuntime) -> Result<(), Fail> {
    is_as_in(&rt, rt.alloc(), sixteen_threads(0))?;
    is_as_in(&rt, rt.alloc(), sixteen_threads(u64::MAX))?;
    Ok(())
}
