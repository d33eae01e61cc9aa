//! What no clause says: that programs run as their writers mean, with texts and ends written down by hand.
ghost use Rattle.std.specs.Prelude.{◌≡◌, IfSome, IfOk, length};
ghost use Rattle.stride_isa.specs.declared.decl.Shape.TheVariants.{Single};

use super::*;
use crate::limits::LINE_LIMIT;
use std::alloc::Global;
use std::test::Fail;
use stride_base::List;
use stride_isa::limits::{FUEL_LIMIT, MONITOR_LIMIT};
use stride_isa::{Change, Checked, Decl, Name, Op, Program, Shape, check};

fn variable(bytes: &[u8], start: u64) -> Option<Decl>
    ensures { IfSome result (λ d. d.shape ≡ Single) }
{
    let name = Name::of(bytes)?;
    Some(Decl {
        name,
        shape: Shape::Single,
        start,
    })
}

fn add_thread(program: &mut Program, code: &[Op]) -> Result<(), Fail> {
    program.add_thread()?;
    for op in code {
        program.add_op(*op)?;
    }
    Ok(())
}

// A program of one variable, `x`, that starts with 0, and two threads.
fn two_threads(alloc: Global, first: &[Op], second: &[Op]) -> Result<Checked, Fail>
    ensures { IfOk result (λ checked. length checked.threads ≡ 2) }
{
    let mut program = Program::new(alloc);
    program.add_cells(variable(b"x", 0).ok_or("a name")?)?;
    add_thread(&mut program, first)?;
    add_thread(&mut program, second)?;
    let checked = check(alloc, program)?;
    if checked.threads() != 2 {
        return Err("not two threads")?;
    }
    Ok(checked)
}

const WRITES: [Op; 3] = [Op::Push(3), Op::Write(0), Op::Halt];

const READS: [Op; 3] = [Op::Read(0), Op::Print, Op::Halt];

#[test]
fn stops_are_told_and_answered(rt: HostRuntime) -> Result<(), Fail> {
    let checked = two_threads(rt.alloc(), &WRITES, &READS)?;
    let mut out = List::new(rt.alloc());
    out.reserve(10 * LINE_LIMIT)?;

    let mut writer = ThreadRun::start(&checked, 0, 10);
    let stop = writer.local(&mut out);
    assert!(rt; stop == Stop::Write { cell: 0, value: 3 });
    assert!(rt; writer.local(&mut out) == stop);
    let Stop::Write { .. } = stop else {
        return Err("no write")?;
    };
    writer.answer(None);
    assert!(rt; writer.local(&mut out) == Stop::Ended { end: End::Halted });

    let mut out = List::new(rt.alloc());
    out.reserve(10 * LINE_LIMIT)?;
    let mut reader = ThreadRun::start(&checked, 1, 10);
    let Stop::Read { cell: 0 } = reader.local(&mut out) else {
        return Err("no read")?;
    };
    reader.answer(Some(12));
    assert!(rt; reader.local(&mut out) == Stop::Ended { end: End::Halted });
    assert!(rt; out.as_slice() == b"12\n".as_slice());
    Ok(())
}

#[test]
fn a_thread_is_given_up(rt: HostRuntime) -> Result<(), Fail> {
    let checked = two_threads(rt.alloc(), &WRITES, &READS)?;
    let mut out = List::new(rt.alloc());
    out.reserve(10 * LINE_LIMIT)?;
    let mut writer = ThreadRun::start(&checked, 0, 10);
    let Stop::Write { .. } = writer.local(&mut out) else {
        return Err("no write")?;
    };
    assert!(rt;
        !writer.held(MONITOR_LIMIT as u32 - 1)
            && !writer.held(MONITOR_LIMIT as u32)
            && !writer.held(u32::MAX)
    );
    assert!(rt; writer.give_up() == End::Stopped { pc: 1 });
    assert!(rt;
        writer.local(&mut out)
            == Stop::Ended {
                end: End::Stopped { pc: 1 }
            }
    );
    Ok(())
}

#[test]
fn a_thread_keeps_its_output(rt: HostRuntime) -> Result<(), Fail> {
    let checked = two_threads(rt.alloc(), &WRITES, &READS)?;
    let mut reader = StandingThread::start(rt.alloc(), &checked, 1, 10)?;
    let Stop::Read { .. } = reader.stop() else {
        return Err("no read")?;
    };
    reader.answer(Some(7));
    assert!(rt; reader.printed() == b"7\n".as_slice());
    let (end, printed) = reader.end();
    assert!(rt; end == End::Halted && printed.as_slice() == b"7\n".as_slice());

    let mut writer = StandingThread::start(rt.alloc(), &checked, 0, 10)?;
    let Stop::Write { .. } = writer.stop() else {
        return Err("no write")?;
    };
    writer.give_up();
    let (end, printed) = writer.end();
    assert!(rt; end == End::Stopped { pc: 1 } && printed.is_empty());
    Ok(())
}

#[test]
fn prints_and_ends(rt: HostRuntime) -> Result<(), Fail> {
    let rows: [(u64, u32, &[u8], End); 5] = [
        (0, 3, b"0\n", End::Halted),
        (907, 10, b"907\n", End::Halted),
        (
            18446744073709551615,
            FUEL_LIMIT,
            b"18446744073709551615\n",
            End::Halted,
        ),
        (10, 2, b"10\n", End::OutOfSteps),
        (10, 1, b"", End::OutOfSteps),
    ];
    for (word, fuel, text, end) in rows {
        let checked = two_threads(rt.alloc(), &[Op::Push(word), Op::Print, Op::Halt], &READS)?;
        let mut out = List::new(rt.alloc());
        out.reserve(FUEL_LIMIT as usize * LINE_LIMIT)?;
        let mut run = ThreadRun::start(&checked, 0, fuel);
        assert!(rt; run.local(&mut out) == Stop::Ended { end });
        assert!(rt; out.as_slice() == text, "at {word} with fuel {fuel}");
    }
    Ok(())
}

#[test]
fn position_and_count_are_told(rt: HostRuntime) -> Result<(), Fail> {
    let trap = End::Trapped {
        trap: Trap::DivZero,
        pc: 2,
    };
    let rows: [(&[Op], u32, u32, u32, Option<End>); 4] = [
        (&WRITES, 10, 1, 1, None),
        (&WRITES, 1, 1, 1, Some(End::OutOfSteps)),
        (&[Op::Halt], 10, 0, 1, Some(End::Halted)),
        (
            &[Op::Push(1), Op::Push(0), Op::Div, Op::Halt],
            10,
            2,
            3,
            Some(trap),
        ),
    ];
    for (code, fuel, pc, made, ended) in rows {
        let checked = two_threads(rt.alloc(), code, &READS)?;
        let mut out = List::new(rt.alloc());
        out.reserve(FUEL_LIMIT as usize * LINE_LIMIT)?;
        let mut run = ThreadRun::start(&checked, 0, fuel);
        assert!(rt; run.pc() == 0 && run.made() == 0 && run.ended().is_none());
        run.local(&mut out);
        for told in [run.copy(), run] {
            assert!(rt; told.pc() == pc && told.made() == made && told.ended() == ended);
        }
    }
    Ok(())
}

#[test]
fn updates_are_told_and_answered(rt: HostRuntime) -> Result<(), Fail> {
    let rows: [(&[Op], Change); 3] = [
        (
            &[Op::Push(3), Op::Xchg(0), Op::Print, Op::Halt],
            Change::Store(3),
        ),
        (
            &[Op::Push(4), Op::AddTo(0), Op::Print, Op::Halt],
            Change::Plus(4),
        ),
        (
            &[Op::Push(5), Op::Push(6), Op::Cas(0), Op::Print, Op::Halt],
            Change::IfEqual {
                expected: 5,
                new: 6,
            },
        ),
    ];
    for (code, change) in rows {
        let checked = two_threads(rt.alloc(), code, &READS)?;
        let mut thread = StandingThread::start(rt.alloc(), &checked, 0, 10)?;
        let stop = thread.stop();
        assert!(rt; stop == Stop::Update { cell: 0, change });
        let Stop::Update { .. } = stop else {
            return Err("no update")?;
        };
        thread.answer(Some(90));
        assert!(rt; thread.printed() == b"90\n".as_slice());
    }
    Ok(())
}

fn is_send_and_sync<T: Send + Sync>(_value: &T) {}

#[test]
fn runs_move_between_threads_and_are_shared(rt: HostRuntime) -> Result<(), Fail> {
    let checked = two_threads(rt.alloc(), &WRITES, &READS)?;
    is_send_and_sync(&ThreadRun::start(&checked, 0, 10));
    is_send_and_sync(&StandingThread::start(rt.alloc(), &checked, 0, 10)?);
    Ok(())
}
