//! The check on tables of programs, and beside a plain check.
ghost use Rattle.std.specs.Prelude.{◌≡◌, ◌<◌, length};

use super::*;
use crate::plain_check;
use CheckKind::{BadName, BadTarget, Overflow, RunsOff, TwoDepths, Underflow};
use Op::{Drop as Pop, *};
use std::alloc::{AllocError, Global};
use std::process::Abort;
use std::test::Fail;

fn add_code(program: &mut Program, code: &[Op]) -> Result<(), AddError>
    requires { 0 < length program.old.threads }
{
    for op in code {
        program.add_op(*op)?;
    }
    Ok(())
}

// A program with a variable, an array, a monitor and these threads.
fn program_of(alloc: Global, threads: &[&[Op]]) -> Result<Program, Fail> {
    let mut program = Program::new(alloc);
    let name = Name::of(b"x").ok_or("a name")?;
    program.add_cells(Decl {
        name,
        shape: Shape::Single,
        start: 7,
    })?;
    let name = Name::of(b"row").ok_or("a name")?;
    program.add_cells(Decl {
        name,
        shape: Shape::Array(2),
        start: 8,
    })?;
    program.add_monitor(Name::of(b"m").ok_or("a name")?)?;
    for code in threads {
        program.add_thread()?;
        add_code(&mut program, code)?;
    }
    Ok(program)
}

fn refusal(alloc: Global, threads: &[&[Op]]) -> Result<Option<CheckError>, Fail> {
    match check(alloc, program_of(alloc, threads)?) {
        Ok(_) => Ok(None),
        Err(error) => Ok(Some(error)),
    }
}

fn bad(kind: CheckKind, thread: u32, instruction: u32) -> Option<CheckError> {
    Some(CheckError::Bad {
        kind,
        thread,
        instruction,
    })
}

// The check tells what the table wants, and so does the plain check.
fn tells(
    rt: &impl Abort,
    alloc: Global,
    threads: &[&[Op]],
    wanted: Option<CheckError>,
) -> Result<(), Fail> {
    assert_eq!(rt; refusal(alloc, threads)?, wanted);
    assert_eq!(rt; plain_check::refusal(alloc, threads)?, wanted);
    Ok(())
}

#[test]
fn faults_of_one_thread(rt: HostRuntime) -> Result<(), Fail> {
    let rows: [(&[Op], Option<CheckError>); 28] = [
        (&[Halt], None),
        (&[], bad(RunsOff, 0, 0)),
        (&[Push(1)], bad(RunsOff, 0, 0)),
        (&[Pop, Halt], bad(Underflow, 0, 0)),
        (&[Push(1), Add, Halt], bad(Underflow, 0, 1)),
        (&[Jump(1)], bad(BadTarget, 0, 0)),
        (&[Push(1), Jz(3), Halt], bad(BadTarget, 0, 1)),
        (&[Push(1), Jnz(2)], bad(BadTarget, 0, 1)),
        (&[Halt, Get(16), Halt], bad(BadName, 0, 1)),
        (&[Get(15), Set(0), Halt], None),
        (&[Read(0), Write(0), Halt], None),
        (&[Read(1), Halt], bad(BadName, 0, 0)),
        (
            &[
                Push(0),
                ReadAt(1),
                Print,
                Push(1),
                Push(0),
                WriteAt(1),
                Halt,
            ],
            None,
        ),
        (&[Push(0), ReadAt(0), Halt], bad(BadName, 0, 1)),
        (&[Halt, Read(2)], bad(BadName, 0, 1)),
        (&[Push(1), Xchg(0), Print, Halt], None),
        (&[Push(1), AddTo(0), Print, Halt], None),
        (&[Push(1), Push(2), Cas(0), Print, Halt], None),
        (&[Push(1), Xchg(1), Halt], bad(BadName, 0, 1)),
        (&[Push(1), AddTo(2), Halt], bad(BadName, 0, 1)),
        (&[Push(1), Push(2), Cas(1), Halt], bad(BadName, 0, 2)),
        (&[Xchg(0), Halt], bad(Underflow, 0, 0)),
        (&[Push(1), Cas(0), Halt], bad(Underflow, 0, 1)),
        (&[Enter(0), Exit(0), Halt], None),
        (&[Exit(1), Halt], bad(BadName, 0, 0)),
        (&[Halt, Pop, Pop], None),
        (&[Push(1), Jnz(0), Halt], None),
        (&[Jump(0)], None),
    ];
    for (code, wanted) in rows {
        tells(&rt, rt.alloc(), &[code], wanted)?;
    }
    Ok(())
}

#[test]
fn which_fault_is_told(rt: HostRuntime) -> Result<(), Fail> {
    let rows: [(&[Op], Option<CheckError>); 8] = [
        // One depth a position would say two depths at position 6.
        (
            &[Push(1), Jz(6), Push(1), Jump(6), Pop, Halt, Pop, Jump(4)],
            bad(Underflow, 0, 4),
        ),
        (
            &[Push(1), Push(1), Jz(4), Push(5), Halt],
            bad(TwoDepths, 0, 4),
        ),
        // Two depths, underflow and running off at one position.
        (&[Push(1), Jz(3), Push(1), Pop], bad(TwoDepths, 0, 3)),
        (&[Pop], bad(Underflow, 0, 0)),
        // A loop that pushes meets its start with all depths.
        (&[Push(1), Jump(0)], bad(TwoDepths, 0, 0)),
        // The least position, though the walk comes to it last.
        (
            &[Jump(3), Pop, Halt, Jump(5), Halt, Push(1), Add, Jump(1)],
            bad(Underflow, 0, 6),
        ),
        (
            &[Jump(3), Pop, Halt, Push(1), Pop, Jump(1), Pop],
            bad(Underflow, 0, 1),
        ),
        // An instruction at fault by itself goes before what runs into trouble earlier.
        (&[Pop, Jump(9)], bad(BadTarget, 0, 1)),
    ];
    for (code, wanted) in rows {
        tells(&rt, rt.alloc(), &[code], wanted)?;
    }
    Ok(())
}

#[test]
fn faults_of_several_threads(rt: HostRuntime) -> Result<(), Fail> {
    let fine: &[Op] = &[Halt];
    let empty: &[Op] = &[];
    let low: &[Op] = &[Push(1), Add, Halt];
    let off: &[Op] = &[Push(1)];
    let unnamed: &[Op] = &[Halt, Halt, Enter(7)];
    let astray: &[Op] = &[Halt, Jnz(2)];
    tells(&rt, rt.alloc(), &[], None)?;
    tells(&rt, rt.alloc(), &[fine, fine, fine], None)?;
    tells(&rt, rt.alloc(), &[fine, low, off], bad(Underflow, 1, 1))?;
    tells(&rt, rt.alloc(), &[fine, empty, off], bad(RunsOff, 1, 0))?;
    tells(
        &rt,
        rt.alloc(),
        &[low, fine, fine, unnamed],
        bad(BadName, 3, 2),
    )?;
    tells(
        &rt,
        rt.alloc(),
        &[empty, unnamed, astray],
        bad(BadName, 1, 2),
    )?;
    tells(
        &rt,
        rt.alloc(),
        &[fine, astray, unnamed],
        bad(BadTarget, 1, 1),
    )?;
    Ok(())
}

fn pushes(alloc: Global, count: u32) -> Result<Vec<Op>, AllocError> {
    let mut code = Vec::new(alloc);
    for word in 0..count {
        code.push(Push(u64::from(word)))?;
    }
    Ok(code)
}

#[test]
fn a_stack_has_64_words(rt: HostRuntime) -> Result<(), Fail> {
    let mut full = pushes(rt.alloc(), 64)?;
    tells(&rt, rt.alloc(), &[full.as_slice()], bad(RunsOff, 0, 63))?;
    full.push(Halt)?;
    tells(&rt, rt.alloc(), &[full.as_slice()], None)?;
    // The last one runs off as well.
    let over = pushes(rt.alloc(), 65)?;
    tells(&rt, rt.alloc(), &[over.as_slice()], bad(Overflow, 0, 64))
}

// A code of the greatest length, each position of which is met with each depth but none.
fn largest(alloc: Global) -> Result<Vec<Op>, AllocError> {
    let mut code = Vec::new(alloc);
    code.push(Push(1))?;
    code.push(Dup)?;
    code.push(Jz(0))?;
    for _ in 3..65_535 {
        code.push(Not)?;
    }
    code.push(Halt)?;
    Ok(code)
}

#[test]
fn the_largest_table(rt: HostRuntime) -> Result<(), Fail> {
    let code = largest(rt.alloc())?;
    assert_eq!(rt;
        refusal(rt.alloc(), &[code.as_slice()])?,
        bad(TwoDepths, 0, 0)
    );
    Ok(())
}

// The same value, of a type that threads may share and hand to one another.
fn handed_over<T: Send + Sync>(value: T) -> T
    ensures { result ≡ value }
{
    value
}

#[test]
fn a_checked_program_is_looked_at(rt: HostRuntime) -> Result<(), Fail> {
    let program = program_of(rt.alloc(), &[&[Push(3), Write(0), Halt]])?;
    let checked = handed_over(check(rt.alloc(), program)?);
    assert_eq!(rt; checked.threads(), 1);
    assert_eq!(rt; checked.code_len(0), 3);
    assert!(rt; checked.op(0, 1) == Write(0));
    assert_eq!(rt; checked.cells(), 3);
    assert_eq!(rt; checked.start_of(2), 8);
    Ok(())
}

// The next number of a fixed sequence, below a limit.
fn draw(state: &mut u64, limit: u64) -> u64
    requires { 0 < limit }
    ensures { result < limit }
{
    *state = state
        .wrapping_mul(6_364_136_223_846_793_005)
        .wrapping_add(1_442_695_040_888_963_407);
    (*state >> 33) % limit
}

// An instruction, mostly with a good operand, for a code of twelve.
fn drawn_op(state: &mut u64) -> Op {
    let target = (draw(state, 12) + u64::from(draw(state, 60) == 0)) as u32;
    let name = u32::from(draw(state, 60) == 0);
    match draw(state, 17) {
        0..=2 => Push(1),
        3 => Dup,
        4 | 5 => Pop,
        6 => Add,
        7 => Over,
        8 => Jump(target),
        9 => Jz(target),
        10 => Jnz(target),
        11 => Halt,
        12 => Read(name),
        13 => Xchg(name),
        14 => AddTo(name),
        15 => Cas(name),
        _ => Not,
    }
}

// Three words to begin with, so that not every code meets an empty stack soon.
fn drawn_code(alloc: Global, state: &mut u64) -> Result<Vec<Op>, AllocError> {
    let mut code = vec![in alloc; Push(1); 3]?;
    for _ in 0..9 {
        code.push(drawn_op(state))?;
    }
    Ok(code)
}

#[test]
fn as_the_plain_check(rt: HostRuntime) -> Result<(), Fail> {
    let mut state = 1;
    for _ in 0..2_000 {
        let one = drawn_code(rt.alloc(), &mut state)?;
        let two = drawn_code(rt.alloc(), &mut state)?;
        let threads = [one.as_slice(), two.as_slice()];
        let told = refusal(rt.alloc(), &threads)?;
        assert_eq!(rt; told, plain_check::refusal(rt.alloc(), &threads)?);
    }
    Ok(())
}
