//! The program of a demonstration.
ghost use Rattle.std.specs.Prelude.{◌≡◌, ◌+◌, ◌<◌, ◌≤◌, true, false, length, IfOk, OnOk, codes, [], ◌∷◌};
ghost use Rattle.stride_isa.specs.Limits.{cell_limit, instruction_limit, monitor_limit, thread_limit};
ghost use Rattle.stride_isa.specs.Listing.{cell_count, instruction_count, is_taken, with_decl, with_monitor, with_thread, with_op};
ghost use Rattle.stride_isa.specs.Names.{is_name};
ghost use Rattle.stride_isa.specs.Validity.{IsValid};
ghost use Rattle.demo.specs.Demo.{demo_program, thread_count};
ghost use Rattle.demo.specs.Laws.{IsDemoProgram};
ghost use Rattle.demo.specs.Program.{program_of, variable, with_code, worker};

use crate::laws::demo_programs_are_valid;
use crate::sizes::{amount_of, rounds_of, thread_count};
use std::alloc::Global;
use stride_base::NoMemory;
use stride_isa::{AddError, CheckError, Checked, Decl, Name, Op, Program, Shape, check};

/// The position of the variable `total`.
const TOTAL: u32 = 0;
/// The position of the variable `noise`.
const NOISE: u32 = 1;
/// The position of the monitor that guards `total`.
const MONITOR: u32 = 0;
/// The local that counts the rounds that are left.
const ROUNDS_LEFT: u8 = 0;
/// The position at which a round begins.
const ROUND: u32 = 2;

fn named(word: &[u8]) -> Name
    requires { is_name word.now ≡ true }
    ensures { result ≡ word.now }
{
    let Some(name) = Name::of(word) else {
        unreachable!()
    };
    name
}

fn add_variable(program: &mut Program, word: &[u8]) -> Result<(), NoMemory>
    requires name { is_name word.now ≡ true }
    requires free { is_taken program.old word.now ≡ false }
    requires room { cell_count program.old.decls < cell_limit }
    ensures { OnOk result (program.new ≡ with_decl program.old (variable word.now)) }
{
    let variable = Decl {
        name: named(word),
        shape: Shape::Single,
        start: 0,
    };
    match program.add_cells(variable) {
        Ok(_) => Ok(()),
        Err(AddError::NoMemory) => Err(NoMemory),
        Err(AddError::Twice | AddError::TooMany) => unreachable!(),
    }
}

fn add_monitor(program: &mut Program, word: &[u8]) -> Result<(), NoMemory>
    requires name { is_name word.now ≡ true }
    requires free { is_taken program.old word.now ≡ false }
    requires room { length program.old.monitors < monitor_limit }
    ensures { OnOk result (program.new ≡ with_monitor program.old word.now) }
{
    match program.add_monitor(named(word)) {
        Ok(_) => Ok(()),
        Err(AddError::NoMemory) => Err(NoMemory),
        Err(AddError::Twice | AddError::TooMany) => unreachable!(),
    }
}

fn add_thread(program: &mut Program) -> Result<(), NoMemory>
    requires { length program.old.threads < thread_limit }
    ensures { OnOk result (program.new ≡ with_thread program.old) }
{
    match program.add_thread() {
        Ok(_) => Ok(()),
        Err(AddError::NoMemory) => Err(NoMemory),
        Err(AddError::Twice | AddError::TooMany) => unreachable!(),
    }
}

fn add_op(program: &mut Program, op: Op) -> Result<(), NoMemory>
    requires begun { 0 < length program.old.threads }
    requires room { instruction_count program.old.threads < instruction_limit }
    ensures { OnOk result (program.new ≡ with_op program.old op) }
{
    match program.add_op(op) {
        Ok(()) => Ok(()),
        Err(AddError::NoMemory) => Err(NoMemory),
        Err(AddError::Twice | AddError::TooMany) => unreachable!(),
    }
}

// Adds a thread with this code.
fn add_code(program: &mut Program, code: &[Op]) -> Result<(), NoMemory>
    requires thread { length program.old.threads < thread_limit }
    requires room { instruction_count program.old.threads + length code.now ≤ instruction_limit }
    ensures { OnOk result (program.new ≡ with_code program.old code.now) }
{
    add_thread(program)?;
    for op in code {
        add_op(program, *op)?;
    }
    Ok(())
}

// The code of a thread that makes this many rounds and adds this amount in each.
fn worker(rounds: u32, amount: u32) -> [Op; 19]
    ensures { result ≡ worker rounds amount }
{
    [
        Op::Push(u64::from(rounds)),
        Op::Set(ROUNDS_LEFT),
        Op::Enter(MONITOR),
        Op::Read(TOTAL),
        Op::Push(u64::from(amount)),
        Op::Add,
        Op::Write(TOTAL),
        Op::Exit(MONITOR),
        Op::Read(NOISE),
        Op::Push(1),
        Op::Add,
        Op::Write(NOISE),
        Op::Get(ROUNDS_LEFT),
        Op::Push(1),
        Op::Sub,
        Op::Set(ROUNDS_LEFT),
        Op::Get(ROUNDS_LEFT),
        Op::Jnz(ROUND),
        Op::Halt,
    ]
}

// The variables and the monitor, and no thread yet.
fn declared(alloc: Global) -> Result<Program, NoMemory>
    ensures { IfOk result (λ program. program ≡ program_of []) }
{
    let mut program = Program::new(alloc);
    add_variable(&mut program, b"total")?;
    add_variable(&mut program, b"noise")?;
    add_monitor(&mut program, b"m")?;
    Ok(program)
}

// The program of a demonstration before it is checked.
fn listed(alloc: Global, number: u64) -> Result<Program, NoMemory>
    ensures { IfOk result (λ program. program ≡ demo_program number) }
{
    let mut program = declared(alloc)?;
    for thread in 0..thread_count(number) {
        let code = worker(rounds_of(number, thread), amount_of(number, thread));
        add_code(&mut program, &code)?;
    }
    Ok(program)
}

// The check of a valid program.
fn checked(alloc: Global, program: Program) -> Result<Checked, NoMemory>
    requires { IsValid program }
    ensures { IfOk result (λ checked. checked ≡ program) }
{
    stride_isa::one_verdict();
    match check(alloc, program) {
        Ok(checked) => Ok(checked),
        Err(CheckError::NoMemory) => Err(NoMemory),
        Err(CheckError::Bad { .. }) => unreachable!(),
    }
}

/// The program of the demonstration of a number, checked: only want of memory refuses it.
pub fn demo_program(alloc: Global, number: u64) -> Result<Checked, NoMemory>
    ensures is { IfOk result (λ program. program ≡ demo_program number) }
    ensures valid { IfOk result (λ program. IsDemoProgram (thread_count number) program) }
{
    demo_programs_are_valid();
    let program = listed(alloc, number)?;
    checked(alloc, program)
}
