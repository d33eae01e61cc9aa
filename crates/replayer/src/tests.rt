//! What no clause says: that a schedule is run with ample memory, with results written down by hand.
ghost use Rattle.std.specs.Prelude.{◌≡◌, IfOk, IfSome, length};
ghost use Rattle.stride_isa.specs.declared.decl.Shape.TheVariants.{Single};

use super::*;
use sc_machine::End;
use std::alloc::Global;
use std::test::Fail;
use stride_isa::{Checked, Decl, Name, Op, Program, Shape, check};

fn variable(bytes: &[u8], start: u64) -> Option<Decl>
    ensures { IfSome result (λ d. d.shape ≡ Single) }
{
    let name = Name::of(bytes)?;
    Some(Decl {
        name,
        shape: Shape::Single,
        start,
    })
}

fn add_thread(program: &mut Program, code: &[Op]) -> Result<(), Fail> {
    program.add_thread()?;
    for op in code {
        program.add_op(*op)?;
    }
    Ok(())
}

// A variable `x`, a thread that writes 3 into it inside a monitor, and one that prints it.
fn writer_and_reader(alloc: Global) -> Result<Checked, Fail> {
    let mut program = Program::new(alloc);
    program.add_cells(variable(b"x", 0).ok_or("a name")?)?;
    program.add_monitor(Name::of(b"m").ok_or("a name")?)?;
    let writes = [
        Op::Enter(0),
        Op::Push(3),
        Op::Write(0),
        Op::Exit(0),
        Op::Halt,
    ];
    let reads = [Op::Enter(0), Op::Read(0), Op::Print, Op::Exit(0), Op::Halt];
    add_thread(&mut program, &writes)?;
    add_thread(&mut program, &reads)?;
    Ok(check(alloc, program)?)
}

#[test]
fn schedules_are_run_or_refused(rt: HostRuntime) -> Result<(), Fail> {
    let program = writer_and_reader(rt.alloc())?;
    let stopped = End::Stopped { pc: 0 };
    let rows: [(&[u8], &[u8], [End; 2], u64); 3] = [
        (&[0, 0, 0, 1, 1, 1], b"1 3\n", [End::Halted, End::Halted], 3),
        (&[1, 1, 1, 0, 0, 0], b"1 0\n", [End::Halted, End::Halted], 3),
        (&[], b"", [stopped, stopped], 0),
    ];
    for (schedule, transcript, ends, value) in rows {
        let run = replay(rt.alloc(), &program, 100, schedule)?;
        assert!(rt; run.transcript.as_slice() == transcript);
        assert!(rt; run.ends.as_slice() == ends.as_slice());
        assert!(rt; run.last_values.as_slice() == [value].as_slice());
        assert_eq!(rt; run.outputs.len(), 2);
        assert!(rt; run.outputs.get(0).is_empty());
        assert_eq!(rt; run.outputs.get(1).len() * 2, transcript.len());
    }
    let refused: [(&[u8], u32); 4] = [(&[2], 0), (&[0, 1], 1), (&[0, 0, 0, 0], 3), (&[0, 0, 1], 2)];
    for (schedule, place) in refused {
        let Err(error) = replay(rt.alloc(), &program, 100, schedule) else {
            return Err("a run")?;
        };
        assert!(rt; error == ReplayError::NotEnabled { place });
    }
    Ok(())
}

// A variable `x`, and two threads that add 2 and 10 to it, read it, print it and begin again.
fn two_adders(alloc: Global) -> Result<Checked, Fail> {
    let mut program = Program::new(alloc);
    program.add_cells(variable(b"x", 0).ok_or("a name")?)?;
    for step in [2, 10] {
        let adds = [
            Op::Push(step),
            Op::AddTo(0),
            Op::Drop,
            Op::Read(0),
            Op::Print,
            Op::Jump(0),
        ];
        add_thread(&mut program, &adds)?;
    }
    Ok(check(alloc, program)?)
}

#[test]
fn members_in_a_row_are_turns(rt: HostRuntime) -> Result<(), Fail> {
    let program = two_adders(rt.alloc())?;
    let rows: [(&[u8], &[u8], [u32; 2], u64); 4] = [
        (&[0, 0, 1, 1, 0, 0], b"0 2\n1 12\n0 14\n", [1, 1], 14),
        (&[0, 0, 0, 1], b"0 2\n", [3, 3], 14),
        (&[1, 1, 1, 1, 1, 0], b"1 10\n1 20\n", [3, 3], 32),
        (&[0, 1, 1, 0], b"1 12\n0 12\n", [1, 1], 12),
    ];
    for (schedule, transcript, stops, value) in rows {
        let run = replay(rt.alloc(), &program, 100, schedule)?;
        let [first, second] = stops;
        let ends = [End::Stopped { pc: first }, End::Stopped { pc: second }];
        assert!(rt; run.transcript.as_slice() == transcript);
        assert!(rt; run.ends.as_slice() == ends.as_slice());
        assert!(rt; run.last_values.as_slice() == [value].as_slice());
    }
    // Six instructions are two turns.
    let refused: [(&[u8], u32); 3] = [(&[0, 0, 0], 2), (&[1, 0, 0, 0, 1], 3), (&[1, 1, 0, 1], 3)];
    for (schedule, place) in refused {
        let Err(error) = replay(rt.alloc(), &program, 6, schedule) else {
            return Err("a run")?;
        };
        assert!(rt; error == ReplayError::NotEnabled { place });
    }
    Ok(())
}
