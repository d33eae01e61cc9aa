//! What no clause says: that calls succeed with ample memory, and that the table's rows are those of the language.
ghost use Rattle.std.specs.Prelude.{◌≡◌, IfSome};
ghost use Rattle.stride_isa.specs.declared.decl.Shape.TheVariants.{Single};

use super::*;
use std::test::Fail;

fn named(bytes: &[u8]) -> Option<Name> {
    Name::of(bytes)
}

#[test]
fn names(rt: HostRuntime) {
    let good: [&[u8]; 4] = [b"x", b"_", b"a1_B", b"abcdefghijklmnopqrstuvwxyz012345"];
    for bytes in good {
        assert!(rt; named(bytes).is_some());
    }
    let bad: [&[u8]; 6] = [
        b"",
        b"1a",
        b"a-b",
        b"a b",
        b"\xc3\xa4",
        b"abcdefghijklmnopqrstuvwxyz0123456",
    ];
    for bytes in bad {
        assert!(rt; named(bytes).is_none());
    }
}

#[test]
fn instructions_by_name(rt: HostRuntime) {
    let rows: [(&[u8], OpKind, u8, u8); 34] = [
        (b"push", OpKind::Push, 0, 1),
        (b"dup", OpKind::Dup, 1, 2),
        (b"drop", OpKind::Drop, 1, 0),
        (b"swap", OpKind::Swap, 2, 2),
        (b"over", OpKind::Over, 2, 3),
        (b"add", OpKind::Add, 2, 1),
        (b"sub", OpKind::Sub, 2, 1),
        (b"mul", OpKind::Mul, 2, 1),
        (b"div", OpKind::Div, 2, 1),
        (b"rem", OpKind::Rem, 2, 1),
        (b"and", OpKind::And, 2, 1),
        (b"or", OpKind::Or, 2, 1),
        (b"xor", OpKind::Xor, 2, 1),
        (b"shl", OpKind::Shl, 2, 1),
        (b"shr", OpKind::Shr, 2, 1),
        (b"eq", OpKind::Eq, 2, 1),
        (b"lt", OpKind::Lt, 2, 1),
        (b"not", OpKind::Not, 1, 1),
        (b"get", OpKind::Get, 0, 1),
        (b"set", OpKind::Set, 1, 0),
        (b"jump", OpKind::Jump, 0, 0),
        (b"jz", OpKind::Jz, 1, 0),
        (b"jnz", OpKind::Jnz, 1, 0),
        (b"read", OpKind::Read, 0, 1),
        (b"write", OpKind::Write, 1, 0),
        (b"readat", OpKind::ReadAt, 1, 1),
        (b"writeat", OpKind::WriteAt, 2, 0),
        (b"xchg", OpKind::Xchg, 1, 1),
        (b"addto", OpKind::AddTo, 1, 1),
        (b"cas", OpKind::Cas, 2, 1),
        (b"enter", OpKind::Enter, 0, 0),
        (b"exit", OpKind::Exit, 0, 0),
        (b"print", OpKind::Print, 1, 0),
        (b"halt", OpKind::Halt, 0, 0),
    ];
    for (word, kind, pops, pushes) in rows {
        assert!(rt; op_named(word) == Some(kind));
        assert!(rt; name_of(kind).as_bytes() == word);
        assert!(rt; effect(kind) == (pops, pushes));
    }
    let wrong: [&[u8]; 6] = [b"", b"Halt", b"pus", b"readat ", b"jnzz", b"call"];
    for word in wrong {
        assert!(rt; op_named(word).is_none());
    }
}

#[test]
fn kinds_of_instructions(rt: HostRuntime) {
    let rows: [(Op, OpKind, Operand); 9] = [
        (Op::Push(7), OpKind::Push, Operand::Number(7)),
        (Op::Xor, OpKind::Xor, Operand::Nothing),
        (Op::Get(15), OpKind::Get, Operand::Local(15)),
        (Op::Jnz(2), OpKind::Jnz, Operand::Label(2)),
        (Op::Write(3), OpKind::Write, Operand::Variable(3)),
        (Op::ReadAt(1), OpKind::ReadAt, Operand::Array(1)),
        (Op::Xchg(4), OpKind::Xchg, Operand::Variable(4)),
        (Op::Cas(5), OpKind::Cas, Operand::Variable(5)),
        (Op::Exit(0), OpKind::Exit, Operand::Monitor(0)),
    ];
    for (op, kind, operand) in rows {
        assert!(rt; kind_of(op) == kind);
        assert!(rt; operand_of(op) == operand);
    }
    assert!(rt; op_with(OpKind::Push, u64::MAX) == Op::Push(u64::MAX));
    assert!(rt; op_with(OpKind::Set, 15) == Op::Set(15));
    assert!(rt; op_with(OpKind::AddTo, 255) == Op::AddTo(255));
    assert!(rt; op_with(OpKind::Halt, 0) == Op::Halt);
}

#[test]
fn what_updates_store(rt: HostRuntime) {
    let compare = Change::IfEqual {
        expected: 3,
        new: 9,
    };
    let rows = [
        (Change::Store(7), 3, 7),
        (Change::Plus(2), 3, 5),
        (Change::Plus(2), u64::MAX, 1),
        (compare, 3, 9),
        (compare, 4, 4),
    ];
    for (change, old, stored) in rows {
        assert_eq!(rt; change.applied(old), stored);
    }
}

#[test]
fn the_stack_gives_the_last_word_first(rt: HostRuntime) {
    let mut stack: Stack<3> = Stack::new();
    assert!(rt; stack.is_empty());
    stack.push(7);
    stack.push(8);
    stack.push(9);
    assert_eq!(rt; stack.len(), 3);
    assert_eq!(rt; stack.peek(2), 7);
    assert_eq!(rt; stack.pop(), 9);
    assert_eq!(rt; stack.peek(0), 8);
}

fn variable(bytes: &[u8], start: u64) -> Option<Decl>
    ensures { IfSome result (λ d. d.shape ≡ Single) }
{
    let name = Name::of(bytes)?;
    Some(Decl {
        name,
        shape: Shape::Single,
        start,
    })
}

#[test]
fn programs_are_put_together(rt: HostRuntime) -> Result<(), Fail> {
    let mut program = Program::new(rt.alloc());
    assert!(rt; program.add_cells(variable(b"x", 7).ok_or("a name")?) == Ok(0));
    assert!(rt; program.add_cells(variable(b"y", 8).ok_or("a name")?) == Ok(1));
    assert!(rt; program.add_cells(variable(b"x", 9).ok_or("a name")?) == Err(AddError::Twice));
    assert!(rt; program.add_monitor(Name::of(b"m").ok_or("a name")?) == Ok(0));
    assert!(rt; program.add_monitor(Name::of(b"y").ok_or("a name")?) == Err(AddError::Twice));
    assert!(rt; program.add_thread() == Ok(0));
    Ok(())
}
