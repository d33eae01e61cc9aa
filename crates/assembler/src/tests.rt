//! What no clause says: which texts are read and which are refused, with ample memory.
use super::*;
use std::alloc::{AllocError, Global};
use std::fmt::Write;
use std::process::Abort;
use std::test::Fail;
use stride_base::limits::INPUT_LIMIT;
use stride_isa::{AddError, Name, OperandClass, check};

/// The refusal of a text, or `None` where it is read.
fn refusal(rt: &impl Abort, alloc: Global, text: &[u8]) -> Option<AsmError> {
    assert!(rt; text.len() <= INPUT_LIMIT);
    assemble(alloc, text).err()
}

fn bad(kind: AsmKind, line: u32) -> Option<AsmError> {
    Some(AsmError::Bad { kind, line })
}

fn unknown(wanted: OperandClass) -> AsmKind {
    AsmKind::UnknownName { wanted }
}

/// A piece, then another this many times, then a third.
fn repeated(
    alloc: Global,
    front: &[u8],
    piece: &[u8],
    times: usize,
    end: &[u8],
) -> Result<Vec<u8>, AllocError> {
    let mut text = Vec::new(alloc);
    text.extend_from_slice(front)?;
    for _ in 0..times {
        text.extend_from_slice(piece)?;
    }
    text.extend_from_slice(end)?;
    Ok(text)
}

/// This many lines that declare names which differ, and a last line.
fn declarations(alloc: Global, word: &str, count: usize, last: &str) -> Result<String, AllocError> {
    let mut text = String::new(alloc);
    for i in 0..count {
        writeln!(text, "{word} v{i}")?;
    }
    writeln!(text, "{last}")?;
    Ok(text)
}

#[test]
fn a_text_is_read(rt: HostRuntime) -> Result<(), Fail> {
    let text =
        b"# sum\n  var total   05\narray a 2\nmonitor m\nthread\nagain:\n  read total  # look\njnz again\nhalt";
    let mut program = assemble(rt.alloc(), text)?;
    let taken: [&[u8]; 3] = [b"total", b"a", b"m"];
    for word in taken {
        let name = Name::of(word).ok_or("a name")?;
        assert!(rt; program.add_monitor(name) == Err(AddError::Twice));
    }
    assert!(rt; program.add_monitor(Name::of(b"again").ok_or("a name")?) == Ok(1));
    assert!(rt; program.add_thread() == Ok(1));
    Ok(())
}

#[test]
fn a_program_is_printed(rt: HostRuntime) -> Result<(), Fail> {
    let text =
        b"var x 5\narray a 2 0\nmonitor m\nthread\nL0:\nenter m\npush 1\nxchg x\naddto x\npush 2\ncas x\njz L8\njump L0\nL8:\nexit m\nhalt\n";
    let program = assemble(rt.alloc(), text)?;
    let checked = check(rt.alloc(), program)?;
    assert_eq!(rt;
        print_program(rt.alloc(), &checked)?.as_slice(),
        text.as_slice()
    );
    Ok(())
}

#[test]
fn texts_that_are_read(rt: HostRuntime) {
    let rows: [(&[u8], &str); 17] = [
        (b"", "no line"),
        (b"\n\n", "lines without words"),
        (b"var x", "no last line feed"),
        (
            b"\tvar\tx\r\n\r\nthread\r\n halt \r\n",
            "tabs and carriage returns",
        ),
        (
            b"# \xff\x80 comment\nvar x#0\xfe\n#",
            "comments of any bytes",
        ),
        (
            b"# order\nvar order # order\n",
            "the line of an order in a comment",
        ),
        (
            b"var x 18446744073709551615\narray a 255 18446744073709551615\nthread\npush 18446744073709551615\nget 0\nset 015\n",
            "the largest numbers",
        ),
        (
            b"var a0123456789012345678901234567_90\n",
            "a name of 32 bytes",
        ),
        (
            b"thread\njump end\nhalt\nend:\n",
            "a label behind the last instruction",
        ),
        (
            b"thread\na:\nhalt\nthread\na:\njump a\n",
            "two labels alike in two threads",
        ),
        (
            b"thread\nhalt:\njump halt\nthread:\njz thread\n",
            "labels named like other words",
        ),
        (
            b"var a\nthread\na:\njnz a\nread a\n",
            "a label named like a variable",
        ),
        (
            b"array a 2\nthread\nread a\nwrite a\n",
            "an access to an array as a whole",
        ),
        (
            b"var x\nthread\nreadat x\nwriteat x\n",
            "an access to a variable as an array",
        ),
        (b"monitor m\nthread\nenter m\nexit m\nthread\n", "monitors"),
        (
            b"var x\narray a 2\nthread\nxchg x\naddto x # 1\ncas a\n",
            "atomic updates",
        ),
        (
            b"thread\ndup\ndrop\nswap\nover\nadd\nsub\nmul\ndiv\nrem\nand\nor\nxor\nshl\nshr\neq\nlt\nnot\nprint\nhalt\n",
            "each instruction without an operand",
        ),
    ];
    for (text, why) in rows {
        assert!(rt; refusal(&rt, rt.alloc(), text).is_none(), "{why}");
    }
}

#[test]
fn lines_that_are_refused(rt: HostRuntime) {
    let rows: [(&[u8], AsmKind, u32); 49] = [
        (b"order\n", AsmKind::BadLine, 1),
        (b"Var x\n", AsmKind::BadLine, 1),
        (b"var\n", AsmKind::BadLine, 1),
        (b"var x 0 0\n", AsmKind::BadLine, 1),
        (b"var 1x\n", AsmKind::BadLine, 1),
        (b"var x-y 1\n", AsmKind::BadLine, 1),
        (
            b"var a0123456789012345678901234567_901\n",
            AsmKind::BadLine,
            1,
        ),
        (b"array a\n", AsmKind::BadLine, 1),
        (b"array a 1 0 0\n", AsmKind::BadLine, 1),
        (b"array 2 2\n", AsmKind::BadLine, 1),
        (b"monitor\n", AsmKind::BadLine, 1),
        (b"monitor m 1\n", AsmKind::BadLine, 1),
        (b"thread x\nhalt\n", AsmKind::BadLine, 1),
        (b"halt\n", AsmKind::BadLine, 1),
        (b"a:\n", AsmKind::BadLine, 1),
        (b"jump nowhere\n", AsmKind::BadLine, 1),
        (b"thread\nvar x\n", AsmKind::BadLine, 2),
        (b"thread\narray a 0\n", AsmKind::BadLine, 2),
        (b"thread\nmonitor m\n", AsmKind::BadLine, 2),
        (b"thread\na: halt\n", AsmKind::BadLine, 2),
        (b"thread\na :\n", AsmKind::BadLine, 2),
        (b"thread\n:\n", AsmKind::BadLine, 2),
        (b"thread\n1:\n", AsmKind::BadLine, 2),
        (b"thread\nhalt 0\n", AsmKind::BadLine, 2),
        (b"thread\npush\n", AsmKind::BadLine, 2),
        (b"thread\npush 1 2\n", AsmKind::BadLine, 2),
        (b"thread\njump\n", AsmKind::BadLine, 2),
        (b"thread\nread 1\n", AsmKind::BadLine, 2),
        (b"thread\naddto\n", AsmKind::BadLine, 2),
        (b"var x\nthread\ncas x 1\n", AsmKind::BadLine, 3),
        (b"var x 18446744073709551616\n", AsmKind::BadNumber, 1),
        (b"var x +1\n", AsmKind::BadNumber, 1),
        (b"var x 1a\n", AsmKind::BadNumber, 1),
        (b"array a 0\n", AsmKind::BadNumber, 1),
        (b"array a 257\n", AsmKind::BadNumber, 1),
        (b"array a 1 x\n", AsmKind::BadNumber, 1),
        (
            b"thread\npush 18446744073709551616\n",
            AsmKind::BadNumber,
            2,
        ),
        (b"thread\nget 16\n", AsmKind::BadNumber, 2),
        (b"thread\nset x\n", AsmKind::BadNumber, 2),
        (
            b"thread\njump a\nthread\na:\n",
            unknown(OperandClass::Label),
            2,
        ),
        (
            b"monitor x\nthread\nread x\n",
            unknown(OperandClass::Variable),
            3,
        ),
        (
            b"var x\nthread\nenter x\n",
            unknown(OperandClass::Monitor),
            3,
        ),
        (b"var x\nthread\njz x\n", unknown(OperandClass::Label), 3),
        (b"thread\nxchg x\n", unknown(OperandClass::Variable), 2),
        (
            b"monitor m\nthread\ncas m\n",
            unknown(OperandClass::Variable),
            3,
        ),
        (
            b"var x\nthread\nreadat y\n",
            unknown(OperandClass::Array),
            3,
        ),
        (b"var x\narray x 1\n", AsmKind::Twice, 2),
        (b"var x\nmonitor x\n", AsmKind::Twice, 2),
        (b"thread\na:\nhalt\na: # again\n", AsmKind::Twice, 4),
    ];
    for (text, kind, line) in rows {
        assert_eq!(rt; refusal(&rt, rt.alloc(), text), bad(kind, line));
    }
}

#[test]
fn the_first_fault_is_told(rt: HostRuntime) {
    let rows: [(&[u8], AsmKind, u32); 10] = [
        // Two kinds on one line.
        (b"thread\nvar x 1a\n", AsmKind::BadLine, 2),
        (b"var x\nvar x 1a\n", AsmKind::BadNumber, 2),
        (b"var x\narray x 257\n", AsmKind::BadNumber, 2),
        (b"array a 256\nvar a\n", AsmKind::Twice, 2),
        // Kinds on two lines: the least line, whatever the order of the kinds.
        (b"var x\nvar x\norder\n", AsmKind::Twice, 2),
        (
            b"thread\njump nowhere\na:\na:\n",
            unknown(OperandClass::Label),
            2,
        ),
        (b"thread\na:\na:\njump nowhere\n", AsmKind::Twice, 3),
        (b"thread\njump end\nbad line\nend:\n", AsmKind::BadLine, 3),
        (
            b"thread\njump end\nbad line\nhalt\n",
            unknown(OperandClass::Label),
            2,
        ),
        // The line begins no thread.
        (b"thread\njump end\nthread x\nend:\n", AsmKind::BadLine, 3),
    ];
    for (text, kind, line) in rows {
        assert_eq!(rt; refusal(&rt, rt.alloc(), text), bad(kind, line));
    }
}

#[test]
fn the_line_of_an_instruction_is_found(rt: HostRuntime) {
    let text: &[u8] =
        b"var x # 1\n\nthread # 3\nread x # 4\na: # 5\n# 6\njump a # 7\nthread # 8\n\nthread\nhalt # 11";
    let rows = [
        (0, 0, 4),
        (0, 1, 7),
        // No instruction of this position, no code, no thread.
        (0, 2, 3),
        (1, 0, 8),
        (2, 0, 11),
        (3, 0, 0),
    ];
    assert!(rt; text.len() <= INPUT_LIMIT);
    for (thread, instruction, line) in rows {
        assert_eq!(rt; line_of_code(text, thread, instruction), line);
    }
}

#[test]
fn limits_of_a_text(rt: HostRuntime) -> Result<(), Fail> {
    let alloc = rt.alloc();
    let threads = repeated(alloc, b"", b"thread\nhalt\n", 16, b"")?;
    assert!(rt; refusal(&rt, rt.alloc(), &threads).is_none());
    let threads = repeated(alloc, b"", b"thread\nhalt\n", 17, b"")?;
    assert_eq!(rt;
        refusal(&rt, rt.alloc(), &threads),
        bad(AsmKind::TooMany, 33)
    );
    let pushes = repeated(alloc, b"thread\n", b"push 1\n", 65_536, b"")?;
    assert!(rt; refusal(&rt, rt.alloc(), &pushes).is_none());
    let pushes = repeated(alloc, b"thread\n", b"push 1\n", 65_536, b"a:\njump a\n")?;
    assert_eq!(rt;
        refusal(&rt, rt.alloc(), &pushes),
        bad(AsmKind::TooMany, 65_539)
    );
    let zeros = repeated(alloc, b"var x ", b"0", 300, b"18446744073709551615\n")?;
    assert!(rt; refusal(&rt, rt.alloc(), &zeros).is_none());
    let zeros = repeated(alloc, b"var x ", b"0", 300, b"18446744073709551616\n")?;
    assert_eq!(rt;
        refusal(&rt, rt.alloc(), &zeros),
        bad(AsmKind::BadNumber, 1)
    );
    Ok(())
}

#[test]
fn limits_of_declarations(rt: HostRuntime) -> Result<(), Fail> {
    let rows: [(&str, usize, &str, bool); 6] = [
        ("var", 255, "var last", true),
        ("var", 256, "var last", false),
        ("var", 55, "array a 201", true),
        ("var", 56, "array a 201", false),
        ("monitor", 63, "monitor last", true),
        ("monitor", 64, "monitor last", false),
    ];
    for (word, count, last, is_read) in rows {
        let text = declarations(rt.alloc(), word, count, last)?;
        let want = if is_read {
            None
        } else {
            bad(AsmKind::TooMany, count as u32 + 1)
        };
        assert_eq!(rt; refusal(&rt, rt.alloc(), text.as_bytes()), want);
    }
    Ok(())
}
