//! Texts that `assemble` and the plain reader judge alike.

use crate::plain_reader::first_refusal;
use assembler::{AsmError, AsmKind, assemble};
use std::alloc::{AllocError, Global};
use std::fmt::Write;
use std::process::Abort;
use std::test::Fail;
use stride_base::limits::INPUT_LIMIT;
use stride_isa::OperandClass;

/// The refusal of a text by `assemble`, or `None` where it is read.
fn told(rt: &impl Abort, alloc: Global, text: &[u8]) -> Result<Option<(AsmKind, u32)>, Fail> {
    assert!(rt; text.len() <= INPUT_LIMIT);
    match assemble(alloc, text) {
        Ok(_) => Ok(None),
        Err(AsmError::Bad { kind, line }) => Ok(Some((kind, line))),
        Err(AsmError::NoMemory) => Err("memory ran out")?,
    }
}

/// Judges a text in both ways, and tells what is wrong with it, if anything is.
fn judge_alike(rt: &impl Abort, alloc: Global, text: &[u8]) -> Result<Option<AsmKind>, Fail> {
    let refusal = told(rt, alloc, text)?;
    assert_eq!(rt; refusal, first_refusal(alloc, text)?, "{text:?}");
    Ok(refusal.map(|(kind, _)| kind))
}

/// A text with a line of each form.
const WHOLE: &[u8] =
    b"var x 1\nvar y\narray a 3 7\narray b 2\nmonitor m\nmonitor n\n# threads\nthread\nstart:\npush 2\nset 15\nread x\njz end\nget 15\nwriteat a\njump start\nend:\nenter m\nexit m\nhalt\n\nthread\nend:\nreadat b\nprint\njnz end\nwrite y\nenter n\naddto y\nhalt\n";

/// Words that stand where others should, each in place of each word of the whole text.
const WORDS: [&[u8]; 22] = [
    b"",
    b"# x",
    b"x",
    b"a",
    b"m",
    b"end",
    b"nowhere",
    b"x:",
    b"end:",
    b"0",
    b"1",
    b"15",
    b"16",
    b"256",
    b"257",
    b"018446744073709551615",
    b"18446744073709551616",
    b"var",
    b"thread",
    b"halt",
    b"push 1\njump",
    b"a-b",
];

const TEXTS: [&[u8]; 30] = [
    b"",
    b"\n",
    b"#\xff\n\xff",
    b"var x\r\nthread\r\n\tread\tx\r\n",
    b"\x0bvar x\n",
    b"var x#y\nvar x\n",
    b"var x 00000000000000000000000000000001\n",
    b"var a2345678901234567890123456789012\n",
    b"var a23456789012345678901234567890123\n",
    b"var _\nvar __\nvar A\nvar a\n",
    b"array a 255\nvar x\nvar y\n",
    b"array a 256\nvar a\n",
    b"array a 256\narray b 256 x\n",
    b"var x\narray x 0\n",
    b"thread\nvar x 1a\n",
    b"thread\njump nowhere\nvar x\n",
    b"thread\njump later\nbad line\nlater:\n",
    b"thread\njump later\nthread x\nlater:\n",
    b"thread\njump later\nthread\nlater:\n",
    b"thread\njump later\nlater:\nlater:\n",
    b"thread\nlater:\njump later\nthread\njump later\n",
    b"thread\nx:\nx:\nthread\ny:\n",
    b"push 18446744073709551616\n",
    b"thread\npush 18446744073709551616\n",
    b"thread\nget 16\nset 16\n",
    b"var read\nthread\nread read\nread:\njump read\n",
    b"monitor m\nthread\nread m\n",
    b"var m\nthread\nenter m\n",
    b"var thread\nthread\nvar thread\n",
    b"order\n",
];

#[test]
fn texts_are_judged_alike(rt: HostRuntime) -> Result<(), Fail> {
    judge_alike(&rt, rt.alloc(), WHOLE)?;
    for text in TEXTS {
        judge_alike(&rt, rt.alloc(), text)?;
    }
    Ok(())
}

/// A line in place of which another stands.
#[derive(Clone, Copy)]
enum Change {
    Left,
    Doubled,
    /// After the next.
    Later,
}

fn push_line(text: &mut Vec<u8>, line: &[u8]) -> Result<(), AllocError> {
    text.extend_from_slice(line)?;
    text.push(b'\n')?;
    Ok(())
}

/// The text with one line changed.
fn changed(
    alloc: Global,
    text: &[u8],
    place: usize,
    change: Change,
) -> Result<Vec<u8>, AllocError> {
    let mut made = Vec::new(alloc);
    let mut late: Option<&[u8]> = None;
    for (at, line) in text.split(|byte| *byte == b'\n').enumerate() {
        if at != place {
            push_line(&mut made, line)?;
            if let Some(line) = late {
                push_line(&mut made, line)?;
                late = None;
            }
            continue;
        }
        match change {
            Change::Left => {}
            Change::Doubled => {
                push_line(&mut made, line)?;
                push_line(&mut made, line)?;
            }
            Change::Later => late = Some(line),
        }
    }
    Ok(made)
}

/// The text with another word in place of one; words are counted over the whole text.
fn with_word(
    alloc: Global,
    text: &[u8],
    place: usize,
    other: &[u8],
) -> Result<Vec<u8>, AllocError> {
    let mut made = Vec::new(alloc);
    let mut at = 0usize;
    for line in text.split(|byte| *byte == b'\n') {
        for word in line.split(|byte| *byte == b' ') {
            made.extend_from_slice(if at == place { other } else { word })?;
            made.push(b' ')?;
            at = at.saturating_add(1);
        }
        made.push(b'\n')?;
    }
    Ok(made)
}

#[test]
fn changed_lines_are_judged_alike(rt: HostRuntime) -> Result<(), Fail> {
    let alloc = rt.alloc();
    for place in 0..30 {
        for change in [Change::Left, Change::Doubled, Change::Later] {
            let text = changed(alloc, WHOLE, place, change)?;
            judge_alike(&rt, alloc, &text)?;
        }
    }
    Ok(())
}

fn unknown(wanted: OperandClass) -> AsmKind {
    AsmKind::UnknownName { wanted }
}

#[test]
fn changed_words_are_judged_alike(rt: HostRuntime) -> Result<(), Fail> {
    let alloc = rt.alloc();
    let mut met = Vec::new(alloc);
    for place in 0..60 {
        for word in WORDS {
            let text = with_word(alloc, WHOLE, place, word)?;
            met.push(judge_alike(&rt, alloc, &text)?)?;
        }
    }
    for kind in [
        AsmKind::BadLine,
        AsmKind::BadNumber,
        unknown(OperandClass::Label),
        unknown(OperandClass::Variable),
        unknown(OperandClass::Array),
        unknown(OperandClass::Monitor),
        AsmKind::Twice,
        AsmKind::TooMany,
    ] {
        assert!(rt; met.contains(&Some(kind)), "{kind:?}");
    }
    assert!(rt; met.contains(&None));
    Ok(())
}

/// This many lines that begin so, each with a name of its own.
fn numbered(alloc: Global, front: &str, count: u32, end: &str) -> Result<String, AllocError> {
    let mut text = String::new(alloc);
    for at in 0..count {
        writeln!(text, "{front} v{at}")?;
    }
    writeln!(text, "{end}")?;
    Ok(text)
}

fn repeated(alloc: Global, line: &str, count: u32, end: &str) -> Result<String, AllocError> {
    let mut text = String::new(alloc);
    for _ in 0..count {
        writeln!(text, "{line}")?;
    }
    writeln!(text, "{end}")?;
    Ok(text)
}

#[test]
fn limits_are_judged_alike(rt: HostRuntime) -> Result<(), Fail> {
    let alloc = rt.alloc();
    let rows = [
        numbered(alloc, "var", 255, "var last")?,
        numbered(alloc, "var", 256, "var last")?,
        numbered(alloc, "var", 56, "array last 200")?,
        numbered(alloc, "var", 57, "array last 200")?,
        numbered(alloc, "monitor", 63, "monitor last")?,
        numbered(alloc, "monitor", 64, "var x\nmonitor last")?,
        repeated(alloc, "thread", 15, "thread")?,
        repeated(alloc, "thread\nhalt", 16, "halt\nthread")?,
        repeated(alloc, "thread\na:\njump a", 14, "thread\na:\njump a\na:")?,
    ];
    for text in rows {
        judge_alike(&rt, alloc, text.as_bytes())?;
    }
    Ok(())
}
