//! Programs that `follow` and the plain machine play alike.

use crate::following::followed;
use crate::plain_machine::{Played, play};
use assembler::{assemble, read_order};
use std::alloc::{AllocError, Global};
use std::fmt::Write;
use std::process::Abort;
use std::sync::Wait;
use std::test::Fail;
use std::thread::Threads;
use stride_base::limits::INPUT_LIMIT;
use stride_isa::check;

/// How many instructions a thread of `follow` may make.
const FUEL: u32 = 100_000;

pub(crate) fn played_plainly(
    rt: &impl Abort,
    alloc: Global,
    text: &str,
    order: &str,
) -> Result<Played, Fail> {
    assert!(rt; text.len() <= INPUT_LIMIT && order.len() <= INPUT_LIMIT);
    let program = check(alloc, assemble(alloc, text.as_bytes())?)?;
    let order = read_order(alloc, order.as_bytes(), 1)?;
    Ok(play(alloc, &program, order.as_slice(), FUEL)?)
}

/// Plays a program by an order in both ways, and tells the refused place, if there is one.
pub(crate) fn play_alike<R: Threads + Wait + Sync + Abort>(
    rt: &R,
    alloc: Global,
    text: &str,
    order: &str,
) -> Result<Option<u32>, Fail> {
    let input = format!(in alloc; "{text}\norder\n{order}")?;
    let played = followed(rt, alloc, input.as_bytes())?;
    assert_eq!(rt; played, played_plainly(rt, alloc, text, order)?, "{input}");
    match played {
        Played::Report(_) => Ok(None),
        Played::Refused(place, _) => Ok(Some(place)),
    }
}

const OPERANDS: [u64; 8] = [
    0,
    1,
    2,
    63,
    64,
    65,
    9_223_372_036_854_775_808,
    18_446_744_073_709_551_615,
];

/// Instructions that make one word of two.
const OF_TWO: [&str; 12] = [
    "add", "sub", "mul", "div", "rem", "and", "or", "xor", "shl", "shr", "eq", "lt",
];

/// A thread for each instruction that makes one word of two, and three for the other instructions of the stack, the
/// locals and the jumps.
fn computing(alloc: Global, left: u64, right: u64) -> Result<String, AllocError> {
    let mut text = String::new(alloc);
    for op in OF_TWO {
        writeln!(text, "thread\npush {left}\npush {right}\n{op}\nprint\nhalt")?;
    }
    writeln!(
        text,
        "thread\npush {left}\npush {right}\nover\nswap\ndup\nprint\nprint\nprint\nnot\nprint\nhalt"
    )?;
    writeln!(
        text,
        "thread\npush {left}\nset 0\npush {right}\nset 15\nget 15\nprint\nget 0\nprint\nget 7\nprint\npush {left}\ndrop\nhalt"
    )?;
    writeln!(
        text,
        "thread\npush {left}\njz end\npush {right}\nprint\npush {right}\njnz end\npush 7\nprint\njump over\nend:\npush 8\nprint\nover:\nhalt"
    )?;
    Ok(text)
}

#[test]
fn instructions_are_played_alike(rt: HostRuntime) -> Result<(), Fail> {
    for left in OPERANDS {
        for right in OPERANDS {
            let text = computing(rt.alloc(), left, right)?;
            play_alike(&rt, rt.alloc(), text.as_str(), "")?;
        }
    }
    Ok(())
}

const ROW: &str =
    "array a 3 9\nvar x 4\narray b 2 5\nthread\npush 6\npush 2\nwriteat a\npush 2\nreadat a\nprint\npush 1\nreadat a\nprint\nread x\nprint\npush 0\nreadat b\nprint\npush 3\nreadat a\nhalt\nthread\npush 8\nwrite x\npush 18446744073709551615\npush 2\nwriteat b\nhalt\n";

const TRAPS: &str =
    "array a 2\nmonitor m\nmonitor n\nthread\npush 2\nreadat a\nprint\nhalt\nthread\nenter m\nenter m\nhalt\nthread\nexit m\nhalt\nthread\nenter n\nhalt\nthread\npush 1\npush 0\nrem\nhalt\nthread\nenter n\nexit n\nexit n\nhalt\nthread\nenter m\nhalt\n";

/// Updates of one variable by two threads, each of which prints what it met.
const UPDATES: &str =
    "var x 5\nvar y\nthread\npush 5\npush 9\ncas x\nprint\npush 18446744073709551615\naddto x\nprint\nhalt\nthread\npush 7\nxchg x\nprint\npush 5\npush 6\ncas x\nprint\nread x\nxchg y\nprint\nread y\nprint\nhalt\n";

/// A turn and two local instructions a round.
const ROUNDS: &str = "var x\nthread\nagain:\nread x\ndrop\njump again\nthread\nhalt\n";

/// A monitor in each round, which a thread keeps where its steps run out in between.
const GUARDED_ROUNDS: &str =
    "monitor m\nthread\nagain:\nenter m\nexit m\njump again\nthread\nenter m\npush 3\nprint\nexit m\nhalt\n";

#[test]
fn traps_and_last_steps_are_played_alike(rt: HostRuntime) -> Result<(), Fail> {
    let rows = [
        (ROW, "0*5"),
        (ROW, "1 0*5"),
        (ROW, "0*3 1 0*2"),
        (ROW, "0*6"),
        (ROW, "1*2"),
        (TRAPS, ""),
        (TRAPS, "1 3"),
        (TRAPS, "5 1 5 3"),
        (TRAPS, "3 5"),
        (TRAPS, "1 6"),
        (TRAPS, "0"),
        (TRAPS, "7"),
        (UPDATES, ""),
        (UPDATES, "0*2 1*5"),
        (UPDATES, "1*5 0*2"),
        (UPDATES, "1 0*2 1*4"),
        (UPDATES, "0 1*2 0 1*3"),
        (UPDATES, "0*3"),
        ("", ""),
        ("", "0"),
        ("thread\nagain:\njump again\n", ""),
        ("thread\nagain:\njump again\n", "0"),
        ("thread\nagain:\npush 5\nprint\njump again\n", ""),
        (ROUNDS, "0*33333"),
        (ROUNDS, "0*33334"),
        (ROUNDS, "0*33335"),
        (ROUNDS, "1"),
        (GUARDED_ROUNDS, "0*66666"),
        (GUARDED_ROUNDS, "0*66666 1*2"),
        (GUARDED_ROUNDS, "0*66667"),
        (GUARDED_ROUNDS, "0*66667 1"),
        (GUARDED_ROUNDS, "0 1"),
        (GUARDED_ROUNDS, "0*2 1 0"),
    ];
    for (text, order) in rows {
        play_alike(&rt, rt.alloc(), text, order)?;
    }
    Ok(())
}
