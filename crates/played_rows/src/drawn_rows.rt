//! Orders and programs drawn from a fixed sequence, which `follow` and the plain machine play alike.
ghost use Rattle.std.specs.Prelude.{◌<◌, ◌≡◌, length};

use crate::plain_machine::Played;
use crate::playing_rows::{play_alike, played_plainly};
use std::alloc::{AllocError, Global};
use std::fmt::Write;
use std::process::Abort;
use std::sync::Wait;
use std::test::Fail;
use std::thread::Threads;

// The next number of the sequence, below a limit.
fn draw(state: &mut u64, limit: u64) -> u64
    requires { 0 < limit }
    ensures { result < limit }
{
    *state = state
        .wrapping_mul(6_364_136_223_846_793_005)
        .wrapping_add(1_442_695_040_888_963_407);
    (*state >> 33) % limit
}

// Members below 3, and 3 now and then.
fn drawn_members(alloc: Global, state: &mut u64, count: u32) -> Result<Vec<u64>, AllocError> {
    let mut members = Vec::new(alloc);
    for _ in 0..count {
        let limit = if draw(state, 20) == 0 { 4 } else { 3 };
        members.push(draw(state, limit))?;
    }
    Ok(members)
}

fn order_text(alloc: Global, members: &[u64]) -> Result<String, AllocError> {
    let mut text = String::new(alloc);
    for member in members {
        write!(text, "{member} ")?;
    }
    Ok(text)
}

/// Leaves out each member that is refused.
fn leave_out_refused(
    rt: &impl Abort,
    alloc: Global,
    text: &str,
    members: &mut Vec<u64>,
) -> Result<(), Fail> {
    for _ in 0..members.len() {
        let order = order_text(alloc, members)?;
        let Played::Refused(place, _) = played_plainly(rt, alloc, text, order.as_str())? else {
            return Ok(());
        };
        let place = place as usize;
        assert!(rt; place < members.len(), "{text}");
        members.remove(place);
    }
    Ok(())
}

/// Plays a program by a drawn order, and by what is left of it without the members that are refused.
fn play_drawn_order<R: Threads + Wait + Sync + Abort>(
    rt: &R,
    alloc: Global,
    text: &str,
    state: &mut u64,
) -> Result<(), Fail> {
    let mut members = drawn_members(alloc, state, 60)?;
    let order = order_text(alloc, &members)?;
    play_alike(rt, alloc, text, order.as_str())?;
    leave_out_refused(rt, alloc, text, &mut members)?;
    let order = order_text(alloc, &members)?;
    let refused = play_alike(rt, alloc, text, order.as_str())?;
    assert!(rt; refused.is_none(), "{text}");
    Ok(())
}

/// Lines of a thread, each with how many words it takes and leaves.
const LINES: [(&str, u64, u64); 38] = [
    ("push 0", 0, 1),
    ("push 1", 0, 1),
    ("push 77", 0, 1),
    ("push 18446744073709551615", 0, 1),
    ("get 0", 0, 1),
    ("get 15", 0, 1),
    ("read x", 0, 1),
    ("read y", 0, 1),
    ("push 1\nreadat a", 0, 1),
    ("dup", 1, 2),
    ("over", 2, 3),
    ("drop", 1, 0),
    ("set 0", 1, 0),
    ("set 15", 1, 0),
    ("write x", 1, 0),
    ("write y", 1, 0),
    ("push 1\nwriteat a", 1, 0),
    ("print", 1, 0),
    ("print", 1, 0),
    ("not", 1, 1),
    ("push 3\nrem", 1, 1),
    ("readat a", 1, 1),
    ("writeat a", 2, 0),
    ("xchg x", 1, 1),
    ("addto x", 1, 1),
    ("addto y", 1, 1),
    ("push 1\npush 2\ncas x", 0, 1),
    ("cas y", 2, 1),
    ("swap", 2, 2),
    ("add", 2, 1),
    ("sub", 2, 1),
    ("mul", 2, 1),
    ("div", 2, 1),
    ("xor", 2, 1),
    ("shl", 2, 1),
    ("shr", 2, 1),
    ("eq", 2, 1),
    ("lt", 2, 1),
];

fn drawn_line(state: &mut u64) -> (&'static str, u64, u64) {
    let at = draw(state, 38) as usize;
    LINES.get(at).copied().unwrap_or(("halt", 0, 0))
}

/// An `enter` of the monitor, or an `exit` where the thread holds it; now and then the other one, which is a trap.
fn push_turn(
    text: &mut String,
    state: &mut u64,
    name: &str,
    held: &mut bool,
) -> Result<(), AllocError> {
    let is_astray = draw(state, 16) == 0;
    if *held != is_astray {
        writeln!(text, "exit {name}")?;
        *held = false;
    } else {
        writeln!(text, "enter {name}")?;
        *held = true;
    }
    Ok(())
}

/// A line that the depth of the stack allows, or no line; the new depth. Where the stack has one word, the thread may go
/// back to its start.
fn push_drawn_line(text: &mut String, state: &mut u64, depth: u64) -> Result<u64, AllocError> {
    let (line, takes, leaves) = drawn_line(state);
    if depth == 1 && draw(state, 24) == 0 {
        text.push_str("jnz again\n")?;
        return Ok(0);
    }
    if takes > depth {
        return Ok(depth);
    }
    writeln!(text, "{line}")?;
    Ok(depth.saturating_sub(takes).saturating_add(leaves))
}

fn push_thread(text: &mut String, state: &mut u64) -> Result<(), AllocError> {
    text.push_str("thread\nagain:\n")?;
    let mut depth = 0u64;
    let mut holds_m = false;
    let mut holds_n = false;
    for _ in 0..20 {
        match draw(state, 10) {
            0 => push_turn(text, state, "m", &mut holds_m)?,
            1 => push_turn(text, state, "n", &mut holds_n)?,
            _ => depth = push_drawn_line(text, state, depth)?,
        }
    }
    if holds_m {
        push_turn(text, state, "m", &mut holds_m)?;
    }
    if holds_n {
        push_turn(text, state, "n", &mut holds_n)?;
    }
    text.push_str("halt\n")
}

fn drawn_program(alloc: Global, state: &mut u64) -> Result<String, AllocError> {
    let mut text = String::from_str(alloc, "var x\narray a 2 5\nvar y 1\nmonitor m\nmonitor n\n")?;
    for _ in 0..3 {
        push_thread(&mut text, state)?;
    }
    Ok(text)
}

#[test]
fn drawn_programs_by_drawn_orders(rt: HostRuntime) -> Result<(), Fail> {
    let mut state = 2;
    for _ in 0..50 {
        let text = drawn_program(rt.alloc(), &mut state)?;
        play_drawn_order(&rt, rt.alloc(), text.as_str(), &mut state)?;
    }
    Ok(())
}
