//! How threads ended.
ghost use Rattle.std.specs.Prelude.{◌≡◌, ◌+◌, ◌≤◌, ◌∷◌, [], ◌++◌, OnOk, decimal, length};
ghost use Rattle.stride_cli.specs.Reports.{end_words, ends_section, trap_word};

use crate::reports::line::Line;
use sc_machine::{End, Trap};
use stride_base::{List, NoMemory};
use stride_isa::limits::THREAD_LIMIT;

fn trap_text(trap: Trap) -> &'static [u8]
    ensures word { result.now ≡ trap_word trap }
    ensures short { length result.now ≤ 12 }
{
    match trap {
        Trap::DivZero => b"div-zero",
        Trap::Range => b"range",
        Trap::Again => b"again",
        Trap::NotHeld => b"not-held",
        Trap::HeldAtHalt => b"held-at-halt",
    }
}

/// Puts the words for an end before what is written.
fn put_end(line: &mut Line, end: End)
    requires { length line.old ≤ 1 }
    ensures text { line.new ≡ end_words end ++ line.old }
    ensures short { length line.new ≤ length line.old + 44 }
{
    match end {
        End::Halted => line.put(b"halted"),
        End::Trapped { trap, pc } => {
            line.put_number(u64::from(pc));
            line.put(b" at ");
            line.put(trap_text(trap));
            line.put(b"trapped ");
        }
        End::OutOfSteps => line.put(b"out-of-steps"),
        End::Stopped { pc } => {
            line.put_number(u64::from(pc));
            line.put(b"stopped at ");
        }
    }
}

fn put_end_line(report: &mut List<u8>, thread: u32, end: End) -> Result<(), NoMemory>
    ensures { OnOk result (report.new.items ≡ report.old.items ++ (decimal thread ++ (32 ∷ (end_words end ++ 10 ∷ [])))) }
{
    let mut line = Line::new();
    put_end(&mut line, end);
    line.put(b" ");
    line.put_number(u64::from(thread));
    report.push_all(line.text())
}

/// Appends the section of the threads' ends.
pub fn put_ends(report: &mut List<u8>, ends: &[End]) -> Result<(), NoMemory>
    requires { length ends.now ≤ THREAD_LIMIT }
    ensures { OnOk result (report.new.items ≡ report.old.items ++ ends_section ends.now) }
{
    report.push_all(b"ends\n")?;
    for (thread, end) in ends.iter().enumerate() {
        put_end_line(report, thread as u32, *end)?;
    }
    Ok(())
}
