//! `line_of_code`: on which line of a text an instruction of a program stands.
ghost use Rattle.std.specs.Prelude.{◌≡◌, ◌+◌, ◌≤◌, length, IfSome, IfNone};
ghost use Rattle.std.specs.List.{slice_index_or};
ghost use Rattle.assembler.specs.CodeLines.{ahead, code_line, nowhere, thread_places};
ghost use Rattle.assembler.specs.Programs.{forms_in};

use crate::line::{is_instruction, is_thread, line_at};
use crate::lines::take_line;
use stride_base::limits::INPUT_LIMIT;

// The number of the line `thread` of a thread, and the text after it.
#[tactic(auto, using(crate::proofs::CodeLineLemmas::thread_steps))]
fn find_thread(text: &[u8], thread: u32) -> Option<(u32, &[u8])>
    requires { length text.now ≤ INPUT_LIMIT }
    ensures found { IfSome result (λ found. slice_index_or (thread_places text.now) thread nowhere
        ≡ record { begins = found.0; code = (ahead (found.0 + 1) (forms_in found.1.now)).code }) }
    ensures small { IfSome result (λ found. found.0 + length found.1.now ≤ INPUT_LIMIT) }
    ensures none { IfNone result (slice_index_or (thread_places text.now) thread nowhere ≡ nowhere) }
{
    let mut left = thread;
    let mut number = 1;
    let mut rest = text;
    while let Some((bytes, after)) = take_line(rest) {
        if is_thread(line_at(bytes)) {
            if left == 0 {
                return Some((number, after));
            }
            left -= 1;
        }
        number += 1;
        rest = after;
    }
    None
}

// The number of the line of an instruction of the thread that begins on a line, after which this text stands.
#[tactic(auto, using(crate::proofs::CodeLineLemmas::code_steps))]
fn line_in_thread(begins: u32, text: &[u8], instruction: u32) -> u32
    requires { begins + length text.now ≤ INPUT_LIMIT }
    ensures { result ≡ slice_index_or (ahead (begins + 1) (forms_in text.now)).code instruction begins }
{
    let mut left = instruction;
    let mut number = begins + 1;
    let mut rest = text;
    while let Some((bytes, after)) = take_line(rest) {
        let line = line_at(bytes);
        if is_thread(line) {
            return begins;
        }
        if is_instruction(line) {
            if left == 0 {
                return number;
            }
            left -= 1;
        }
        number += 1;
        rest = after;
    }
    begins
}

/// The number of the line on which an instruction of a thread stands, counted from 1; that of the line `thread` where the
/// thread has no such instruction, and 0 where there is no such thread.
pub fn line_of_code(text: &[u8], thread: u32, instruction: u32) -> u32
    requires { length text.now ≤ INPUT_LIMIT }
    ensures { result ≡ code_line text.now thread instruction }
{
    match find_thread(text, thread) {
        Some((begins, after)) => line_in_thread(begins, after, instruction),
        None => 0,
    }
}
