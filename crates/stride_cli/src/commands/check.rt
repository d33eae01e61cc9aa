//! `check`: a program in its canonical text.
ghost use Rattle.std.specs.Prelude.{◌≤◌, length};
ghost use Rattle.stride_cli.specs.Answers.{AnswersCanonical, AnswersText};
ghost use Rattle.stride_cli.specs.Gives.{GivesBy};

use crate::input::accept;
use crate::refusal::Refusal;
use assembler::print_program;
use std::alloc::Global;
use stride_base::List;
use stride_base::limits::INPUT_LIMIT;

/// The canonical text of the program that the bytes spell.
pub fn check_text(alloc: Global, bytes: &[u8]) -> Result<List<u8>, Refusal>
    requires { length bytes.now ≤ INPUT_LIMIT }
    ensures { GivesBy result (AnswersText bytes.now AnswersCanonical) }
{
    let program = accept(alloc, bytes)?;
    Ok(print_program(alloc, &program)?)
}
