//! `assemble`: the program that a text spells.
ghost use Rattle.std.specs.Prelude.{◌≡◌, ◌≤◌, length, OnOk};
ghost use Rattle.assembler.specs.Answers.{IsAnswer};
ghost use Rattle.assembler.specs.Forms.{form_of};
ghost use Rattle.assembler.specs.Programs.{added, forms_in, refusal, spelled};
ghost use Rattle.assembler.specs.Refusals.{Refuses};
ghost use Rattle.assembler.specs.Seen.{labels_seen, labels_behind, IsInStep};
ghost use Rattle.assembler.specs.Words.{words_of};

use crate::asm_error::AsmError;
use crate::assembly::Assembly;
use crate::line::line_at;
use crate::lines::take_line;
use crate::refusal::Refusal;
use crate::thread_labels::ThreadLabels;
use std::alloc::Global;
use stride_base::limits::INPUT_LIMIT;
use stride_isa::Program;

// Reads a line, after which the text goes on with `after`.
fn read_line<'a>(
    alloc: Global,
    assembly: &mut Assembly<'a>,
    labels: &mut ThreadLabels<'a>,
    bytes: &'a [u8],
    after: &'a [u8],
) -> Result<(), Refusal>
    requires step { IsInStep assembly.old }
    requires short { length after.now ≤ INPUT_LIMIT }
    ensures refused { Refuses (refusal (labels_seen labels.old) assembly.old.program (form_of (words_of bytes.now))) result }
    ensures added { OnOk result (assembly.new.program ≡ added (labels_seen labels.old) assembly.old.program (form_of (words_of bytes.now))) }
    ensures labels { OnOk result (labels_seen labels.new ≡ labels_behind (labels_seen labels.old) (form_of (words_of bytes.now)) (forms_in after.now)) }
    ensures step { OnOk result (IsInStep assembly.new) }
{
    let line = line_at(bytes);
    assembly.add(line, labels)?;
    labels.pass(alloc, line, after)?;
    Ok(())
}

/// The program that the text spells, or the first line that is refused.
pub fn assemble(alloc: Global, text: &[u8]) -> Result<Program, AsmError>
    requires { length text.now ≤ INPUT_LIMIT }
    ensures { IsAnswer (λ program. program) result (spelled text.now) }
{
    let Ok(mut labels) = ThreadLabels::of(alloc, text) else {
        return Err(AsmError::NoMemory);
    };
    let mut assembly = Assembly::new(alloc);
    let mut rest = text;
    let mut number = 1;
    while let Some((bytes, after)) = take_line(rest) {
        if let Err(refusal) = read_line(alloc, &mut assembly, &mut labels, bytes, after) {
            return Err(refusal.at(number));
        }
        rest = after;
        number += 1;
    }
    Ok(assembly.into_program())
}
