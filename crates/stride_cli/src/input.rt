//! What commands read: a program, or a program with an order.
ghost use Rattle.std.specs.Prelude.{◌≡◌, ◌<◌, ◌≤◌, [], length, true, Err, IfOk, IfErr, IfSome, OnOk};
ghost use Rattle.std.specs.Bool.{MatchBool};
ghost use Rattle.stride_base.specs.Devices.{Rose};
ghost use Rattle.stride_cli.specs.Gives.{Refuses};
ghost use Rattle.stride_cli.specs.Inputs.{Accepts, IsInput};
ghost use Rattle.stride_cli.specs.Refusals.{of_check, of_input};
ghost use Rattle.stride_cli.specs.Settings.{Limits};
ghost use Rattle.stride_cli.specs.Words.{given};
ghost use Rattle.stride_cli.specs.declared.words.Command.TheVariants.{Follow, Sim};

use crate::refusal::Refusal;
use crate::status::{ProgramFault, Status};
use assembler::{assemble, line_of_code, read_order, split_order};
use std::alloc::Global;
use stride_base::limits::INPUT_LIMIT;
use stride_base::{InputError, List, Source, read_all};
use stride_isa::{CheckError, Checked, check};

/// The status of an input that can't be read.
pub fn unread(error: InputError) -> Status
    ensures { result ≡ of_input error }
{
    match error {
        InputError::ReadFault => Status::ReadFault,
        InputError::TooLong => Status::TooLong,
        InputError::NoMemory => Status::NoMemory,
    }
}

/// The input of a command: all that is left of the source, or nothing where the command reads none.
pub fn read_bytes<S: Source>(
    alloc: Global,
    reads: bool,
    source: &mut S,
) -> Result<List<u8>, InputError>
    ensures all { IfOk result (λ list. IfSome (S.left source.old) (λ bytes. list.items ≡ given reads bytes)) }
    ensures end { MatchBool reads (OnOk result (IfSome (S.left source.new) (λ rest. rest ≡ []))) (source.new ≡ source.old) }
    ensures within { IfOk result (λ list. length list.items ≤ INPUT_LIMIT) }
    ensures fails { IfErr result (λ _. reads ≡ true) }
    ensures read_fault { result ≡ Err InputError.ReadFault → Rose (S.faults source.old) (S.faults source.new) }
    ensures too_long { result ≡ Err InputError.TooLong → IfSome (S.left source.old) (λ bytes. INPUT_LIMIT < length (given reads bytes)) }
    ensures counted { S.faults source.old ≤ S.faults source.new }
{
    if reads {
        read_all(alloc, source, INPUT_LIMIT)
    } else {
        Ok(List::new(alloc))
    }
}

// The refusal of the program that the text spells, with the line on which its fault is.
fn refused_by_check(text: &[u8], error: CheckError) -> Refusal
    requires { length text.now ≤ INPUT_LIMIT }
    ensures { result ≡ of_check text.now error }
{
    match error {
        CheckError::Bad {
            kind,
            thread,
            instruction,
        } => Refusal::Program {
            fault: ProgramFault::Code {
                kind,
                line: line_of_code(text, thread, instruction),
                thread,
                instruction,
            },
        },
        CheckError::NoMemory => Refusal::NoMemory,
    }
}

/// The checked program that the text spells.
pub fn accept(alloc: Global, text: &[u8]) -> Result<Checked, Refusal>
    requires { length text.now ≤ INPUT_LIMIT }
    ensures { Accepts text.now result }
{
    let program = assemble(alloc, text)?;
    match check(alloc, program) {
        Ok(checked) => Ok(checked),
        Err(error) => Err(refused_by_check(text, error)),
    }
}

/// An accepted program with an order.
#[derive(Drop)]
pub struct Input {
    pub program: Checked,
    pub order: List<u8>,
}

/// The accepted program and the order of an input of `follow` or `sim`.
pub fn read_input(alloc: Global, bytes: &[u8]) -> Result<Input, Refusal>
    requires { length bytes.now ≤ INPUT_LIMIT }
    ensures input { IfOk result (λ input. IsInput bytes.now input.program input.order.items) }
    ensures follow { IfErr result (λ refusal. (limits : Limits) → Refuses limits Follow bytes.now refusal) }
    ensures sim { IfErr result (λ refusal. (limits : Limits) → Refuses limits Sim bytes.now refusal) }
{
    let split = split_order(bytes);
    let program = accept(alloc, bytes.split_at(split.program_end).0)?;
    let order = read_order(alloc, bytes.split_at(split.order_start).1, split.order_line)?;
    Ok(Input { program, order })
}
