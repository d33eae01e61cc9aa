//! `print_program`: the canonical text of a program.
ghost use Rattle.std.specs.Prelude.{◌≡◌, ◌<◌, ◌∷◌, ◌++◌, length, IfOk, OnOk, Ok, decimal};
ghost use Rattle.std.specs.List.{flat_map};
ghost use Rattle.assembler.specs.Canonical.{canonical_limit, canonical, code_lines, decl_words, label_lines, label_name, line_of, monitor_words, op_words, operand_words, thread_lines};
ghost use Rattle.assembler.specs.Programs.{spelled};
ghost use Rattle.stride_isa.specs.Instructions.{operand};
ghost use Rattle.stride_isa.specs.Listing.{code_of, op_at};
ghost use Rattle.stride_isa.specs.Validity.{Names};

use crate::targets::targets_of;
use itoa::Buffer;
use std::alloc::Global;
use stride_base::{List, NoMemory};
use stride_isa::{Checked, Decl, Name, Op, Operand, Shape, kind_of, name_of, operand_of};

// A word after others of its line.
fn put_word(text: &mut List<u8>, word: &[u8]) -> Result<(), NoMemory>
    ensures { OnOk result (text.new.items ≡ text.old.items ++ 32 ∷ word.now) }
{
    text.push(b' ')?;
    text.push_all(word)
}

fn put_digits(text: &mut List<u8>, number: u64) -> Result<(), NoMemory>
    ensures { OnOk result (text.new.items ≡ text.old.items ++ decimal number) }
{
    let mut digits = Buffer::new();
    text.push_all(digits.format(number).as_bytes())
}

fn put_number(text: &mut List<u8>, number: u64) -> Result<(), NoMemory>
    ensures { OnOk result (text.new.items ≡ text.old.items ++ 32 ∷ decimal number) }
{
    text.push(b' ')?;
    put_digits(text, number)
}

fn put_label(text: &mut List<u8>, at: u32) -> Result<(), NoMemory>
    ensures { OnOk result (text.new.items ≡ text.old.items ++ label_name at) }
{
    text.push(b'L')?;
    put_digits(text, u64::from(at))
}

fn put_target(text: &mut List<u8>, at: u32) -> Result<(), NoMemory>
    ensures { OnOk result (text.new.items ≡ text.old.items ++ 32 ∷ label_name at) }
{
    text.push(b' ')?;
    put_label(text, at)
}

fn put_var(text: &mut List<u8>, name: &Name, start: u64) -> Result<(), NoMemory>
    ensures { OnOk result (text.new.items ≡ text.old.items ++ line_of (decl_words name.now Shape.Single start)) }
{
    text.push_all(b"var")?;
    put_word(text, name.as_slice())?;
    put_number(text, start)?;
    text.push(b'\n')
}

fn put_array(text: &mut List<u8>, name: &Name, size: u32, start: u64) -> Result<(), NoMemory>
    ensures { OnOk result (text.new.items ≡ text.old.items ++ line_of (decl_words name.now (Shape.Array size) start)) }
{
    text.push_all(b"array")?;
    put_word(text, name.as_slice())?;
    put_number(text, u64::from(size))?;
    put_number(text, start)?;
    text.push(b'\n')
}

fn put_decl(text: &mut List<u8>, decl: &Decl) -> Result<(), NoMemory>
    ensures { OnOk result (text.new.items ≡ text.old.items ++ line_of (decl_words decl.now.name decl.now.shape decl.now.start)) }
{
    match decl.shape {
        Shape::Single => put_var(text, &decl.name, decl.start),
        Shape::Array(size) => put_array(text, &decl.name, size, decl.start),
    }
}

fn put_monitor(text: &mut List<u8>, name: &Name) -> Result<(), NoMemory>
    ensures { OnOk result (text.new.items ≡ text.old.items ++ line_of (monitor_words name.now)) }
{
    text.push_all(b"monitor")?;
    put_word(text, name.as_slice())?;
    text.push(b'\n')
}

fn put_operand(text: &mut List<u8>, program: &Checked, op: Op) -> Result<(), NoMemory>
    requires { Names program.now op }
    ensures { OnOk result (text.new.items ≡ text.old.items ++ flat_map (λ word. 32 ∷ word) (operand_words program.now (operand op))) }
{
    match operand_of(op) {
        Operand::Nothing => Ok(()),
        Operand::Number(word) => put_number(text, word),
        Operand::Local(local) => put_number(text, u64::from(local)),
        Operand::Label(target) => put_target(text, target),
        Operand::Variable(decl) | Operand::Array(decl) => {
            put_word(text, program.decl(decl).name.as_slice())
        }
        Operand::Monitor(monitor) => put_word(text, program.monitor(monitor).as_slice()),
    }
}

fn put_op(text: &mut List<u8>, program: &Checked, op: Op) -> Result<(), NoMemory>
    requires { Names program.now op }
    ensures { OnOk result (text.new.items ≡ text.old.items ++ line_of (op_words program.now op)) }
{
    text.push_all(name_of(kind_of(op)).as_bytes())?;
    put_operand(text, program, op)?;
    text.push(b'\n')
}

// The line of the label at a position, if a jump leads there.
fn put_label_line(text: &mut List<u8>, targeted: bool, at: u32) -> Result<(), NoMemory>
    ensures { OnOk result (text.new.items ≡ text.old.items ++ flat_map line_of (label_lines targeted at)) }
{
    if !targeted {
        return Ok(());
    }
    put_label(text, at)?;
    text.push_all(b":\n")
}

// The instruction of a thread at a position; what it names is declared.
fn op_in(program: &Checked, thread: u32, at: u32) -> Op
    requires thread { thread < length program.now.threads }
    requires inside { at < length (code_of program.now thread) }
    ensures is { result ≡ op_at program.now thread at }
    ensures names { Names program.now result }
{
    program.facts();
    program.op(thread, at)
}

fn put_code(
    alloc: Global,
    text: &mut List<u8>,
    program: &Checked,
    thread: u32,
) -> Result<(), NoMemory>
    requires { thread < length program.now.threads }
    ensures { OnOk result (text.new.items ≡ text.old.items ++ flat_map line_of (code_lines program.now (code_of program.now thread) 0 (code_of program.now thread))) }
{
    let targets = targets_of(alloc, program, thread)?;
    for at in 0..program.code_len(thread) {
        put_label_line(text, targets[at as usize], at)?;
        put_op(text, program, op_in(program, thread, at))?;
    }
    Ok(())
}

fn put_decls(text: &mut List<u8>, program: &Checked) -> Result<(), NoMemory>
    ensures { OnOk result (text.new.items ≡ text.old.items ++ flat_map (λ d. line_of (decl_words d.name d.shape d.start)) program.now.decls) }
{
    for at in 0..program.decls() {
        put_decl(text, program.decl(at))?;
    }
    Ok(())
}

fn put_monitors(text: &mut List<u8>, program: &Checked) -> Result<(), NoMemory>
    ensures { OnOk result (text.new.items ≡ text.old.items ++ flat_map (λ name. line_of (monitor_words name)) program.now.monitors) }
{
    for at in 0..program.monitors() {
        put_monitor(text, program.monitor(at))?;
    }
    Ok(())
}

fn put_threads(alloc: Global, text: &mut List<u8>, program: &Checked) -> Result<(), NoMemory>
    ensures { OnOk result (text.new.items ≡ text.old.items ++ flat_map (λ code. flat_map line_of (thread_lines program.now code)) program.now.threads) }
{
    for thread in 0..program.threads() {
        text.push_all(b"thread\n")?;
        put_code(alloc, text, program, thread)?;
    }
    Ok(())
}

/// The canonical text of a program, which spells the same program.
pub fn print_program(alloc: Global, program: &Checked) -> Result<List<u8>, NoMemory>
    ensures canonical { IfOk result (λ text. text.items ≡ canonical program.now) }
    ensures short { IfOk result (λ text. length text.items < canonical_limit) }
    ensures read_back { IfOk result (λ text. spelled text.items ≡ Ok program.now) }
{
    program.facts();
    let mut text = List::new(alloc);
    put_decls(&mut text, program)?;
    put_monitors(&mut text, program)?;
    put_threads(alloc, &mut text, program)?;
    Ok(text)
}
