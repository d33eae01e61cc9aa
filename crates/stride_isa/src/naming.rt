//! Rule one of the check: each instruction names what is there, and jumps inside its thread's code.
ghost use Rattle.std.specs.Prelude.{◌≡◌, ℕ, ◌<◌, length, true, false, IfOk, IfErr};
ghost use Rattle.stride_isa.specs.Faults.{HasNameFault};
ghost use Rattle.stride_isa.specs.Listing.{decl_at, code_of};
ghost use Rattle.stride_isa.specs.Telling.{TellsKind, TellsSpot, IsNamed, IsNamedThread, IsNamedWhole, IsNameRefusal};
ghost use Rattle.stride_isa.specs.Validity.{Names, TargetsInside, IsArray};
ghost use Rattle.stride_isa.specs.declared.decl.Shape.TheVariants.{Single};

use crate::check_error::{CheckError, CheckKind};
use crate::decl::Shape;
use crate::limits::LOCAL_COUNT;
use crate::op::{Op, operand_of};
use crate::operand::Operand;
use crate::program::Program;
use crate::spot::Spot;
use crate::successors::target_of;

// Whether a variable is declared at a position.
fn names_variable(program: &Program, decl: u32) -> bool
    ensures on { result ≡ true → (decl < length program.now.decls) × ((decl_at program.now decl).shape ≡ Single) }
    ensures off { result ≡ false → (decl < length program.now.decls) × ((decl_at program.now decl).shape ≡ Single) → ⊥ }
{
    if decl >= program.decls() {
        return false;
    }
    match program.decl(decl).shape {
        Shape::Single => true,
        Shape::Array(_) => false,
    }
}

// Whether an array is declared at a position.
fn names_array(program: &Program, decl: u32) -> bool
    ensures on { result ≡ true → (decl < length program.now.decls) × IsArray (decl_at program.now decl).shape }
    ensures off { result ≡ false → (decl < length program.now.decls) × IsArray (decl_at program.now decl).shape → ⊥ }
{
    if decl >= program.decls() {
        return false;
    }
    match program.decl(decl).shape {
        Shape::Single => false,
        Shape::Array(_) => true,
    }
}

// Whether what an instruction names is there.
fn names(program: &Program, op: Op) -> bool
    ensures on { result ≡ true → Names program.now op }
    ensures off { result ≡ false → Names program.now op → ⊥ }
{
    match operand_of(op) {
        Operand::Nothing | Operand::Number(_) | Operand::Label(_) => true,
        Operand::Local(local) => usize::from(local) < LOCAL_COUNT,
        Operand::Variable(decl) => names_variable(program, decl),
        Operand::Array(decl) => names_array(program, decl),
        Operand::Monitor(monitor) => monitor < program.monitors(),
    }
}

// Whether the position to which an instruction may jump is inside the code of its thread.
fn jumps_inside(program: &Program, thread: u32, op: Op) -> bool
    requires { thread < length program.now.threads }
    ensures on { result ≡ true → TargetsInside program.now thread op }
    ensures off { result ≡ false → TargetsInside program.now thread op → ⊥ }
{
    match target_of(op) {
        Some(target) => target < program.code_len(thread),
        None => true,
    }
}

// The fault of one instruction by itself.
fn misnaming(program: &Program, thread: u32, at: u32) -> Option<CheckKind>
    requires thread { thread < length program.now.threads }
    requires inside { at < length (code_of program.now thread) }
    ensures { TellsKind (HasNameFault program.now thread at) (IsNamed program.now thread at) result }
{
    let op = program.op(thread, at);
    if !jumps_inside(program, thread, op) {
        return Some(CheckKind::BadTarget);
    }
    if !names(program, op) {
        return Some(CheckKind::BadName);
    }
    None
}

// The first such fault of a thread.
fn first_misnaming(program: &Program, thread: u32) -> Option<Spot>
    requires { thread < length program.now.threads }
    ensures { TellsSpot (HasNameFault program.now thread) (IsNamedThread program.now thread) result }
{
    for at in 0..program.code_len(thread) {
        if let Some(kind) = misnaming(program, thread, at) {
            return Some(Spot { at, kind });
        }
    }
    None
}

/// Refuses a program for the first instruction whose names are wrong or that jumps outside its thread's code.
pub(crate) fn check_names(program: &Program) -> Result<(), CheckError>
    ensures named { IfOk result (λ _. IsNamedWhole program.now) }
    ensures refused { IfErr result (IsNameRefusal program.now) }
{
    for thread in 0..program.threads() {
        if let Some(spot) = first_misnaming(program, thread) {
            return Err(spot.refusal(thread));
        }
    }
    Ok(())
}
