//! Instructions, programs and the check of a program.
//!
//! Owns: the table of instructions (`Instructions`), programs as contracts see them (`Listing`), validity as the least set
//! of reachable pairs of position and depth (`Validity`), the first fault of a program (`Faults`), and the operand stack.
//! The layer above may rely on this: a `Checked` program is valid, so no run of it meets a missing operand, a full
//! stack, a position outside its code or a name that is not declared; and a program is refused for its first fault, of
//! which there is one (`Laws`).
#![tactic(auto)]

mod change;
mod check_error;
mod checking;
mod decl;
mod depths;
mod laws;
pub mod limits;
mod looking;
mod name;
mod naming;
mod op;
mod operand;
mod pair;
mod program;
mod reaching;
mod spot;
mod stack;
mod straying;
mod successors;

pub use change::Change;
pub use check_error::{CheckError, CheckKind};
pub use checking::{Checked, check};
pub use decl::{Decl, Shape};
pub use laws::{
    each_cell_starts, faultless_is_valid, one_first_fault, one_verdict, some_verdict,
    valid_has_no_fault,
};
pub use name::Name;
pub use op::{
    Op, OpKind, class_of, effect, goes_on, kind_of, name_of, op_named, op_with, operand_of,
};
pub use operand::{Operand, OperandClass};
pub use program::{AddError, Program};
pub use stack::Stack;
pub use successors::target_of;

#[cfg(test)]
mod check_tests;
#[cfg(test)]
mod plain_check;
#[cfg(test)]
mod tests;
