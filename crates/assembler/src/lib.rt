//! Programs and orders, read from their text and printed.
//!
//! Owns: what a text spells, from its lines and words (`Lines`, `Words`, `Numbers`) over what a line says by itself
//! (`Forms`) and the labels of its thread (`Labels`) to a program or the first fault (`Programs`); orders (`Orders`),
//! the split of an input (`Splits`), the lines on which instructions stand (`CodeLines`), and the canonical text
//! (`Canonical`).
//! The layer above may rely on this: `assemble` gives the program that the text spells, or the least refused line with
//! the first of its kinds.
#![tactic(auto)]

mod asm_error;
mod assembling;
mod assembly;
mod code_lines;
mod keyword;
mod laws;
mod line;
mod lines;
mod names;
mod numbers;
mod operands;
mod order_split;
mod orders;
mod printing;
mod refusal;
mod splitting;
mod targets;
mod thread_labels;
mod words;

pub use asm_error::{AsmError, AsmKind};
pub use assembling::assemble;
pub use code_lines::line_of_code;
pub use laws::{canonical_is_read_back, code_has_lines, split_is_parts};
pub use order_split::OrderSplit;
pub use orders::read_order;
pub use printing::print_program;
pub use splitting::split_order;

#[cfg(test)]
mod order_tests;
#[cfg(test)]
mod tests;
