//! The demonstration of a number: a program of several threads that count together, and an order of its threads.
//!
//! Owns: the numbers that a demonstration draws (`Draws`), the program of a demonstration (`Program`), and which program and
//! order a number has (`Demo`).
//! The layer above may rely on this: `demo_program` and `demo_order` give exactly these, and only want of memory refuses them;
//! the program is valid, and each member of the order names a thread of it (`Laws`).
#![tactic(auto)]

mod draws;
mod laws;
pub mod limits;
mod orders;
mod programs;
mod sizes;

pub use laws::{demo_orders_name_threads, demo_programs_are_valid, draws_are_powers};
pub use orders::demo_order;
pub use programs::demo_program;

#[cfg(test)]
mod tests;
