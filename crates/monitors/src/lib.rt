//! Monitors: one thread at most holds each, turn after turn.
//!
//! Owns: what an entry tells (`Turns`). The layer above may rely on this: each call is exactly one atomic step, and a row of odd
//! looks counts how often in a row a pass found the monitor held. That the turns of a monitor are 1, 2 and so on, one after another,
//! is a law of `histories`.
#![tactic(auto)]

mod turns;

pub use turns::{leave, look, try_enter};
