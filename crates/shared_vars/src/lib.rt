//! Reading, writing and updating shared variables.
//!
//! Owns: reads, writes and updates as rows of atomic steps (`Accessing`). The layer above may rely on this: a read takes no lock
//! and claims nothing, and answers a value with a bound; each access is then the last event of the pass; and each call is exactly
//! the steps that its contract names. That writes and updates of a cell have the numbers 1, 2 and so on is a law of `histories`.
#![tactic(auto)]

mod accesses;
mod steps;

pub use accesses::{read, update, write};
pub use steps::{complete, fetch, load_number, load_value, store_value};
