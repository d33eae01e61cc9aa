//! Running a thread again from its log.
//!
//! Owns: what contracts see of threads that were run again (`Rerunning`). What following is stands in `interleavings`.
//! The layer above may rely on this: `rerun` gives what following every thread gives, or where the least thread diverges
//! from its log.
#![tactic(auto)]

mod follower;
mod meeting;
mod outcome;
mod rerun_error;
mod rerunning;
mod thread_following;

pub use outcome::Rerun;
pub use rerun_error::RerunError;
pub use rerunning::rerun;
