//! The run of a schedule on one thread.
//!
//! Owns: what a replay is (`Replays`), and, inside, the table on which a schedule is played, a thread's turns in a row at a time
//! (`Tables`).
//! The layer above may rely on this: `replay` gives the run of the sequentially consistent machine by a schedule (its
//! transcript, what each thread printed, how it ended, and the last values of the cells), or names the first member of the list
//! that can take no turn.
#![tactic(auto)]

mod player;
mod playing;
mod replay_error;
mod replaying;
mod results;
mod starting;
mod table;

pub use replay_error::ReplayError;
pub use replaying::replay;
pub use results::Replay;

#[cfg(test)]
mod tests;
