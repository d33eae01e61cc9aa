//! Recording one atomic step at a time.
//!
//! Owns: events and log entries (`Events`), the eleven kinds of atomic steps (`AtomicStep`), histories of such steps
//! (`History`), what a recording is (`Recording`), the recording that an order gives (`Driving`), going from event to event
//! (`Walking`), what running a thread again by its log comes to (`Following`), and the laws of these (`Laws`): the recording
//! of an order is one of a history, and following its logs gives its events, its outputs and its ends.
//! The layer above may rely on this: `drive` gives exactly that recording, and an event of `Traces` is seen by `at` alone.
#![tactic(auto)]

mod activity;
mod core_state;
mod driven;
mod driven_thread;
mod event;
mod event_row;
mod kind;
mod laws;
mod layout;
mod limits;
mod rest;
mod results;
mod simulation;
mod simulation_start;
mod step_choice;
mod step_effects;
mod step_words;
mod traces;

pub use activity::{Activity, HeldTurn, LastStep, OddLooks, Phase, SeenNumber, Tally};
pub use driven::{DriveError, Driven, drive};
pub use event::{Event, LogEntry, entry_of};
pub use kind::Kind;
pub use laws::{
    driven_gives_up, driven_is_a_history, driven_is_a_recording, driven_is_followed,
    driven_is_short, event_makes_more, exits_end_enters, followed_uses_its_log, followed_walks,
    nothing_is_left, walks_are_followed, walks_go_on, walks_stand,
};
pub use limits::PATIENCE_LIMIT;
pub use traces::{Place, Traces};

#[cfg(test)]
mod tests;
#[cfg(test)]
mod trace_tests;
