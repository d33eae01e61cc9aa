//! One thread's run, and the sequentially consistent machine.
//!
//! Owns: the step of a thread (`ThreadStep`), what contracts see of a run of one thread (`ThreadRun`) and of one with its
//! output (`StandingThread`), the machine (`Machine`), its schedules (`Schedule`), its transcripts (`Transcript`),
//! turns of one thread in a row (`TurnsInARow`), and the laws of its runs (`Laws`).
//! The layer above may rely on this: `ThreadRun::local` and `ThreadRun::answer` are the thread step, which a `Control` makes on a
//! `Frame` beside it and a `StandingThread` with the output in its own hands, and whole turns do what the single steps of the
//! machine do.
#![tactic(auto)]

mod control;
mod end;
mod frame;
mod instruction;
mod laws;
pub mod limits;
mod operands;
mod printing;
mod running;
mod standing_thread;
mod stop;
mod task;
mod thread_run;
mod trap;

pub use control::Control;
pub use end::End;
pub use frame::Frame;
pub use laws::{
    fuel_is_left, outputs_are_lines, refused_where_stuck, replay_along_turns,
    settled_makes_no_less, settled_prints, settled_stands, starts_settle, turn_by_stop,
    turns_are_steps, turns_in_a_row, turns_join, turns_print,
};
pub use standing_thread::StandingThread;
pub use stop::Stop;
pub use thread_run::ThreadRun;
pub use trap::Trap;

#[cfg(test)]
mod tests;
