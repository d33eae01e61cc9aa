//! Recording a program on threads that run beside each other.
//!
//! Owns: what was recorded of one thread (`Threads`), what recording a row of threads needs and leaves (`Halves`), the room for what
//! a session gives (`Takings`), and what was recorded of a session (`Sessions`). The layer above may rely on this: once a session has
//! run its threads, what `finish` gives is what they left, and a recording of the program, however their steps fell; no call after
//! `reserve` refuses anything. None takes memory either, since all append into reserved room, but no clause says so.
#![tactic(auto)]

mod accesses;
mod gate;
mod halves;
mod recording;
mod session;
mod slot;
mod taken;

pub use gate::{Gate, OpenGate, Point};
pub use recording::record_thread;
pub use session::Session;
pub use slot::Slot;
pub use taken::Taken;
