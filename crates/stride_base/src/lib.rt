//! Lists, devices, counters and limits: what most crates of the project stand on.
//!
//! It owns the definitions of what a list is seen as (`Listed`), of triples in dictionary order
//! (`Ascending`), of what a device does to the bytes that it tells and to its count of faults
//! (`Devices`), and of the devices over memory (`MemoryDevices`). The layers above may use all that
//! is public: `List` where reserved room has to be known, and std's collections elsewhere; `Source`
//! and `Sink` for what a command reads and writes; `Steps` and `Ascending` to count looks.
#![tactic(auto)]

mod ascending;
mod failed;
mod failing_calls;
mod input_error;
pub mod limits;
mod list;
mod mem_sink;
mod mem_source;
mod no_memory;
mod putting;
mod reading;
mod sink;
mod source;
mod std_sink;
mod std_source;
mod steps;
#[cfg(test)]
mod tests;

pub use ascending::Ascending;
pub use failed::Failed;
pub use input_error::InputError;
pub use list::List;
pub use mem_sink::MemSink;
pub use mem_source::MemSource;
pub use no_memory::NoMemory;
pub use putting::put_all;
pub use reading::read_all;
pub use sink::Sink;
pub use source::Source;
pub use std_sink::StdSink;
pub use std_source::StdSource;
pub use steps::Steps;
