//! `Bundle`: a program's text, the bound on its steps, and the log of each of its threads.
use interleavings::LogEntry;
use stride_base::List;

/// What a run leaves behind for a later one.
#[derive(Drop)]
pub struct Bundle {
    /// How many instructions each thread may make.
    pub fuel: u32,
    /// The text of the program.
    pub text: List<u8>,
    /// The log of each thread, in the order of the threads.
    pub logs: List<List<LogEntry>>,
}
