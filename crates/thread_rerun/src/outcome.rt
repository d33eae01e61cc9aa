//! `Rerun`: what the threads of a program did when they were run again.
use interleavings::Traces;
use sc_machine::End;
use stride_base::List;

/// What the threads of a program did when they were run again.
#[derive(Drop)]
pub struct Rerun {
    /// Their events.
    pub traces: Traces,
    /// What each thread printed, in order of number.
    pub outputs: List<List<u8>>,
    /// How each thread ended, in order of number.
    pub ends: List<End>,
}
