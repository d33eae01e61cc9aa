//! The arrays of a thread that runs.
use stride_isa::limits::{LOCAL_COUNT, MONITOR_LIMIT, STACK_LIMIT};

/// The words, the locals and the monitors of a thread that runs.
///
/// They stand apart from all else that it has, so that a loop keeps the rest in registers.
#[derive(Clone, Copy)]
pub struct Frame {
    pub words: [u64; STACK_LIMIT],
    pub locals: [u64; LOCAL_COUNT],
    pub held: [bool; MONITOR_LIMIT],
}
