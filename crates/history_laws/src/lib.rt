//! The events of every history of atomic steps are linked and ordered, and every recording is a run.
//!
//! Owns: when traces are the events of a history (`HistoryEvents`), what a recording is replayed to (`RecordedRuns`), and what
//! holds of them (`Laws`): nothing about the links of a history's events is refused, and their direct order has no cycle, so
//! there is an order of them; and the run by the least order of a recording's events has its outputs, its ends and its last
//! values. The layer above may rely on this for every history, of any length and any number of threads, after which each thread is
//! at rest and whose events are of cells and monitors that are there, and for every recording of a valid program.
#![tactic(auto)]

mod laws;

pub use laws::{
    histories_are_linked, histories_are_ordered, histories_have_orders, recordings_are_histories,
    recordings_are_runs,
};
