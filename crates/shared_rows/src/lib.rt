//! Tests of the shared words, and nothing else. Nothing stands on this crate.
//!
//! A pass beside what its answers so far have told of it (`walker`). Single steps in orders made by hand, by several passes in one
//! thread (`step_rows`, `monitor_rows`), whole reads, writes and updates (`access_rows`), and passes in threads of their own,
//! up to sixteen (`thread_rows`).
#![tactic(auto)]

#[cfg(test)]
mod access_rows;
#[cfg(test)]
mod monitor_rows;
#[cfg(test)]
mod step_rows;
#[cfg(test)]
mod thread_rows;
#[cfg(test)]
mod walker;
