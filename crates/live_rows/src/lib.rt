//! Tests of recording on threads, and nothing else. Nothing stands on this crate.
//!
//! Whole commands (by `whole_calls`) under gates, which force what is logged (`gate_rows`, with the gates in `meeting`), and on devices
//! that fail (`device_rows`); and sessions without a gate, whose recordings are replayed and compared with what the threads themselves
//! printed (`session_rows`).
#![tactic(auto)]

#[cfg(test)]
mod device_rows;
#[cfg(test)]
mod gate_rows;
#[cfg(test)]
mod meeting;
#[cfg(test)]
mod session_rows;
#[cfg(test)]
mod whole_calls;
