//! Tests of whole commands over devices in memory, and nothing else. Nothing stands on this crate.
//!
//! Here stands what the cases of `tests/commands` cannot show: devices that fail at a call, and the details of a status apart
//! from its line on standard error.
#![tactic(auto)]

#[cfg(test)]
mod bundle_rows;
#[cfg(test)]
mod program_rows;
#[cfg(test)]
mod rows;
