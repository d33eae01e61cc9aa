//! How writers of a cell come to numbers, one after another.
//!
//! Owns: which steps it takes to claim a number (`Claiming`). The layer above may rely on this: each
//! call is exactly the atomic steps that its contract names. That a pass which has claimed a cell is alone there until it
//! completes is a law of histories (`histories::one_claimer`).
#![tactic(auto)]

mod claiming;

pub use claiming::{see, take, try_claim};
