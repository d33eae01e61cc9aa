//! Linking each read to the write that it is taken to have read.
//!
//! Owns: where writes and turns come from (`Sources`), what a link is (`Links`), what keeps events from being linked and which of
//! it is told first (`Refusals`), that there are links or a first refusal, and that links, first refusals and answers are unique
//! (`Laws`). They speak of all events of all threads, and of no index.
//! The layer above may rely on this: `link` gives the link of each read, or the first refusal, within
//! a number of looks that grows with the number of events.
#![tactic(auto)]

mod finder;
mod finding;
mod gaps;
mod gathered;
mod latest_write;
mod laws;
mod link_error;
mod linking;
mod links;
mod misfits;
mod numbered;
mod placing;
mod rounds;
mod row;
mod spans;
mod tops;
mod turn_marks;
mod turns;

pub use latest_write::latest;
pub use laws::{links_or_refusal, one_answer, one_first_refusal, one_link, one_linking};
pub use link_error::LinkError;
pub use linking::link;
pub use links::Links;
