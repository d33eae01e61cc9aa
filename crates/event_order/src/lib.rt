//! One order of linked events, or the cycle that leaves none.
//!
//! Owns: which event has to come before which (`DirectOrder`), the lists of all events that agree with it (`Extensions`), the
//! least of their schedules (`Least`), its cycles and the one that is told (`Cycles`), what the answer says (`Answers`), and
//! what holds of all of it (`Laws`). They speak of events, links and places, and of no slot, table or count. The layer above
//! may rely on this: `arrange` gives the least schedule exactly where there is no cycle, and the cycle that is told otherwise,
//! within a number of looks that grows with the number of events; and any extension of the direct order is a run.
#![tactic(auto)]

mod arranging;
mod backs;
mod deed;
mod deeds;
mod extending;
mod front;
mod laws;
mod order_error;
mod slot;
mod table;
#[cfg(test)]
mod tests;
mod thread_set;
mod turning;
mod walking;

pub use arranging::{arrange, arrange_owned};
pub use laws::{
    cycles_exclude, extensions_are_runs, extensions_are_whole, followed_are_in_range,
    followed_is_told, least_or_cycle, one_cycle, one_least,
};
pub use order_error::OrderError;
