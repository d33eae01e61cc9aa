//! What happened in a history of atomic steps, and when.
//!
//! Owns: what a chronicle of a history is (`Chronicle`), and what holds of every history (`Laws`). A chronicle tells of each
//! cell which step put its value number k, of each monitor which steps began and ended turn k, and of each event when it took
//! effect and when it was finished. The layer above may rely on this: every history has one, of any length and any number of
//! threads, cells and monitors; at most one thread has claimed a cell; and nothing that was numbered or named is taken back.
#![tactic(auto)]

mod laws;

pub use laws::{
    even_at_rest, histories_have_chronicles, nameless_are_newcomers, names_are_drawn, names_stay,
    nothing_falls, numbers_count_writes, one_claimer, one_holder, strangers_are_newcomers,
    turns_count_entries, updates_meet_the_write_before, what_is_seen_is_past,
};
