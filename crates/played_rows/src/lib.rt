//! Tests of `follow`, and nothing else. Nothing stands on this crate.
//!
//! `plain_machine` is a plain, slow machine that is written from the language's description; what it makes of programs and orders
//! is compared with what `follow` makes of them (`playing_rows`, `drawn_rows`).
#![tactic(auto)]

#[cfg(test)]
mod drawn_rows;
#[cfg(test)]
mod following;
#[cfg(test)]
mod plain_machine;
#[cfg(test)]
mod playing_rows;
