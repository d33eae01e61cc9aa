//! Tests of texts, and nothing else. Nothing stands on this crate.
//!
//! `plain_reader` is a plain, slow reader that is written from the language's description; what it says of texts is compared
//! with what `assemble` says (`text_rows`).
#![tactic(auto)]

#[cfg(test)]
mod plain_reader;
#[cfg(test)]
mod text_rows;
