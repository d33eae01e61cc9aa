//! The words of the command line.
//!
//! Owns: the grammar of the words (`Words`), and what they set.
//! The layer above may rely on the clause of `read_words`: settings are answered exactly for a line of the grammar that has
//! these settings, `Usage` only where the words are no line of it; words are a line or none, and have at most one reading (`Laws`).
//! What `what_is_wrong` tells of refused words, no clause says.
#![tactic(auto)]

mod command_line;
mod fault;
mod laws;
mod options;
mod settings;
mod values;

pub use command_line::read_words;
pub use fault::{Fault, what_is_wrong};
pub use laws::{line_or_none, one_reading};
pub use options::Setting;
pub use settings::{Command, Refusal, Settings};

#[cfg(test)]
mod tests;
