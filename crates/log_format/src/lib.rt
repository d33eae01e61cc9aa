//! Bundles as bytes.
//!
//! Owns: what a bundle is seen as and which bundles a version can hold (`Bundles`), the one spelling of each in each version
//! (`Spelling`), what bytes read as, with the first refusal (`Reading`), and the laws of both (`Laws`).
//! The layer above may rely on this: `decode` gives the bundle that the bytes spell in one of the versions, or the first
//! refusal, and `encode` gives the spelling in version 2.
#![tactic(auto)]

mod bundle;
mod decoding;
mod encoding;
mod entries;
mod fault;
mod format_error;
mod laws;
mod logs;
mod numbers;
mod parts;
mod version;

pub use bundle::Bundle;
pub use decoding::decode;
pub use encoding::encode;
pub use format_error::{FormatError, FormatKind};
pub use laws::{
    cut_is_short, fuel_is_in_range, more_is_long, no_spelling_begins_another, nothing_wrong_before,
    read_is_spelled, short_is_begun, spelling_is_read, wrong_stays_wrong,
};
pub use version::{Size, Version};

#[cfg(test)]
mod tests;
