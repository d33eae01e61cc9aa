//! Tests of recordings, bundles and threads that are run again together, and nothing else. Nothing stands on this crate.
//!
//! Rows of `rerun`, by logs made by hand and by recorded ones (`rerun_rows`), and recordings that are bundled, read back and run
//! again (`bundle_rows`).
#![tactic(auto)]

#[cfg(test)]
mod bundle_rows;
#[cfg(test)]
mod rerun_rows;
