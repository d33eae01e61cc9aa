//! Tests of linking and of the order of linked events, and nothing else. Nothing stands on this crate.
//!
//! Traces made by hand: what is refused, at its edges (`refusal_rows`), and what reads are linked to (`link_rows`). Traces that are
//! drawn, beside a plain slow linker that scans (`drawn_rows`), and beside a plain slow search through all lists and all sets of
//! their events (`drawn_orders`). Recordings by orders that are drawn, beside both (`drawn_recordings`).
#![tactic(auto)]

#[cfg(test)]
mod drawn_orders;
#[cfg(test)]
mod drawn_recordings;
#[cfg(test)]
mod drawn_rows;
#[cfg(test)]
mod link_rows;
#[cfg(test)]
mod plain_linker;
#[cfg(test)]
mod plain_order;
#[cfg(test)]
mod refusal_rows;
#[cfg(test)]
mod setting;
