//! The sections of reports: one file a subject. A section is appended line by line.

mod counts;
mod ends;
mod line;
mod links;
mod logs;
mod played;
mod schedule;
mod summary;

pub use counts::{put_counts, put_text};
pub use ends::put_ends;
pub use links::put_links;
pub use logs::put_logs;
pub use played::{put_replay, put_run};
pub use schedule::put_schedule;
pub use summary::{Summary, halted, put_summary};
