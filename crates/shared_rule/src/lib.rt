//! The words that threads share, and the rule over them.
//!
//! Owns: where the words lie (`Lines`), what a pass knows (`Views`), which atomic step an access is (`Accesses`) and what it tells
//! (`Plays`), the rule (`Holding`), what contracts see of a pass (`Passes`), and what is known once the sharing has ended
//! (`Closing`). The words are those of one table whose steps are atomic; there is no lock, no second copy of a word, and no call
//! but `prepare` takes memory. The layer above may rely on this: each access is exactly one atomic step of the kinds of
//! `interleavings`, made by the pass that it was given, and once all passes are gathered and the table is closed, what they did is
//! one history.
#![tactic(auto)]

mod closed;
mod facts;
mod half;
mod last_words;
pub mod limits;
mod lines;
mod passes;
mod rule;
mod shared;
mod view;
mod word;

pub use closed::Closed;
pub use half::half_if_even;
// These two stand in the type of the table within `Shared`.
pub use rule::{Plan, Rule};
pub use shared::{Pass, Shared};
pub use view::View;
pub use word::Word;
