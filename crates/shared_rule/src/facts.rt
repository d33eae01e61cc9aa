//! What every history keeps, together.
ghost use Rattle.shared_rule.specs.Facts.{HistoriesKeep};

use histories::{
    names_stay, nothing_falls, numbers_count_writes, strangers_are_newcomers, turns_count_entries,
};

/// What the rule takes from the laws of histories.
pub(crate) fn facts()
    ensures { HistoriesKeep }
{
    names_stay();
    nothing_falls();
    numbers_count_writes();
    strangers_are_newcomers();
    turns_count_entries();
}
