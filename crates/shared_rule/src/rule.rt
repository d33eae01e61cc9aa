//! The rule over the shared words, and what each access tells of it.
ghost use Rattle.shared_rule.specs.Holding.{Holds};
ghost use Rattle.shared_rule.specs.Plays.{Draws as draw_tells, Loads as load_tells, Stores as store_tells, Exchanges as exchange_tells};
ghost use Rattle.shared_rule.specs.Views.{first_view, spent_view, halved, split_off, taken_in};

use crate::view::View;
use atomic_table::{Join, Play, Split, TableRule};

/// What the shared words are told once: the starting values of the cells, and how many monitors there are.
#[derive(Drop)]
pub struct Plan {
    pub starts: Vec<u64>,
    pub monitors: u32,
}

/// Words and views are those that atomic steps lead to.
pub struct Rule;

impl TableRule<(), View, Plan> for Rule {
    ghost holds = { λ plan s. Holds plan.starts.items s };

    ghost first = { λ plan. first_view plan.starts.items };
}

/// A name is drawn.
pub(crate) struct Draws;

impl Play<(), View> for Draws {
    ghost then = { draw_tells };
}

/// A word is loaded.
pub(crate) struct Loads;

impl Play<(), View> for Loads {
    ghost then = { load_tells };
}

/// A word is stored.
pub(crate) struct Stores;

impl Play<(), View> for Stores {
    ghost then = { store_tells };
}

/// A word is exchanged.
pub(crate) struct Exchanges;

impl Play<(), View> for Exchanges {
    ghost then = { exchange_tells };
}

/// A pass is split off another.
pub(crate) struct Halves;

impl Split<View> for Halves {
    ghost left = { halved };

    ghost right = { split_off };
}

/// A pass takes another in.
pub(crate) struct TakesIn;

impl Join<View> for TakesIn {
    ghost both = { taken_in };

    ghost spent = { spent_view };
}
