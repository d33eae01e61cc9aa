//! The shared words, and passes.
ghost use Rattle.std.specs.Prelude.{◌≡◌, ◌≤◌, length};
ghost use Rattle.stride_isa.specs.declared.limits.TheConstants.{CELL_LIMIT, MONITOR_LIMIT};
ghost use Rattle.shared_rule.specs.Lines.{width as word_count};

use crate::rule::{Plan, Rule};
use crate::view::View;
use atomic_table::{Seat, Table};
use std::alloc::Global;

/// The words that threads share: how many names were drawn, of each cell its value and its number, and of each monitor its
/// word. A thread steps on them by a pass, each access being one atomic step.
#[derive(Drop)]
pub struct Shared {
    pub(crate) table: Table<(), View, Plan, Rule, Global>,
    ghost wide: { table.shared.table_id.words ≡ word_count (length table.shared.key.starts.items) },
    ghost few_cells: { length table.shared.key.starts.items ≤ CELL_LIMIT },
    ghost few_monitors: { table.shared.key.monitors ≤ MONITOR_LIMIT },
    ghost no_slots: { table.shared.table_id.slots ≡ 0 },
}

/// The shared words of a table that is as wide as its cells want.
pub(crate) fn shared_of(table: Table<(), View, Plan, Rule, Global>) -> Shared
    requires wide { table.shared.table_id.words ≡ word_count (length table.shared.key.starts.items) }
    requires few_cells { length table.shared.key.starts.items ≤ CELL_LIMIT }
    requires few_monitors { table.shared.key.monitors ≤ MONITOR_LIMIT }
    requires no_slots { table.shared.table_id.slots ≡ 0 }
    ensures { result.table ≡ table }
{
    Shared { table }
}

/// What a thread makes its steps by. It has no bytes.
pub type Pass = Seat<(), View>;
