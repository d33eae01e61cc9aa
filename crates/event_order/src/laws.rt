//! Laws of the direct order, over its definitions alone. Each is the contract of a function that does nothing but cite laws
//! of the crates below.
ghost use Rattle.event_order.specs.Laws.{CyclesExclude, ExtensionsAreRuns, ExtensionsAreWhole, FollowedAreInRange, FollowedIsTold, LeastOrCycle, OneCycle, OneLeast};

use interleavings::{exits_end_enters, followed_walks};
use sc_machine::{replay_along_turns, starts_settle, turn_by_stop};
use stride_isa::each_cell_starts;

/// The thread numbers of any extension of the direct order are a schedule of a valid program, by whose run each thread makes
/// exactly its events, with the output and the end that following its log gives.
pub fn extensions_are_runs()
    ensures { ExtensionsAreRuns }
{
    exits_end_enters();
    followed_are_in_range();
    followed_walks();
    replay_along_turns();
    starts_settle();
    turn_by_stop();
}

/// The events of a valid program's threads that were followed are of cells and monitors that are there.
pub fn followed_are_in_range()
    ensures { FollowedAreInRange }
{
    each_cell_starts();
    followed_walks();
}

/// An extension of the direct order has as many places as there are events.
pub fn extensions_are_whole()
    ensures { ExtensionsAreWhole }
{}

/// Where there is a cycle there is no extension.
pub fn cycles_exclude()
    ensures { CyclesExclude }
{}

/// There is one least schedule at most.
pub fn one_least()
    ensures { OneLeast }
{}

/// There is one cycle at most that is told.
pub fn one_cycle()
    ensures { OneCycle }
{}

/// Linked events have a least schedule, or a cycle that is told.
pub fn least_or_cycle()
    ensures { LeastOrCycle }
{}

/// The events between the first and the second time that steps back from the least event meet an event are the cycle that is
/// told.
pub fn followed_is_told()
    ensures { FollowedIsTold }
{}
