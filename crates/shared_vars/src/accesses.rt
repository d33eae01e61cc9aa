//! Whole reads, writes and updates.
ghost use Rattle.std.specs.Prelude.{◌≡◌, ◌<◌, ◌≤◌, ◌^◌, length};
ghost use Rattle.stride_isa.specs.Changes.{applied};
ghost use Rattle.interleavings.specs.AtomicStep.{HasLoaded};
ghost use Rattle.interleavings.specs.History.{greatest_seen};
ghost use Rattle.interleavings.specs.declared.event.Event.TheVariants as events;
ghost use Rattle.shared_rule.specs.Passes.{IsPassOf, IsReady, HasFinished, starts_in, view_of};
ghost use Rattle.shared_vars.specs.Accessing.{Reads, Waits, Writes, Updates};

use crate::steps::{complete, fetch, load_number, load_value, store_value};
use crossbeam_utils::Backoff;
use shared_rule::{Pass, Shared};
use std::sync::Wait;
use stride_isa::Change;
use write_turns::take;

/// Reads a cell: its value, and a bound, which counts the writes and updates that were completed when the read was. It waits
/// only while a write or an update is under way, and claims nothing.
#[inline]
pub fn read<R: Wait>(rt: &R, shared: &Shared, pass: &mut Pass, cell: u32) -> (u64, u32)
    requires pass { IsPassOf shared.now pass.old }
    requires cell { cell < length (starts_in shared.now) }
    requires ready { IsReady (view_of pass.old) }
    ensures pass { IsPassOf shared.now pass.new }
    ensures steps { Reads cell (view_of pass.old) result.0 result.1 (view_of pass.new) }
    ensures event { HasFinished (events.Read cell result.0 result.1) (view_of pass.old) (view_of pass.new) }
    ensures bound { greatest_seen cell (view_of pass.old).seen ≤ result.1 }
    ensures small { result.1 < 2 ^ 31 }
{
    let value = load_value(shared, pass, cell);
    match load_number(shared, pass, cell) {
        Some(bound) => (value, bound),
        None => (value, wait_for_bound(rt, shared, pass, cell)),
    }
}

// Loads the number of a cell whose value the pass has loaded until it is even. A writer is under way, so it has to go on first.
#[cold]
#[inline(never)]
fn wait_for_bound<R: Wait>(rt: &R, shared: &Shared, pass: &mut Pass, cell: u32) -> u32
    requires pass { IsPassOf shared.now pass.old }
    requires cell { cell < length (starts_in shared.now) }
    requires loaded { HasLoaded cell (view_of pass.old).activity.phase }
    ensures pass { IsPassOf shared.now pass.new }
    ensures loads { Waits cell (view_of pass.old) result (view_of pass.new) }
    ensures bound { greatest_seen cell (view_of pass.old).seen ≤ result }
    ensures small { result < 2 ^ 31 }
{
    let backoff = Backoff::new();
    for _ in rt.forever() {
        match load_number(shared, pass, cell) {
            Some(bound) => return bound,
            None => backoff.snooze(),
        }
    }
    unreachable!()
}

/// Writes a value into a cell, and answers the number of the write. It waits for other writers.
#[inline]
pub fn write<R: Wait>(rt: &R, shared: &Shared, pass: &mut Pass, cell: u32, value: u64) -> u32
    requires pass { IsPassOf shared.now pass.old }
    requires cell { cell < length (starts_in shared.now) }
    requires ready { IsReady (view_of pass.old) }
    ensures pass { IsPassOf shared.now pass.new }
    ensures steps { Writes cell value (view_of pass.old) result (view_of pass.new) }
    ensures event { HasFinished (events.Write cell value result) (view_of pass.old) (view_of pass.new) }
    ensures small { result < 2 ^ 31 }
{
    let n = take(rt, shared, pass, cell);
    store_value(shared, pass, cell, value);
    complete(shared, pass, cell, n);
    n + 1
}

/// Updates a cell: the value becomes what the change makes of the old one. It answers the old value and the number of the
/// update. It waits for other writers.
#[inline]
pub fn update<R: Wait>(
    rt: &R,
    shared: &Shared,
    pass: &mut Pass,
    cell: u32,
    change: Change,
) -> (u64, u32)
    requires pass { IsPassOf shared.now pass.old }
    requires cell { cell < length (starts_in shared.now) }
    requires ready { IsReady (view_of pass.old) }
    ensures pass { IsPassOf shared.now pass.new }
    ensures steps { Updates cell change (view_of pass.old) result.0 result.1 (view_of pass.new) }
    ensures event { HasFinished (events.Update cell result.0 (applied change result.0) result.1) (view_of pass.old) (view_of pass.new) }
    ensures small { result.1 < 2 ^ 31 }
{
    let below = take(rt, shared, pass, cell);
    let old = fetch(shared, pass, cell);
    store_value(shared, pass, cell, change.applied(old));
    complete(shared, pass, cell, below);
    (old, below + 1)
}
