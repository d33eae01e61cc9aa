//! The shared instructions of a thread that is recorded: the steps of the crates below, with the gate between them.
ghost use Rattle.std.specs.Prelude.{◌≡◌, ◌<◌, ◌≤◌, ◌^◌, None, length, IfNone, IfSome};
ghost use Rattle.stride_isa.specs.Changes.{applied};
ghost use Rattle.interleavings.specs.AtomicStep.{HasLoaded};
ghost use Rattle.interleavings.specs.declared.event.Event.TheVariants as events;
ghost use Rattle.recorder.specs.Accessing.{HasGivenUp, HasWaited};
ghost use Rattle.shared_rule.specs.Passes.{IsPassOf, IsReady, HasFinished, monitors_in, starts_in, view_of};

use crate::gate::{Gate, Point, Way};
use crossbeam_utils::Backoff;
use monitors::{look, try_enter};
use shared_rule::{Pass, Shared};
use shared_vars::{complete, fetch, load_number, load_value, store_value};
use std::sync::Wait;
use stride_isa::Change;
use write_turns::take;

/// Reads a cell: its value, and a bound.
#[inline(always)]
pub(crate) fn read<R: Wait, G: Gate>(
    rt: &R,
    shared: &Shared,
    pass: &mut Pass,
    way: &Way<'_, G>,
    cell: u32,
) -> (u64, u32)
    requires pass { IsPassOf shared.now pass.old }
    requires cell { cell < length (starts_in shared.now) }
    requires ready { IsReady (view_of pass.old) }
    ensures pass { IsPassOf shared.now pass.new }
    ensures event { HasFinished (events.Read cell result.0 result.1) (view_of pass.old) (view_of pass.new) }
{
    way.at(rt, Point::BeforeValue);
    let value = load_value(shared, pass, cell);
    way.at(rt, Point::AfterValue);
    match load_number(shared, pass, cell) {
        Some(bound) => (value, bound),
        None => (value, wait_for_bound(rt, shared, pass, way, cell)),
    }
}

// Loads the number of a cell, which was odd, until it is even. A writer is under way, so it has to go on first.
#[cold]
#[inline(never)]
fn wait_for_bound<R: Wait, G: Gate>(
    rt: &R,
    shared: &Shared,
    pass: &mut Pass,
    way: &Way<'_, G>,
    cell: u32,
) -> u32
    requires pass { IsPassOf shared.now pass.old }
    requires cell { cell < length (starts_in shared.now) }
    requires loaded { HasLoaded cell (view_of pass.old).activity.phase }
    ensures pass { IsPassOf shared.now pass.new }
    ensures waited { HasWaited cell (view_of pass.old) result (view_of pass.new) }
{
    let backoff = Backoff::new();
    for _ in rt.forever() {
        way.at(rt, Point::AfterOdd);
        backoff.snooze();
        if let Some(bound) = load_number(shared, pass, cell) {
            return bound;
        }
    }
    unreachable!()
}

/// Writes a value into a cell, and answers the number of the write.
#[inline(always)]
pub(crate) fn write<R: Wait, G: Gate>(
    rt: &R,
    shared: &Shared,
    pass: &mut Pass,
    way: &Way<'_, G>,
    cell: u32,
    value: u64,
) -> u32
    requires pass { IsPassOf shared.now pass.old }
    requires cell { cell < length (starts_in shared.now) }
    requires ready { IsReady (view_of pass.old) }
    ensures pass { IsPassOf shared.now pass.new }
    ensures event { HasFinished (events.Write cell value result) (view_of pass.old) (view_of pass.new) }
{
    let below = take(rt, shared, pass, cell);
    way.at(rt, Point::AfterMark);
    store_value(shared, pass, cell, value);
    way.at(rt, Point::AfterPut);
    complete(shared, pass, cell, below);
    way.at(rt, Point::AfterTurn);
    below + 1
}

/// Updates a cell, and answers the old value and the number of the update.
#[inline(always)]
pub(crate) fn update<R: Wait, G: Gate>(
    rt: &R,
    shared: &Shared,
    pass: &mut Pass,
    way: &Way<'_, G>,
    cell: u32,
    change: Change,
) -> (u64, u32)
    requires pass { IsPassOf shared.now pass.old }
    requires cell { cell < length (starts_in shared.now) }
    requires ready { IsReady (view_of pass.old) }
    ensures pass { IsPassOf shared.now pass.new }
    ensures event { HasFinished (events.Update cell result.0 (applied change result.0) result.1) (view_of pass.old) (view_of pass.new) }
{
    let below = take(rt, shared, pass, cell);
    way.at(rt, Point::AfterMark);
    let old = fetch(shared, pass, cell);
    store_value(shared, pass, cell, change.applied(old));
    way.at(rt, Point::AfterPut);
    complete(shared, pass, cell, below);
    way.at(rt, Point::AfterTurn);
    (old, below + 1)
}

/// Enters a monitor: the turn, or `None` once the monitor was found held so often in a row as the patience says.
#[inline]
pub(crate) fn enter<R: Wait, G: Gate>(
    rt: &R,
    shared: &Shared,
    pass: &mut Pass,
    way: &Way<'_, G>,
    mon: u32,
    patience: u32,
) -> Option<u32>
    requires pass { IsPassOf shared.now pass.old }
    requires monitor { mon < monitors_in shared.now }
    requires ready { IsReady (view_of pass.old) }
    requires calm { (view_of pass.old).activity.looks ≡ None }
    requires patient { 1 ≤ patience }
    ensures pass { IsPassOf shared.now pass.new }
    ensures entered { IfSome result (λ turn. HasFinished (events.Enter mon turn) (view_of pass.old) (view_of pass.new)) }
    ensures gave_up { IfNone result (HasGivenUp mon patience (view_of pass.old) (view_of pass.new)) }
{
    let backoff = Backoff::new();
    let mut looks = 0;
    for _ in rt.forever() {
        match look(shared, pass, mon) {
            Some(seen) => {
                if let Some(turn) = try_enter(shared, pass, mon, seen) {
                    return Some(turn);
                }
                // Another thread has entered since the look. It may have left again, so only the next look tells whether the monitor is held.
                looks = 0;
            }
            None => {
                looks += 1;
                way.at(rt, Point::Held);
                if looks == patience {
                    return None;
                }
                snooze(&backoff);
            }
        }
    }
    unreachable!()
}

// Another thread holds the monitor, so it has to go on first.
#[cold]
#[inline(never)]
fn snooze(backoff: &Backoff) {
    backoff.snooze();
}
