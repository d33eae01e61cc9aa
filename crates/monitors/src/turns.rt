//! Looking at a monitor, entering it and leaving it.
ghost use Rattle.std.specs.Prelude.{◌≡◌, ℕ, ◌<◌, ◌^◌, Some, IfNone, IfSome};
ghost use Rattle.interleavings.specs.declared.activity.Phase.TheVariants.{Idle, Looked};
ghost use Rattle.interleavings.specs.declared.kind.Kind.TheVariants as by;
ghost use Rattle.interleavings.specs.declared.event.Event.TheVariants as events;
ghost use Rattle.interleavings.specs.AtomicStep.{held_turn};
ghost use Rattle.monitors.specs.Turns.{HasLooked, HasMissed, IsEntered};
ghost use Rattle.shared_rule.specs.Passes.{HasFinished, IsPassOf, IsReady, monitors_in, view_of};
ghost use Rattle.shared_rule.specs.Plays.{IsHalf, Makes};
ghost use Rattle.shared_rule.specs.Views.{view_after};

use shared_rule::{Pass, Shared, Word, half_if_even};

/// Looks whether a monitor is free: `Some(turn)` exactly where it is, after so many turns, and the row of odd looks is 0 then;
/// `None` exactly where it is held, and the row is one longer, or one where it was of another monitor. One step, of the kind
/// `Look`.
#[inline]
pub fn look(shared: &Shared, pass: &mut Pass, mon: u32) -> Option<u32>
    requires pass { IsPassOf shared.now pass.old }
    requires monitor { mon < monitors_in shared.now }
    requires ready { IsReady (view_of pass.old) }
    ensures pass { IsPassOf shared.now pass.new }
    ensures step { (met : ℕ) × Makes by.Look mon 0 (view_of pass.old) met (view_of pass.new) × IsHalf result met }
    ensures looked { HasLooked mon result (view_of pass.old) (view_of pass.new) }
    ensures small { IfSome result (λ turn. turn < 2 ^ 31) }
{
    half_if_even(shared.load(pass, Word::Monitor(mon)))
}

/// Enters a monitor that was seen free after so many turns: `Some(seen + 1)` exactly where it was still so; the pass then holds
/// that turn, and the entry is an event of it. After `None` the pass is idle. One step, of the kind `Enter`.
#[inline]
pub fn try_enter(shared: &Shared, pass: &mut Pass, mon: u32, seen: u32) -> Option<u32>
    requires pass { IsPassOf shared.now pass.old }
    requires monitor { mon < monitors_in shared.now }
    requires seen { (view_of pass.old).activity.phase ≡ Looked mon seen }
    ensures pass { IsPassOf shared.now pass.new }
    ensures step { (met : ℕ) × Makes by.Enter mon 0 (view_of pass.old) met (view_of pass.new) × IsEntered result seen met }
    ensures event { IfSome result (λ turn. HasFinished (events.Enter mon turn) (view_of pass.old) (view_of pass.new)) }
    ensures missed { IfNone result (HasMissed (view_of pass.old) (view_of pass.new)) }
    ensures small { IfSome result (λ turn. turn < 2 ^ 31) }
{
    let word = 2 * u64::from(seen);
    match shared.compare_exchange(pass, Word::Monitor(mon), word, word + 1) {
        Ok(_) => Some(seen + 1),
        Err(_) => None,
    }
}

/// Leaves a monitor that the pass holds for this turn. The exit is an event of the pass. One step, of the kind `Leave`.
#[inline]
pub fn leave(shared: &Shared, pass: &mut Pass, mon: u32, turn: u32)
    requires pass { IsPassOf shared.now pass.old }
    requires monitor { mon < monitors_in shared.now }
    requires idle { (view_of pass.old).activity.phase ≡ Idle }
    requires holds { held_turn mon (view_of pass.old).activity.held ≡ Some turn }
    ensures pass { IsPassOf shared.now pass.new }
    ensures step { view_of pass.new ≡ view_after by.Leave mon 0 (view_of pass.old) 0 }
    ensures event { HasFinished (events.Exit mon turn) (view_of pass.old) (view_of pass.new) }
{
    shared.store(pass, Word::Monitor(mon), 2 * u64::from(turn));
}
