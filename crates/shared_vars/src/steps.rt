//! The single steps of reads, writes and updates.
ghost use Rattle.std.specs.Prelude.{◌≡◌, ℕ, ◌≤◌, ◌<◌, ◌^◌, length, IfSome};
ghost use Rattle.interleavings.specs.declared.kind.Kind.TheVariants as by;
ghost use Rattle.interleavings.specs.AtomicStep.{HasLoaded, HasMarked, CanStore, HasStored, number_in};
ghost use Rattle.interleavings.specs.History.{greatest_seen};
ghost use Rattle.shared_rule.specs.Passes.{IsPassOf, IsReady, starts_in, view_of};
ghost use Rattle.shared_rule.specs.Plays.{IsHalf, Makes};
ghost use Rattle.shared_rule.specs.Views.{view_after};

use shared_rule::{Pass, Shared, Word, half_if_even};

/// Loads the value of a cell, to read it. One step, of the kind `ValueLoad`.
#[inline]
pub fn load_value(shared: &Shared, pass: &mut Pass, cell: u32) -> u64
    requires pass { IsPassOf shared.now pass.old }
    requires cell { cell < length (starts_in shared.now) }
    requires ready { IsReady (view_of pass.old) }
    ensures pass { IsPassOf shared.now pass.new }
    ensures step { Makes by.ValueLoad cell 0 (view_of pass.old) result (view_of pass.new) }
{
    shared.load(pass, Word::Value(cell))
}

/// Loads the number of a cell whose value the pass has loaded: `Some(bound)` exactly where it was twice the bound, and `None`
/// exactly where it was odd. A bound is not below what the pass had seen of the cell. One step, of the kind `NumberLoad`.
#[inline]
pub fn load_number(shared: &Shared, pass: &mut Pass, cell: u32) -> Option<u32>
    requires pass { IsPassOf shared.now pass.old }
    requires cell { cell < length (starts_in shared.now) }
    requires loaded { HasLoaded cell (view_of pass.old).activity.phase }
    ensures pass { IsPassOf shared.now pass.new }
    ensures step { (met : ℕ) × Makes by.NumberLoad cell 0 (view_of pass.old) met (view_of pass.new) × IsHalf result met }
    ensures bound { IfSome result (λ bound. greatest_seen cell (view_of pass.old).seen ≤ bound) }
    ensures small { IfSome result (λ bound. bound < 2 ^ 31) }
{
    half_if_even(shared.load(pass, Word::Number(cell)))
}

/// Loads the value of a cell that the pass has claimed, to update it. One step, of the kind `Fetch`.
#[inline]
pub fn fetch(shared: &Shared, pass: &mut Pass, cell: u32) -> u64
    requires pass { IsPassOf shared.now pass.old }
    requires cell { cell < length (starts_in shared.now) }
    requires claimed { HasMarked cell (view_of pass.old).activity.phase }
    ensures pass { IsPassOf shared.now pass.new }
    ensures step { Makes by.Fetch cell 0 (view_of pass.old) result (view_of pass.new) }
{
    shared.load(pass, Word::Value(cell))
}

/// Stores the value of a cell that the pass has claimed. One step, of the kind `Put`.
#[inline]
pub fn store_value(shared: &Shared, pass: &mut Pass, cell: u32, value: u64)
    requires pass { IsPassOf shared.now pass.old }
    requires cell { cell < length (starts_in shared.now) }
    requires claimed { CanStore cell (view_of pass.old).activity.phase }
    ensures pass { IsPassOf shared.now pass.new }
    ensures step { view_of pass.new ≡ view_after by.Put cell value (view_of pass.old) 0 }
{
    shared.store(pass, Word::Value(cell), value);
}

/// Makes the number of a cell even again, once the pass has stored the value: the write or the update is then an event of the
/// pass. `n` is the number that was seen before the claim. One step, of the kind `Complete`.
#[inline]
pub fn complete(shared: &Shared, pass: &mut Pass, cell: u32, n: u32)
    requires pass { IsPassOf shared.now pass.old }
    requires cell { cell < length (starts_in shared.now) }
    requires stored { HasStored cell (view_of pass.old).activity.phase }
    requires number { n ≡ number_in (view_of pass.old).activity.phase }
    ensures pass { IsPassOf shared.now pass.new }
    ensures step { view_of pass.new ≡ view_after by.Complete cell 0 (view_of pass.old) 0 }
{
    shared.store(pass, Word::Number(cell), 2 * u64::from(n) + 2);
}
