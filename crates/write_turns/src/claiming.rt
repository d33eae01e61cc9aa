//! Seeing the number of a cell, and claiming the next one.
ghost use Rattle.std.specs.Prelude.{◌≡◌, ℕ, ◌+◌, ◌*◌, ◌==◌, ◌<◌, ◌^◌, length, IfSome};
ghost use Rattle.interleavings.specs.declared.activity.Phase.TheVariants.{Numbered};
ghost use Rattle.interleavings.specs.declared.kind.Kind.TheVariants as by;
ghost use Rattle.shared_rule.specs.Passes.{IsPassOf, IsReady, starts_in, view_of};
ghost use Rattle.shared_rule.specs.Plays.{IsHalf, Makes};
ghost use Rattle.write_turns.specs.Claiming.{Takes, HasClaimed};

use crossbeam_utils::Backoff;
use shared_rule::{Pass, Shared, Word, half_if_even};
use std::sync::Wait;

/// Looks at the number of a cell, to write: `Some(n)` exactly where it was `2 * n`, and `None` exactly where it was odd. One
/// step, of the kind `SeeNumber`.
#[inline]
pub fn see(shared: &Shared, pass: &mut Pass, cell: u32) -> Option<u32>
    requires pass { IsPassOf shared.now pass.old }
    requires cell { cell < length (starts_in shared.now) }
    requires ready { IsReady (view_of pass.old) }
    ensures pass { IsPassOf shared.now pass.new }
    ensures step { (met : ℕ) × Makes by.SeeNumber cell 0 (view_of pass.old) met (view_of pass.new) × IsHalf result met }
    ensures small { IfSome result (λ n. n + 1 < 2 ^ 31) }
{
    half_if_even(shared.load(pass, Word::Number(cell)))
}

/// Claims the write after those that were seen: true exactly where the number was still twice that many. After false the pass is
/// idle. One step, of the kind `Claim`.
#[inline]
pub fn try_claim(shared: &Shared, pass: &mut Pass, cell: u32, seen: u32) -> bool
    requires pass { IsPassOf shared.now pass.old }
    requires cell { cell < length (starts_in shared.now) }
    requires seen { (view_of pass.old).activity.phase ≡ Numbered cell seen }
    ensures pass { IsPassOf shared.now pass.new }
    ensures step { (met : ℕ) × Makes by.Claim cell 0 (view_of pass.old) met (view_of pass.new) × (result ≡ (met == 2 * seen)) }
{
    let number = 2 * u64::from(seen);
    shared
        .compare_exchange(pass, Word::Number(cell), number, number + 1)
        .is_ok()
}

/// Sees and claims until it has a claim, and answers the number that it saw. It waits for other writers.
#[inline]
pub fn take<R: Wait>(rt: &R, shared: &Shared, pass: &mut Pass, cell: u32) -> u32
    requires pass { IsPassOf shared.now pass.old }
    requires cell { cell < length (starts_in shared.now) }
    requires ready { IsReady (view_of pass.old) }
    ensures pass { IsPassOf shared.now pass.new }
    ensures steps { Takes cell (view_of pass.old) result (view_of pass.new) }
    ensures claimed { HasClaimed cell result (view_of pass.old) (view_of pass.new) }
    ensures small { result + 1 < 2 ^ 31 }
{
    if let Some(seen) = see(shared, pass, cell) {
        if try_claim(shared, pass, cell, seen) {
            return seen;
        }
    }
    wait_to_take(rt, shared, pass, cell)
}

// Sees and claims until it has a claim, after a first try that failed. Where another writer came first the next try may succeed
// at once; where one is under way, it has to go on first.
#[cold]
#[inline(never)]
fn wait_to_take<R: Wait>(rt: &R, shared: &Shared, pass: &mut Pass, cell: u32) -> u32
    requires pass { IsPassOf shared.now pass.old }
    requires cell { cell < length (starts_in shared.now) }
    requires ready { IsReady (view_of pass.old) }
    ensures pass { IsPassOf shared.now pass.new }
    ensures steps { Takes cell (view_of pass.old) result (view_of pass.new) }
    ensures claimed { HasClaimed cell result (view_of pass.old) (view_of pass.new) }
    ensures small { result + 1 < 2 ^ 31 }
{
    let backoff = Backoff::new();
    backoff.spin();
    for _ in rt.forever() {
        match see(shared, pass, cell) {
            Some(seen) => {
                if try_claim(shared, pass, cell, seen) {
                    return seen;
                }
                backoff.spin();
            }
            None => backoff.snooze(),
        }
    }
    unreachable!()
}
