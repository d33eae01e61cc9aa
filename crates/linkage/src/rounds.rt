//! Rounds: all threads are gone through side by side, so many events of each in a round.
ghost use Rattle.std.specs.Prelude.{◌≤◌, ℕ, length};
ghost use Rattle.interleavings.specs.TraceLists.{events_of};

use interleavings::Traces;
use stride_isa::limits::FUEL_LIMIT;

/// How many events of a thread are gone through in a round. What threads did at about the same time is linked with each other, so
/// that it is met while it is at hand.
pub(crate) const ROUND: u32 = 1_024;

/// How many events the thread that has the most of them has. It looks at none.
pub(crate) fn longest(traces: &Traces) -> u32
    ensures longest { (thread : ℕ) → length (events_of traces.now thread) ≤ result }
    ensures small { result ≤ FUEL_LIMIT }
{
    let mut longest = 0;
    for thread in 0..traces.threads() {
        longest = traces.count(thread).max(longest);
    }
    longest
}
