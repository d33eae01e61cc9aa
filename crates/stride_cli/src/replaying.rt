//! The run of events in their order.
ghost use Rattle.std.specs.Prelude.{◌≡◌, IfOk, length};
ghost use Rattle.replayer.specs.Replays.{IsRunOf, seen};
ghost use Rattle.stride_cli.specs.Again.{HasSchedule};

use replayer::{Replay, ReplayError, replay};
use std::alloc::Global;
use stride_base::NoMemory;
use stride_isa::Checked;

/// Runs the threads by the schedule of their events. Each turn of an order that agrees with the direct order can be taken. The
/// events and their links are known to be there, but are not wanted, so that they may have been let go.
pub fn replay_events(
    alloc: Global,
    program: &Checked,
    fuel: u32,
    schedule: &[u8],
) -> Result<Replay, NoMemory>
    requires { HasSchedule program.now fuel schedule.now }
    ensures run { IfOk result (λ played. IsRunOf program.now fuel schedule.now (seen played)) }
    ensures threads { IfOk result (λ played. length played.ends.items ≡ length program.now.threads) }
{
    event_order::extensions_are_runs();
    event_order::extensions_are_whole();
    match replay(alloc, program, fuel, schedule) {
        Ok(played) => Ok(played),
        Err(ReplayError::NotEnabled { .. }) => unreachable!(),
        Err(ReplayError::NoMemory) => Err(NoMemory),
    }
}
