//! Recordings, which are always followed, linked and ordered.
ghost use Rattle.std.specs.Prelude.{◌+◌, ◌*◌, ◌≤◌, IfOk, length};
ghost use Rattle.linkage.specs.Sources.{event_count};
ghost use Rattle.log_format.specs.Bundles.{lists_of};
ghost use Rattle.replayer.specs.Replays.{seen};
ghost use Rattle.stride_cli.specs.Again.{AreRecorded, HasRecorded, IsRecorded, WereRecorded};
ghost use Rattle.stride_cli.specs.Inferring.{IsInferredOf, Ordered};
ghost use Rattle.stride_cli.specs.LimitsSeen.{limits_seen};
ghost use Rattle.stride_cli.specs.Headline.{look_limit};
ghost use Rattle.stride_cli.specs.Playing.{IsPlayed};

use crate::inferring::{Order, order_events};
use crate::limits::Limits;
use crate::refusal::Refusal;
use crate::replaying::replay_events;
use interleavings::{LogEntry, Traces};
use replayer::Replay;
use std::alloc::Global;
use std::sync::ledger::Ledger;
use stride_base::{List, NoMemory, Steps};
use stride_isa::Checked;
use stride_isa::limits::{FUEL_LIMIT, THREAD_LIMIT};
use thread_rerun::{RerunError, rerun};

/// Runs the threads again by the logs of a recording. No thread diverges from such a log.
pub fn rerun_recorded(
    alloc: Global,
    program: &Checked,
    limits: Limits,
    logs: &List<List<LogEntry>>,
) -> Result<Traces, NoMemory>
    requires { AreRecorded (limits_seen limits) program.now (lists_of logs.now.items) }
    ensures recorded { IfOk result (λ traces. IsRecorded (limits_seen limits) program.now (lists_of logs.now.items) traces) }
    ensures few { IfOk result (λ traces. event_count traces ≤ THREAD_LIMIT * FUEL_LIMIT) }
{
    program.facts();
    match rerun(alloc, program, limits.fuel, logs) {
        Ok(rerun) => {
            // The number isn't wanted here; the call tells that the events are within the limits.
            rerun.traces.threads();
            Ok(rerun.traces)
        }
        Err(RerunError::Diverges { .. }) => unreachable!(),
        Err(RerunError::NoMemory) => Err(NoMemory),
    }
}

/// Links the reads of a recording, and brings its events into the least order. Nothing of them is refused.
pub fn order_recorded<L: Ledger>(
    alloc: Global,
    program: &Checked,
    traces: &Traces,
    steps: &mut Steps<L>,
) -> Result<Order, NoMemory>
    requires { HasRecorded program.now traces.now }
    ensures ordered { IfOk result (λ order. IsInferredOf traces.now (Ordered (record { links = order.links; schedule = order.schedule.items }))) }
    ensures looks { steps.new ≤ steps.old + look_limit (event_count traces.now) }
{
    event_order::followed_are_in_range();
    history_laws::recordings_are_histories();
    history_laws::histories_are_linked();
    history_laws::histories_are_ordered();
    match order_events(alloc, traces, steps) {
        Ok(order) => Ok(order),
        Err(Refusal::NoMemory) => Err(NoMemory),
        Err(Refusal::NoLinkage { .. }) => unreachable!(),
        Err(Refusal::Program { .. }) => unreachable!(),
        Err(Refusal::Bundle { .. }) => unreachable!(),
        Err(Refusal::Diverges { .. }) => unreachable!(),
        Err(Refusal::NotEnabled { .. }) => unreachable!(),
    }
}

/// The order of a recording's events, and the run by their schedule.
#[derive(Drop)]
pub struct Replayed {
    pub order: Order,
    pub played: Replay,
}

/// Brings the events of a recording into their least order, and runs the threads by it. Each turn can be taken.
pub fn play_recorded<L: Ledger>(
    alloc: Global,
    program: &Checked,
    limits: Limits,
    traces: &Traces,
    steps: &mut Steps<L>,
) -> Result<Replayed, NoMemory>
    requires { WereRecorded (limits_seen limits) program.now traces.now }
    ensures played { IfOk result (λ replayed. IsPlayed program.now limits.fuel traces.now (record { links = replayed.order.links; schedule = replayed.order.schedule.items }) (seen replayed.played)) }
    ensures threads { IfOk result (λ replayed. length replayed.played.ends.items ≤ THREAD_LIMIT) }
    ensures looks { steps.new ≤ steps.old + look_limit (event_count traces.now) }
{
    program.facts();
    let order = order_recorded(alloc, program, traces, steps)?;
    let played = replay_events(alloc, program, limits.fuel, order.schedule.as_slice())?;
    Ok(Replayed { order, played })
}
