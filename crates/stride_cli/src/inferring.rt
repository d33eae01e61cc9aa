//! What the logs of a bundle come to: an order of all events, or why there is none.
ghost use Rattle.std.specs.Prelude.{◌≡◌, ◌+◌, ◌*◌, ◌≤◌, length, IfOk, IfErr};
ghost use Rattle.linkage.specs.Sources.{event_count};
ghost use Rattle.stride_cli.specs.Bundles.{IsRerun, RefusesEvents};
ghost use Rattle.stride_cli.specs.Answers.{AnswersBundle, AnswersLinks, AnswersRun};
ghost use Rattle.stride_cli.specs.Gives.{RefusesBy};
ghost use Rattle.log_format.specs.Reading.{reading};
ghost use Rattle.stride_cli.specs.Inferring.{IsInferredOf, SchedulesEvents, Ordered};
ghost use Rattle.stride_cli.specs.Headline.{look_limit};

use crate::input::accept;
use crate::refusal::Refusal;
use event_order::{arrange, arrange_owned};
use interleavings::Traces;
use linkage::{Links, link};
use log_format::decode;
use std::alloc::Global;
use std::sync::ledger::Ledger;
use stride_base::limits::INPUT_LIMIT;
use stride_base::{List, Steps};
use stride_isa::Checked;
use stride_isa::limits::{FUEL_LIMIT, THREAD_LIMIT};
use thread_rerun::rerun;

/// An accepted program with its fuel, and the events of its threads.
#[derive(Drop)]
pub struct Rerunning {
    pub program: Checked,
    pub fuel: u32,
    pub traces: Traces,
}

/// Runs the threads of a bundle's program again, each by its log. The bytes are let go once they are decoded, and the logs at
/// the end, since what follows wants much memory.
pub fn rerun_bundle(alloc: Global, bytes: List<u8>) -> Result<Rerunning, Refusal>
    requires { length bytes.items ≤ INPUT_LIMIT }
    ensures rerun { IfOk result (λ rerun. IsRerun bytes.items rerun.program rerun.fuel rerun.traces) }
    ensures few { IfOk result (λ rerun. event_count rerun.traces ≤ THREAD_LIMIT * FUEL_LIMIT) }
    ensures infer { IfErr result (RefusesBy (AnswersBundle AnswersLinks (reading bytes.items))) }
    ensures replay { IfErr result (RefusesBy (AnswersBundle AnswersRun (reading bytes.items))) }
{
    let all = bytes.as_slice();
    let bundle = decode(alloc, all)?;
    drop(bytes);
    let text = bundle.text.as_slice();
    let program = accept(alloc, text)?;
    let rerun = rerun(alloc, &program, bundle.fuel, &bundle.logs)?;
    // The number isn't wanted here; the call tells that the events are within the limits.
    rerun.traces.threads();
    Ok(Rerunning {
        program,
        fuel: bundle.fuel,
        traces: rerun.traces,
    })
}

/// The links of all reads, and the schedule of all events.
#[derive(Drop)]
pub struct Order {
    pub links: Links,
    pub schedule: List<u8>,
}

/// Links the reads, and brings the events into the least order.
pub fn order_events<L: Ledger>(
    alloc: Global,
    traces: &Traces,
    steps: &mut Steps<L>,
) -> Result<Order, Refusal>
    ensures ordered { IfOk result (λ order. IsInferredOf traces.now (Ordered (record { links = order.links; schedule = order.schedule.items }))) }
    ensures refused { IfErr result (RefusesEvents traces.now) }
    ensures looks { steps.new ≤ steps.old + look_limit (event_count traces.now) }
{
    let links = link(alloc, traces, steps)?;
    let schedule = arrange(alloc, traces, &links, steps)?;
    Ok(Order { links, schedule })
}

/// The least order of the events, for which these and their links are let go.
pub fn schedule_events<L: Ledger>(
    alloc: Global,
    traces: Traces,
    steps: &mut Steps<L>,
) -> Result<List<u8>, Refusal>
    ensures scheduled { IfOk result (λ schedule. SchedulesEvents traces schedule.items) }
    ensures refused { IfErr result (RefusesEvents traces) }
    ensures looks { steps.new ≤ steps.old + look_limit (event_count traces) }
{
    let links = link(alloc, &traces, steps)?;
    let schedule = arrange_owned(alloc, traces, links, steps)?;
    Ok(schedule)
}
