//! `replay`: the run of a bundle's events in their least order.
ghost use Rattle.std.specs.Prelude.{◌≡◌, ◌+◌, ◌≤◌, length, IfErr};
ghost use Rattle.log_format.specs.Reading.{reading};
ghost use Rattle.stride_cli.specs.Answers.{AnswersBundle, AnswersRun};
ghost use Rattle.stride_cli.specs.Gives.{GivesBy};
ghost use Rattle.stride_cli.specs.Headline.{look_limit};
ghost use Rattle.stride_cli.specs.Looks.{OnEarly, bundle_looks, greatest_looks};

use crate::inferring::{rerun_bundle, schedule_events};
use crate::refusal::Refusal;
use crate::replaying::replay_events;
use crate::reports::put_replay;
use std::alloc::Global;
use std::sync::ledger::Ledger;
use stride_base::limits::INPUT_LIMIT;
use stride_base::{List, Steps};

/// The schedule of the bundle that the bytes spell, and what its run prints and how its threads end.
pub fn replay_bundle<L: Ledger>(
    alloc: Global,
    bytes: List<u8>,
    steps: &mut Steps<L>,
) -> Result<List<u8>, Refusal>
    requires { length bytes.items ≤ INPUT_LIMIT }
    ensures answer { GivesBy result (AnswersBundle AnswersRun (reading bytes.items)) }
    ensures early { IfErr result (λ refusal. OnEarly refusal (steps.new ≡ steps.old)) }
    ensures looks { steps.new ≤ steps.old + bundle_looks look_limit (reading bytes.items) }
    ensures ceiling { steps.new ≤ steps.old + greatest_looks }
{
    let rerun = rerun_bundle(alloc, bytes)?;
    let order = schedule_events(alloc, rerun.traces, steps)?;
    let schedule = order.as_slice();
    let played = replay_events(alloc, &rerun.program, rerun.fuel, schedule)?;
    let mut report = List::new(alloc);
    put_replay(&mut report, schedule, &played)?;
    Ok(report)
}
