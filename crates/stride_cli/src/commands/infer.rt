//! `infer`: the links of a bundle's reads, and the schedule of its events.
ghost use Rattle.std.specs.Prelude.{◌≡◌, ◌+◌, ◌≤◌, length, IfErr};
ghost use Rattle.log_format.specs.Reading.{reading};
ghost use Rattle.stride_cli.specs.Answers.{AnswersBundle, AnswersLinks};
ghost use Rattle.stride_cli.specs.Gives.{GivesBy};
ghost use Rattle.stride_cli.specs.Looks.{OnEarly, bundle_looks, greatest_looks, printing_looks};

use crate::inferring::{order_events, rerun_bundle};
use crate::refusal::Refusal;
use crate::reports::{put_links, put_schedule};
use std::alloc::Global;
use std::sync::ledger::Ledger;
use stride_base::limits::INPUT_LIMIT;
use stride_base::{List, Steps};

/// The links and the schedule of the bundle that the bytes spell.
pub fn infer_bundle<L: Ledger>(
    alloc: Global,
    bytes: List<u8>,
    steps: &mut Steps<L>,
) -> Result<List<u8>, Refusal>
    requires { length bytes.items ≤ INPUT_LIMIT }
    ensures answer { GivesBy result (AnswersBundle AnswersLinks (reading bytes.items)) }
    ensures early { IfErr result (λ refusal. OnEarly refusal (steps.new ≡ steps.old)) }
    ensures looks { steps.new ≤ steps.old + bundle_looks printing_looks (reading bytes.items) }
    ensures ceiling { steps.new ≤ steps.old + greatest_looks }
{
    let rerun = rerun_bundle(alloc, bytes)?;
    let order = order_events(alloc, &rerun.traces, steps)?;
    let mut report = List::new(alloc);
    put_links(&mut report, &rerun.traces, &order.links, steps)?;
    put_schedule(&mut report, order.schedule.as_slice())?;
    Ok(report)
}
