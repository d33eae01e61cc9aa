//! The arm that calls a live command.
ghost use Rattle.std.specs.Prelude.{◌≡◌, ◌+◌, ◌≤◌, length, IfErr, IfOk, None, Some};
ghost use Rattle.stride_cli.specs.GivesLive.{GivesLive, IsReportOf};
ghost use Rattle.stride_cli.specs.LimitsSeen.{limits_seen};
ghost use Rattle.stride_cli.specs.LiveLooks.{LiveLooks, OnUncounted};
ghost use Rattle.stride_cli.specs.Looks.{OnEarly, greatest_looks};

use crate::commands::bundle::bundle_program;
use crate::commands::demonstration::demonstrate_live;
use crate::commands::run::run_program;
use crate::limits::Limits;
use crate::refusal::Refusal;
use crate::words::Live;
use recorder::Gate;
use std::alloc::Global;
use std::sync::Wait;
use std::sync::ledger::Ledger;
use std::thread::Threads;
use stride_base::limits::INPUT_LIMIT;
use stride_base::{List, Steps};

/// The report of a live command on an input that was read.
pub fn live_report_of<R: Threads + Wait + Sync, G: Gate, L: Ledger>(
    rt: &R,
    alloc: Global,
    command: Live,
    limits: Limits,
    bytes: List<u8>,
    gate: &G,
    steps: &mut Steps<L>,
) -> Result<List<u8>, Refusal>
    requires { length bytes.items ≤ INPUT_LIMIT }
    ensures answer { GivesLive result (limits_seen limits) command bytes.items }
    ensures run { IfOk result (λ report. IsReportOf (limits_seen limits) command bytes.items report.items steps.old steps.new) }
    ensures early { IfErr result (λ refusal. OnEarly refusal (steps.new ≡ steps.old)) }
    ensures uncounted { OnUncounted (Some command) None (steps.new ≡ steps.old) }
    ensures looks { LiveLooks (limits_seen limits) command bytes.items steps.old steps.new }
    ensures ceiling { steps.new ≤ steps.old + greatest_looks }
{
    match command {
        Live::Run => run_program(rt, alloc, limits, bytes, gate, steps),
        Live::Bundle => bundle_program(rt, alloc, limits, bytes, gate),
        Live::Demo { number } => Ok(demonstrate_live(rt, alloc, number, gate, steps)?),
    }
}
