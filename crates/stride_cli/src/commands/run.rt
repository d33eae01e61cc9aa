//! `run`: a program recorded by threads that run beside each other, and the recording replayed.
ghost use Rattle.std.specs.Prelude.{◌≡◌, ◌+◌, ◌≤◌, length, IfErr, IfOk, Ok};
ghost use Rattle.log_format.specs.Bundles.{lists_of};
ghost use Rattle.stride_cli.specs.Again.{IsLogged};
ghost use Rattle.stride_cli.specs.GivesLive.{GivesLive, IsRunOf};
ghost use Rattle.stride_cli.specs.Headline.{IsRecordedRun};
ghost use Rattle.stride_cli.specs.LimitsSeen.{limits_seen};
ghost use Rattle.stride_cli.specs.LiveLooks.{LiveLooks, RunLooks};
ghost use Rattle.stride_cli.specs.Looks.{OnEarly, greatest_looks};
ghost use Rattle.stride_cli.specs.Reports.{replay_report};
ghost use Rattle.stride_cli.specs.declared.words.Live.TheVariants.{Run};

use crate::input::accept;
use crate::limits::Limits;
use crate::recorded::{play_recorded, rerun_recorded};
use crate::recording::record;
use crate::refusal::Refusal;
use crate::reports::put_replay;
use interleavings::LogEntry;
use recorder::Gate;
use std::alloc::Global;
use std::sync::Wait;
use std::sync::ledger::Ledger;
use std::thread::Threads;
use stride_base::limits::INPUT_LIMIT;
use stride_base::{List, NoMemory, Steps};
use stride_isa::Checked;

/// The schedule of a recording with these logs, and what its run prints and how its threads end. The logs are let go once they are
/// run again.
fn report_recording<L: Ledger>(
    alloc: Global,
    program: &Checked,
    limits: Limits,
    logs: List<List<LogEntry>>,
    steps: &mut Steps<L>,
) -> Result<List<u8>, NoMemory>
    requires { IsLogged (limits_seen limits) program.now (lists_of logs.items) }
    ensures run { IfOk result (λ report. IsRecordedRun (limits_seen limits) program.now replay_report report.items steps.old steps.new) }
    ensures looks { RunLooks (limits_seen limits) (Ok program.now) steps.old steps.new }
    ensures ceiling { steps.new ≤ steps.old + greatest_looks }
{
    event_order::extensions_are_whole();
    history_laws::recordings_are_runs();
    let traces = rerun_recorded(alloc, program, limits, &logs)?;
    drop(logs);
    let replayed = play_recorded(alloc, program, limits, &traces, steps)?;
    let mut report = List::new(alloc);
    put_replay(
        &mut report,
        replayed.order.schedule.as_slice(),
        &replayed.played,
    )?;
    Ok(report)
}

/// The schedule of a recording of the program that the bytes spell, and what its run prints and how its threads end. The bytes are let
/// go before the threads start.
pub fn run_program<R: Threads + Wait + Sync, G: Gate, L: Ledger>(
    rt: &R,
    alloc: Global,
    limits: Limits,
    bytes: List<u8>,
    gate: &G,
    steps: &mut Steps<L>,
) -> Result<List<u8>, Refusal>
    requires { length bytes.items ≤ INPUT_LIMIT }
    ensures answer { GivesLive result (limits_seen limits) Run bytes.items }
    ensures run { IfOk result (λ report. IsRunOf (limits_seen limits) bytes.items report.items steps.old steps.new) }
    ensures early { IfErr result (λ refusal. OnEarly refusal (steps.new ≡ steps.old)) }
    ensures looks { LiveLooks (limits_seen limits) Run bytes.items steps.old steps.new }
    ensures ceiling { steps.new ≤ steps.old + greatest_looks }
{
    let text = bytes.as_slice();
    let program = accept(alloc, text)?;
    drop(bytes);
    let logs = record(rt, alloc, &program, limits, gate)?;
    Ok(report_recording(alloc, &program, limits, logs, steps)?)
}
