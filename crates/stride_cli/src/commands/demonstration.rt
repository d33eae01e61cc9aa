//! `demo`: a demonstration that is recorded and replayed, and what it came to.
ghost use Rattle.std.specs.Prelude.{◌≡◌, ◌+◌, ◌≤◌, IfOk, None, Ok, length, slice_get, unwrap_or};
ghost use Rattle.replayer.specs.Replays.{seen};
ghost use Rattle.demo.specs.Demo.{demo_program as program_of};
ghost use Rattle.interleavings.specs.DrivenSeen.{recording_seen};
ghost use Rattle.interleavings.specs.Driving.{driven as driven_by, stranger};
ghost use Rattle.interleavings.specs.Following.{follow_all};
ghost use Rattle.log_format.specs.Bundles.{lists_of};
ghost use Rattle.stride_cli.specs.Again.{AreRecorded};
ghost use Rattle.stride_cli.specs.Answers.{AnswersDemo, done, setting_of};
ghost use Rattle.stride_cli.specs.Headline.{IsRecordedRun, look_limit};
ghost use Rattle.stride_cli.specs.LimitsSeen.{limits_seen};
ghost use Rattle.stride_cli.specs.LiveLooks.{RunLooks};
ghost use Rattle.stride_cli.specs.Looks.{demo_looks, followed_looks, greatest_looks};
ghost use Rattle.stride_cli.specs.Playing.{TellsSummary};
ghost use Rattle.stride_cli.specs.Reports.{summary_report};
ghost use Rattle.stride_cli.specs.Settings.{demo_limits};

use crate::limits::Limits;
use crate::recorded::{play_recorded, rerun_recorded};
use crate::recording::record;
use crate::reports::{Summary, halted, put_summary};
use demo::{demo_order, demo_program};
use interleavings::{DriveError, Driven, LogEntry, drive};
use recorder::Gate;
use replayer::Replay;
use std::alloc::Global;
use std::sync::Wait;
use std::sync::ledger::Ledger;
use std::thread::Threads;
use stride_base::limits::ORDER_LIMIT;
use stride_base::{List, NoMemory, Steps};
use stride_isa::Checked;

// The last value of cell 0, or 0 where there is none.
fn total_of(played: &Replay) -> u64
    ensures { result ≡ unwrap_or (slice_get (seen played.now).last_values 0) 0 }
{
    played.last_values.as_slice().get(0).copied().unwrap_or(0)
}

/// The summary of a recording with these logs: of the run by the schedule to which they come.
fn summarize<L: Ledger>(
    alloc: Global,
    program: &Checked,
    limits: Limits,
    logs: &List<List<LogEntry>>,
    steps: &mut Steps<L>,
) -> Result<List<u8>, NoMemory>
    requires recorded { AreRecorded (limits_seen limits) program.now (lists_of logs.now.items) }
    ensures told { IfOk result (λ report. TellsSummary program.now limits.fuel (lists_of logs.now.items) report.items steps.old steps.new) }
    ensures looks { steps.new ≤ steps.old + followed_looks look_limit program.now (follow_all program.now limits.fuel (lists_of logs.now.items)) }
    ensures ceiling { steps.new ≤ steps.old + greatest_looks }
{
    event_order::extensions_are_whole();
    let traces = rerun_recorded(alloc, program, limits, logs)?;
    let replayed = play_recorded(alloc, program, limits, &traces, steps)?;
    let mut report = List::new(alloc);
    let summary = Summary {
        threads: program.threads(),
        events: replayed.order.schedule.len() as u64,
        halted: halted(replayed.played.ends.as_slice()) as u64,
        total: total_of(&replayed.played),
    };
    put_summary(&mut report, summary)?;
    Ok(report)
}

// Records a program by an order that names its threads alone.
fn drive_known(
    alloc: Global,
    program: &Checked,
    limits: Limits,
    order: &[u8],
) -> Result<Driven, NoMemory>
    requires known { stranger (length program.now.threads) order.now ≡ None }
    requires short { length order.now ≤ ORDER_LIMIT }
    ensures { IfOk result (λ driven. recording_seen driven ≡ driven_by (setting_of (limits_seen limits) program.now) order.now) }
{
    match drive(alloc, program, limits.fuel, limits.patience, order) {
        Ok(driven) => Ok(driven),
        Err(DriveError::NoSuchThread { place: _ }) => unreachable!(),
        Err(DriveError::NoMemory) => Err(NoMemory),
    }
}

/// The summary of the demonstration of a number, recorded by its order on this thread.
pub fn demonstrate<L: Ledger>(
    alloc: Global,
    number: u64,
    steps: &mut Steps<L>,
) -> Result<List<u8>, NoMemory>
    ensures answer { IfOk result (λ report. AnswersDemo number (done report.items)) }
    ensures looks { steps.new ≤ steps.old + demo_looks number }
    ensures ceiling { steps.new ≤ steps.old + greatest_looks }
{
    interleavings::driven_is_a_history();
    interleavings::driven_is_followed();
    let program = demo_program(alloc, number)?;
    let order = demo_order(alloc, number)?;
    let limits = Limits::of_demonstrations();
    let driven = drive_known(alloc, &program, limits, order.as_slice())?;
    summarize(alloc, &program, limits, &driven.logs, steps)
}

/// The summary of the demonstration of a number, recorded by threads that run beside each other.
pub fn demonstrate_live<R: Threads + Wait + Sync, G: Gate, L: Ledger>(
    rt: &R,
    alloc: Global,
    number: u64,
    gate: &G,
    steps: &mut Steps<L>,
) -> Result<List<u8>, NoMemory>
    ensures run { IfOk result (λ report. IsRecordedRun demo_limits (program_of number) (summary_report (program_of number)) report.items steps.old steps.new) }
    ensures looks { RunLooks demo_limits (Ok (program_of number)) steps.old steps.new }
    ensures ceiling { steps.new ≤ steps.old + greatest_looks }
{
    history_laws::recordings_are_runs();
    let program = demo_program(alloc, number)?;
    let limits = Limits::of_demonstrations();
    let logs = record(rt, alloc, &program, limits, gate)?;
    summarize(alloc, &program, limits, &logs, steps)
}
