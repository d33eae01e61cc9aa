//! `sim`: a program recorded by an order of atomic steps, and replayed.
ghost use Rattle.std.specs.Prelude.{◌≡◌, ◌+◌, ◌≤◌, length, IfErr, IfOk};
ghost use Rattle.interleavings.specs.Following.{follow_all};
ghost use Rattle.log_format.specs.Bundles.{lists_of};
ghost use Rattle.stride_cli.specs.Again.{AreRecorded};
ghost use Rattle.stride_cli.specs.Gives.{Gives};
ghost use Rattle.stride_cli.specs.LimitsSeen.{limits_seen};
ghost use Rattle.stride_cli.specs.Looks.{OnEarly, command_looks, followed_looks, greatest_looks, printing_looks};
ghost use Rattle.stride_cli.specs.Playing.{TellsLogs};
ghost use Rattle.stride_cli.specs.declared.words.Command.TheVariants.{Sim};

use crate::input::read_input;
use crate::limits::Limits;
use crate::recorded::{play_recorded, rerun_recorded};
use crate::refusal::Refusal;
use crate::reports::{put_links, put_logs, put_replay};
use interleavings::{LogEntry, drive};
use std::alloc::Global;
use std::sync::ledger::Ledger;
use stride_base::limits::INPUT_LIMIT;
use stride_base::{List, NoMemory, Steps};
use stride_isa::Checked;
use stride_isa::limits::THREAD_LIMIT;

/// The logs of a recording, the links of its reads, their schedule and its run.
fn report_logs<L: Ledger>(
    alloc: Global,
    program: &Checked,
    limits: Limits,
    logs: &List<List<LogEntry>>,
    steps: &mut Steps<L>,
) -> Result<List<u8>, NoMemory>
    requires recorded { AreRecorded (limits_seen limits) program.now (lists_of logs.now.items) }
    requires few { length logs.now.items ≤ THREAD_LIMIT }
    ensures told { IfOk result (λ report. TellsLogs program.now limits.fuel (lists_of logs.now.items) report.items) }
    ensures looks { steps.new ≤ steps.old + followed_looks printing_looks program.now (follow_all program.now limits.fuel (lists_of logs.now.items)) }
    ensures ceiling { steps.new ≤ steps.old + greatest_looks }
{
    let traces = rerun_recorded(alloc, program, limits, logs)?;
    let replayed = play_recorded(alloc, program, limits, &traces, steps)?;
    let mut report = List::new(alloc);
    put_logs(&mut report, logs.as_slice())?;
    put_links(&mut report, &traces, &replayed.order.links, steps)?;
    put_replay(
        &mut report,
        replayed.order.schedule.as_slice(),
        &replayed.played,
    )?;
    Ok(report)
}

/// The logs of the recording, the links of its reads, their schedule and its run, where the bytes are a program with an order
/// that names its threads.
pub fn simulate<L: Ledger>(
    alloc: Global,
    limits: Limits,
    bytes: &[u8],
    steps: &mut Steps<L>,
) -> Result<List<u8>, Refusal>
    requires { length bytes.now ≤ INPUT_LIMIT }
    ensures answer { Gives result (limits_seen limits) Sim bytes.now }
    ensures early { IfErr result (λ refusal. OnEarly refusal (steps.new ≡ steps.old)) }
    ensures looks { steps.new ≤ steps.old + command_looks (limits_seen limits) Sim bytes.now }
    ensures ceiling { steps.new ≤ steps.old + greatest_looks }
{
    interleavings::driven_is_a_history();
    interleavings::driven_is_followed();
    let input = read_input(alloc, bytes)?;
    let order = input.order.as_slice();
    let driven = drive(alloc, &input.program, limits.fuel, limits.patience, order)?;
    Ok(report_logs(alloc, &input.program, limits, &driven.logs, steps)?)
}
