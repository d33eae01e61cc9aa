//! `bundle`: a program recorded by threads that run beside each other, as a bundle.
ghost use Rattle.std.specs.Prelude.{◌≤◌, length, IfOk};
ghost use Rattle.std.specs.List.{AllByRecursion};
ghost use Rattle.log_format.specs.Bundles.{lists_of};
ghost use Rattle.stride_cli.specs.Again.{IsLogged};
ghost use Rattle.stride_cli.specs.Answers.{done};
ghost use Rattle.stride_cli.specs.GivesLive.{GivesLive};
ghost use Rattle.stride_cli.specs.LimitsSeen.{limits_seen};
ghost use Rattle.stride_cli.specs.LiveAnswers.{AnswersLiveBundle};
ghost use Rattle.stride_cli.specs.declared.words.Live.TheVariants.{Bundle as Bundling};

use crate::input::accept;
use crate::limits::Limits;
use crate::recording::record;
use crate::refusal::Refusal;
use assembler::print_program;
use interleavings::LogEntry;
use log_format::{Bundle, encode};
use recorder::Gate;
use std::alloc::Global;
use std::sync::Wait;
use std::thread::Threads;
use stride_base::limits::INPUT_LIMIT;
use stride_base::{List, NoMemory};
use stride_isa::Checked;
use stride_isa::limits::THREAD_LIMIT;

/// The bundle of a recording with these logs, with the program's canonical text.
fn spell_recording(
    alloc: Global,
    program: &Checked,
    limits: Limits,
    logs: List<List<LogEntry>>,
) -> Result<List<u8>, NoMemory>
    requires recorded { IsLogged (limits_seen limits) program.now (lists_of logs.items) }
    requires few { length logs.items ≤ THREAD_LIMIT }
    requires short { AllByRecursion (λ log. length log.items ≤ limits.fuel) logs.items }
    ensures { IfOk result (λ report. AnswersLiveBundle (limits_seen limits) program.now (done report.items)) }
{
    let text = print_program(alloc, program)?;
    let bundle = Bundle {
        fuel: limits.fuel,
        text,
        logs,
    };
    encode(alloc, &bundle)
}

/// The bundle of a recording of the program that the bytes spell. The bytes are let go before the threads start.
pub fn bundle_program<R: Threads + Wait + Sync, G: Gate>(
    rt: &R,
    alloc: Global,
    limits: Limits,
    bytes: List<u8>,
    gate: &G,
) -> Result<List<u8>, Refusal>
    requires { length bytes.items ≤ INPUT_LIMIT }
    ensures { GivesLive result (limits_seen limits) Bundling bytes.items }
{
    let given = bytes.as_slice();
    let program = accept(alloc, given)?;
    drop(bytes);
    let logs = record(rt, alloc, &program, limits, gate)?;
    Ok(spell_recording(alloc, &program, limits, logs)?)
}
