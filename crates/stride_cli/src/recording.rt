//! Recordings by threads that run beside each other.
ghost use Rattle.std.specs.Prelude.{◌≤◌, length, IfOk};
ghost use Rattle.std.specs.List.{AllByRecursion};
ghost use Rattle.log_format.specs.Bundles.{lists_of};
ghost use Rattle.stride_cli.specs.Again.{IsLogged};
ghost use Rattle.stride_cli.specs.LimitsSeen.{limits_seen};

use crate::limits::Limits;
use interleavings::LogEntry;
use recorder::{Gate, Session};
use std::alloc::Global;
use std::sync::Wait;
use std::thread::Threads;
use stride_base::{List, NoMemory};
use stride_isa::Checked;
use stride_isa::limits::THREAD_LIMIT;

/// Records the program: each of its threads runs on a thread of its own. The logs of the recording.
pub fn record<R: Threads + Wait + Sync, G: Gate>(
    rt: &R,
    alloc: Global,
    program: &Checked,
    limits: Limits,
    gate: &G,
) -> Result<List<List<LogEntry>>, NoMemory>
    ensures recorded { IfOk result (λ logs. IsLogged (limits_seen limits) program.now (lists_of logs.items)) }
    ensures few { IfOk result (λ logs. length logs.items ≤ THREAD_LIMIT) }
    ensures short { IfOk result (λ logs. AllByRecursion (λ log. length log.items ≤ limits.fuel) logs.items) }
{
    let mut session = Session::reserve(alloc, program, limits.fuel, limits.patience)?;
    session.run_threads(rt, gate);
    Ok(session.finish().logs)
}
