//! `rerun`: all threads of a program, each by its log.
ghost use Rattle.std.specs.Prelude.{◌≡◌, ◌<◌, ◌≤◌, length, map, slice_index_or, IfNone, IfSome};
ghost use Rattle.thread_rerun.specs.Rerunning.{IsAnswer, again};
ghost use Rattle.thread_rerun.specs.Shows.{HasRoomFor, ThreadComes};

use crate::follower::Follower;
use crate::outcome::Rerun;
use crate::rerun_error::RerunError;
use crate::thread_following::follow_log;
use interleavings::{LogEntry, Traces};
use std::alloc::Global;
use stride_base::List;
use stride_isa::limits::FUEL_LIMIT;
use stride_isa::{Checked, each_cell_starts};

// The log of a thread, if it is there.
fn log_of(logs: &List<List<LogEntry>>, thread: u32) -> Option<&[LogEntry]>
    ensures some { IfSome result (λ log. thread < length logs.now.items) }
    ensures log { IfSome result (λ log. log.now ≡ slice_index_or (map (λ log. log.items) logs.now.items) thread log.now) }
    ensures none { IfNone result (length logs.now.items ≤ thread) }
{
    let log = logs.as_slice().get(thread as usize)?;
    Some(log.as_slice())
}

// Runs one thread again, and appends what it did.
fn rerun_thread(
    alloc: Global,
    program: &Checked,
    fuel: u32,
    thread: u32,
    log: &[LogEntry],
    rerun: &mut Rerun,
) -> Result<(), RerunError>
    requires thread { thread < length program.now.threads }
    requires some { 1 ≤ fuel }
    requires limit { fuel ≤ FUEL_LIMIT }
    requires room { HasRoomFor program.now thread rerun.old.traces }
    ensures { ThreadComes program.now fuel thread log.now rerun.old rerun.new result }
{
    let mut follower = Follower::start(alloc, program, thread, fuel)?;
    follow_log(&mut follower, log, thread, &mut rerun.traces)?;
    let (end, printed) = follower.thread.end();
    rerun.outputs.push(printed)?;
    rerun.ends.push(end)?;
    Ok(())
}

/// Runs each thread of the program again by its code, where its log answers its reads, writes, updates and entries into
/// monitors. Where the log is used up before one of these, the thread is stopped there.
pub fn rerun(
    alloc: Global,
    program: &Checked,
    fuel: u32,
    logs: &List<List<LogEntry>>,
) -> Result<Rerun, RerunError>
    requires some { 1 ≤ fuel }
    requires limit { fuel ≤ FUEL_LIMIT }
    ensures { IsAnswer result (again program.now fuel (map (λ log. log.items) logs.now.items)) }
{
    each_cell_starts();
    let mut rerun = Rerun {
        traces: Traces::new(alloc, program)?,
        outputs: List::new(alloc),
        ends: List::new(alloc),
    };
    let threads = program.threads();
    for thread in 0..threads {
        let Some(log) = log_of(logs, thread) else {
            return Err(RerunError::Diverges { thread, place: 0 });
        };
        rerun_thread(alloc, program, fuel, thread, log, &mut rerun)?;
    }
    if logs.len() > threads as usize {
        return Err(RerunError::Diverges {
            thread: threads,
            place: 0,
        });
    }
    Ok(rerun)
}
