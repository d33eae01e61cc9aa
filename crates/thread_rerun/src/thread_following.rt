//! Running one thread again.
ghost use Rattle.std.specs.Prelude.{◌≡◌, ◌<◌, ◌≤◌, length, slice_get};
ghost use Rattle.interleavings.specs.TraceLists.{events_of};
ghost use Rattle.thread_rerun.specs.Shows.{IsOfProgram, Comes};

use crate::follower::Follower;
use crate::meeting::{Met, meet};
use crate::rerun_error::RerunError;
use interleavings::{LogEntry, Traces, event_makes_more};
use stride_isa::limits::FUEL_LIMIT;

fn entry_at(log: &[LogEntry], place: usize) -> Option<LogEntry>
    ensures { result ≡ slice_get log.now place }
{
    log.get(place).copied()
}

/// Runs a thread from where it stands to where its log has no more for it, and appends its events.
pub(crate) fn follow_log(
    follower: &mut Follower<'_>,
    log: &[LogEntry],
    thread: u32,
    traces: &mut Traces,
) -> Result<(), RerunError>
    requires follower { follower.old.thread.number ≡ thread }
    requires limit { follower.old.thread.fuel ≤ FUEL_LIMIT }
    requires place { follower.old.place ≡ 0 }
    requires traces { IsOfProgram follower.old.thread.program traces.old }
    requires thread { thread < length traces.old.events }
    requires few { length (events_of traces.old thread) ≤ follower.old.thread.state.made }
    ensures { Comes follower.old follower.new log.now thread traces.old traces.new result }
{
    event_makes_more();
    loop {
        let next = entry_at(log, follower.place);
        match meet(follower.thread.stop(), next, &follower.turns) {
            Met::Makes { event } => {
                traces.push(thread, event)?;
                follower.go(event);
            }
            Met::Over => return Ok(()),
            Met::Off => {
                return Err(RerunError::Diverges {
                    thread,
                    place: follower.place as u32,
                });
            }
        }
    }
}
