//! The run of a schedule: what it prints, and how its threads end.
ghost use Rattle.std.specs.Prelude.{◌≡◌, ◌≤◌, ◌++◌, length, OnOk};
ghost use Rattle.replayer.specs.Replays.{seen};
ghost use Rattle.stride_cli.specs.Reports.{schedule_section};
ghost use Rattle.stride_cli.specs.Runs.{run_section};

use crate::reports::ends::put_ends;
use crate::reports::schedule::put_schedule;
use replayer::Replay;
use stride_base::{List, NoMemory};
use stride_isa::limits::THREAD_LIMIT;

/// Appends the sections of a run's transcript and ends.
pub fn put_run(report: &mut List<u8>, played: &Replay) -> Result<(), NoMemory>
    requires { length played.now.ends.items ≤ THREAD_LIMIT }
    ensures { OnOk result (report.new.items ≡ report.old.items ++ run_section (seen played.now)) }
{
    report.push_all(b"transcript\n")?;
    report.push_all(played.transcript.as_slice())?;
    put_ends(report, played.ends.as_slice())
}

/// Appends the sections of a schedule and of its run.
pub fn put_replay(report: &mut List<u8>, schedule: &[u8], played: &Replay) -> Result<(), NoMemory>
    requires { length played.now.ends.items ≤ THREAD_LIMIT }
    ensures { OnOk result (report.new.items ≡ report.old.items ++ (schedule_section schedule.now ++ run_section (seen played.now))) }
{
    put_schedule(report, schedule)?;
    put_run(report, played)
}
