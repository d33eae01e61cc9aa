//! Schedules.
ghost use Rattle.std.specs.Prelude.{◌≡◌, ◌++◌, OnOk};
ghost use Rattle.stride_cli.specs.Reports.{run_line, run_lines, schedule_section};

use crate::reports::line::Line;
use itoa::Buffer;
use stride_base::{List, NoMemory};

fn put_run_line(report: &mut List<u8>, thread: u8, count: u64) -> Result<(), NoMemory>
    ensures { OnOk result (report.new.items ≡ report.old.items ++ run_line thread count) }
{
    let mut line = Line::new();
    line.put_number(count);
    line.put(b"*");
    line.put_number(u64::from(thread));
    report.push_all(line.text())
}

fn put_runs(report: &mut List<u8>, first: u8, rest: &[u8]) -> Result<(), NoMemory>
    ensures { OnOk result (report.new.items ≡ report.old.items ++ run_lines first 1 rest.now) }
{
    let mut thread = first;
    let mut count = 1;
    for next in rest {
        if *next == thread {
            count += 1;
        } else {
            put_run_line(report, thread, count)?;
            thread = *next;
            count = 1;
        }
    }
    put_run_line(report, thread, count)
}

/// Appends the section of a schedule.
pub fn put_schedule(report: &mut List<u8>, schedule: &[u8]) -> Result<(), NoMemory>
    ensures { OnOk result (report.new.items ≡ report.old.items ++ schedule_section schedule.now) }
{
    report.push_all(b"schedule ")?;
    report.push_all(Buffer::new().format(schedule.len()).as_bytes())?;
    report.push(b'\n')?;
    match schedule {
        [] => Ok(()),
        [first, rest @ ..] => put_runs(report, *first, rest),
    }
}
