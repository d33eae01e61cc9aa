//! What threads logged.
ghost use Rattle.std.specs.Prelude.{◌≡◌, ◌+◌, ◌≤◌, ◌∷◌, [], ◌++◌, OnOk, decimal, length, map};
ghost use Rattle.stride_cli.specs.Reports.{entry_words, log_lines, logs_section};

use crate::reports::line::Line;
use interleavings::LogEntry;
use stride_base::{List, NoMemory};
use stride_isa::limits::THREAD_LIMIT;

/// Puts the words for an entry before what is written.
fn put_entry(line: &mut Line, entry: LogEntry)
    requires { length line.old ≤ 1 }
    ensures text { line.new ≡ entry_words entry ++ line.old }
    ensures short { length line.new ≤ length line.old + 48 }
{
    match entry {
        LogEntry::Read { bound, value } => {
            line.put_number(u64::from(bound));
            line.put(b" ");
            line.put_number(value);
            line.put(b"read ");
        }
        LogEntry::Write { number } => {
            line.put_number(u64::from(number));
            line.put(b"write ");
        }
        LogEntry::Update { number, old } => {
            line.put_number(u64::from(number));
            line.put(b" ");
            line.put_number(old);
            line.put(b"update ");
        }
        LogEntry::Enter { turn } => {
            line.put_number(u64::from(turn));
            line.put(b"enter ");
        }
    }
}

fn put_entry_line(report: &mut List<u8>, thread: u32, entry: LogEntry) -> Result<(), NoMemory>
    ensures { OnOk result (report.new.items ≡ report.old.items ++ (decimal thread ++ (32 ∷ (entry_words entry ++ 10 ∷ [])))) }
{
    let mut line = Line::new();
    put_entry(&mut line, entry);
    line.put(b" ");
    line.put_number(u64::from(thread));
    report.push_all(line.text())
}

fn put_log(report: &mut List<u8>, thread: u32, log: &[LogEntry]) -> Result<(), NoMemory>
    ensures { OnOk result (report.new.items ≡ report.old.items ++ log_lines thread log.now) }
{
    for entry in log {
        put_entry_line(report, thread, *entry)?;
    }
    Ok(())
}

/// Appends the section of the threads' logs.
pub fn put_logs(report: &mut List<u8>, logs: &[List<LogEntry>]) -> Result<(), NoMemory>
    requires { length logs.now ≤ THREAD_LIMIT }
    ensures { OnOk result (report.new.items ≡ report.old.items ++ logs_section (map (λ log. log.items) logs.now)) }
{
    report.push_all(b"logs\n")?;
    for (thread, log) in logs.iter().enumerate() {
        put_log(report, thread as u32, log.as_slice())?;
    }
    Ok(())
}
