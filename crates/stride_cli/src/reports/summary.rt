//! The summary of a demonstration.
ghost use Rattle.std.specs.Prelude.{◌≡◌, ◌++◌, OnOk};
ghost use Rattle.stride_cli.specs.Reports.{count_line, halted_count, is_halted as has_halted, summary_lines};

use itoa::Buffer;
use sc_machine::End;
use stride_base::{List, NoMemory};

/// What a demonstration came to.
#[derive(Clone, Copy)]
pub struct Summary {
    pub threads: u32,
    pub events: u64,
    /// How many threads ended by their `halt`.
    pub halted: u64,
    pub total: u64,
}

fn is_halted(end: End) -> bool
    ensures { result ≡ has_halted end }
{
    match end {
        End::Halted => true,
        End::Trapped { trap: _, pc: _ } | End::OutOfSteps | End::Stopped { pc: _ } => false,
    }
}

/// How many of the ends are by a `halt`.
pub fn halted(ends: &[End]) -> usize
    ensures { result ≡ halted_count ends.now }
{
    ends.iter().filter(|end| is_halted(**end)).count()
}

fn put_count(report: &mut List<u8>, word: &[u8], count: u64) -> Result<(), NoMemory>
    ensures { OnOk result (report.new.items ≡ report.old.items ++ count_line word.now count) }
{
    report.push_all(word)?;
    report.push_all(Buffer::new().format(count).as_bytes())?;
    report.push(b'\n')
}

/// Appends the lines of a summary.
pub fn put_summary(report: &mut List<u8>, summary: Summary) -> Result<(), NoMemory>
    ensures { OnOk result (report.new.items ≡ report.old.items ++ summary_lines summary.threads summary.events summary.halted summary.total) }
{
    put_count(report, b"threads ", u64::from(summary.threads))?;
    put_count(report, b"events ", summary.events)?;
    put_count(report, b"halted ", summary.halted)?;
    put_count(report, b"total ", summary.total)
}
