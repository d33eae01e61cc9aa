//! The logs of the threads, from the front of the bytes.
ghost use Rattle.std.specs.Prelude.{◌≡◌, ◌<◌, [], IfOk};
ghost use Rattle.log_format.specs.Answers.{Gives};
ghost use Rattle.log_format.specs.Bundles.{lists_of};
ghost use Rattle.log_format.specs.Reading.{entries_at, log_at, logs_at};

use crate::entries::{bound_after, entry_at};
use crate::fault::ReadError;
use crate::numbers::u32_up_to;
use crate::version::Version;
use interleavings::LogEntry;
use std::alloc::Global;
use stride_base::{List, NoMemory};

// An empty list with room for `count` items, but for no more than the bytes left can spell, of which each takes so many.
fn room_for<T: Drop>(
    alloc: Global,
    count: usize,
    left: usize,
    least: usize,
) -> Result<List<T>, NoMemory>
    requires { 0 < least }
    ensures { IfOk result (λ list. list.items ≡ []) }
{
    let mut list = List::new(alloc);
    list.reserve(count.min(left / least))?;
    Ok(list)
}

fn entries_at(
    alloc: Global,
    version: Version,
    count: u32,
    bytes: &[u8],
) -> Result<(List<LogEntry>, &[u8]), ReadError>
    ensures { Gives (λ x. (x.0.items, x.1.now)) result (entries_at version 0 count bytes.now) }
{
    let mut entries = room_for(alloc, count as usize, bytes.len(), version.least_entry())?;
    let mut before = 0;
    let mut rest = bytes;
    for _ in 0..count {
        let (entry, after) = entry_at(version, before, rest)?;
        entries.push(entry)?;
        before = bound_after(before, entry);
        rest = after;
    }
    Ok((entries, rest))
}

#[tactic(auto, unfolding(crate::specs::Reading::log_at))]
fn log_at(
    alloc: Global,
    version: Version,
    fuel: u32,
    bytes: &[u8],
) -> Result<(List<LogEntry>, &[u8]), ReadError>
    ensures { Gives (λ x. (x.0.items, x.1.now)) result (log_at version fuel bytes.now) }
{
    let (count, rest) = u32_up_to(version, fuel, bytes)?;
    entries_at(alloc, version, count, rest)
}

/// The logs of so many threads.
pub(crate) fn logs_at(
    alloc: Global,
    version: Version,
    fuel: u32,
    threads: u16,
    bytes: &[u8],
) -> Result<(List<List<LogEntry>>, &[u8]), ReadError>
    ensures { Gives (λ x. (lists_of x.0.items, x.1.now)) result (logs_at version fuel threads bytes.now) }
{
    let mut logs = room_for(alloc, threads as usize, bytes.len(), version.least_log())?;
    let mut rest = bytes;
    for _ in 0..threads {
        let (log, after) = log_at(alloc, version, fuel, rest)?;
        logs.push(log)?;
        rest = after;
    }
    Ok((logs, rest))
}
