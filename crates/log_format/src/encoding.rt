//! `encode`: the bytes of a bundle in version 2.
ghost use Rattle.std.specs.Prelude.{◌≡◌, ◌<◌, ◌^◌, ◌++◌, All, length, IfOk, OnOk};
ghost use Rattle.std.specs.List.{flat_map};
ghost use Rattle.log_format.specs.Bundles.{bundled, lists_of, IsBytes, IsEntryOf, IsInRange, IsWithin};
ghost use Rattle.log_format.specs.Spelling.{bound_bytes, entries_bytes, entry_bytes, log_bytes, number_bytes, spelling, step_between, text_bytes};
ghost use Rattle.log_format.specs.declared.version.Size.TheVariants.{Bits64};
ghost use Rattle.log_format.specs.declared.version.Version.TheVariants.{Two};

use crate::bundle::Bundle;
use crate::entries::bound_after;
use interleavings::LogEntry;
use std::alloc::Global;
use stride_base::{List, NoMemory};

// A number of any size.
fn put_number(out: &mut List<u8>, number: u64) -> Result<(), NoMemory>
    ensures { OnOk result (out.new.items ≡ out.old.items ++ number_bytes Two Bits64 number) }
{
    let mut higher = number;
    while higher >= 128 {
        out.push((higher % 128) as u8 + 128)?;
        higher /= 128;
    }
    out.push(higher as u8)
}

fn step_between(before: u32, bound: u32) -> u64
    ensures { result ≡ step_between before bound }
{
    if bound < before {
        2 * u64::from(before - bound) - 1
    } else {
        2 * u64::from(bound - before)
    }
}

fn put_entry(out: &mut List<u8>, before: u32, entry: LogEntry) -> Result<(), NoMemory>
    ensures written { OnOk result (out.new.items ≡ out.old.items ++ entry_bytes Two before entry) }
    ensures fits { IsEntryOf Two entry }
{
    match entry {
        LogEntry::Read { bound, value } => {
            out.push(1)?;
            put_number(out, value)?;
            put_number(out, step_between(before, bound))
        }
        LogEntry::Write { number } => {
            out.push(2)?;
            put_number(out, u64::from(number))
        }
        LogEntry::Enter { turn } => {
            out.push(3)?;
            put_number(out, u64::from(turn))
        }
        LogEntry::Update { number, old } => {
            out.push(4)?;
            put_number(out, old)?;
            put_number(out, u64::from(number))
        }
    }
}

fn put_entries(out: &mut List<u8>, entries: &[LogEntry]) -> Result<(), NoMemory>
    ensures written { OnOk result (out.new.items ≡ out.old.items ++ entries_bytes Two 0 entries.now) }
    ensures fit { OnOk result (All (IsEntryOf Two) entries.now) }
{
    let mut before = 0;
    for entry in entries {
        put_entry(out, before, *entry)?;
        before = bound_after(before, *entry);
    }
    Ok(())
}

fn put_log(out: &mut List<u8>, log: &List<LogEntry>) -> Result<(), NoMemory>
    ensures written { OnOk result (out.new.items ≡ out.old.items ++ log_bytes Two log.now.items) }
    ensures fit { OnOk result (All (IsEntryOf Two) log.now.items) }
{
    put_number(out, log.len() as u64)?;
    put_entries(out, log.as_slice())
}

fn put_logs(out: &mut List<u8>, logs: &[List<LogEntry>]) -> Result<(), NoMemory>
    ensures written { OnOk result (out.new.items ≡ out.old.items ++ flat_map (log_bytes Two) (lists_of logs.now)) }
    ensures fit { OnOk result (All (λ log. All (IsEntryOf Two) log.items) logs.now) }
{
    for log in logs {
        put_log(out, log)?;
    }
    Ok(())
}

fn put_text(out: &mut List<u8>, text: &[u8]) -> Result<(), NoMemory>
    ensures written { OnOk result (out.new.items ≡ out.old.items ++ text_bytes Two text.now) }
    ensures fit { IsBytes text.now }
{
    put_number(out, text.len() as u64)?;
    out.push_all(text)
}

/// The one spelling in version 2 of a bundle that is within the ranges of the format, which reads as this bundle.
pub fn encode(alloc: Global, bundle: &Bundle) -> Result<List<u8>, NoMemory>
    requires { IsWithin (bundled bundle.now) }
    ensures spelled { IfOk result (λ bytes. bytes.items ≡ spelling Two (bundled bundle.now)) }
    ensures in_range { IfOk result (λ _. IsInRange Two (bundled bundle.now)) }
{
    let mut out = List::new(alloc);
    out.push_all(b"STRIDE2\n")?;
    put_number(&mut out, u64::from(bundle.fuel))?;
    put_text(&mut out, bundle.text.as_slice())?;
    put_number(&mut out, bundle.logs.len() as u64)?;
    put_logs(&mut out, bundle.logs.as_slice())?;
    Ok(out)
}
