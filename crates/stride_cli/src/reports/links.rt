//! Links of reads.
ghost use Rattle.std.specs.Prelude.{◌≡◌, ◌+◌, ◌<◌, ◌≤◌, ◌∷◌, [], ◌++◌, OnOk, decimal, length};
ghost use Rattle.linkage.specs.Links.{IsLinked, link_at, links_of};
ghost use Rattle.linkage.specs.Sources.{event_count};
ghost use Rattle.stride_cli.specs.Reports.{link_lines, links_section};

use crate::reports::line::Line;
use interleavings::{Place, Traces};
use linkage::Links;
use std::sync::ledger::Ledger;
use stride_base::{List, NoMemory, Steps};

fn put_link_line(report: &mut List<u8>, at: Place, number: u32) -> Result<(), NoMemory>
    ensures { OnOk result (report.new.items ≡ report.old.items ++ (decimal at.thread ++ (32 ∷ (decimal at.place ++ (32 ∷ (decimal number ++ 10 ∷ [])))))) }
{
    let mut line = Line::new();
    line.put_number(u64::from(number));
    line.put(b" ");
    line.put_number(u64::from(at.place));
    line.put(b" ");
    line.put_number(u64::from(at.thread));
    report.push_all(line.text())
}

fn put_link<L: Ledger>(
    report: &mut List<u8>,
    links: &Links,
    at: Place,
    steps: &mut Steps<L>,
) -> Result<(), NoMemory>
    requires thread { at.thread < length links.now }
    requires place { at.place < length (links_of links.now at.thread) }
    ensures line { OnOk result (report.new.items ≡ report.old.items ++ link_lines at.thread at.place (link_at links.now at ∷ [])) }
    ensures look { steps.new ≡ steps.old + 1 }
{
    match links.of(at, steps) {
        Some(number) => put_link_line(report, at, number),
        None => Ok(()),
    }
}

fn put_thread_links<L: Ledger>(
    report: &mut List<u8>,
    links: &Links,
    thread: u32,
    count: u32,
    steps: &mut Steps<L>,
) -> Result<(), NoMemory>
    requires thread { thread < length links.now }
    requires count { count ≡ length (links_of links.now thread) }
    ensures lines { OnOk result (report.new.items ≡ report.old.items ++ link_lines thread 0 (links_of links.now thread)) }
    ensures looks { steps.new ≤ steps.old + count }
{
    for place in 0..count {
        put_link(report, links, Place { thread, place }, steps)?;
    }
    Ok(())
}

/// Appends the section of the links of all reads.
pub fn put_links<L: Ledger>(
    report: &mut List<u8>,
    traces: &Traces,
    links: &Links,
    steps: &mut Steps<L>,
) -> Result<(), NoMemory>
    requires { IsLinked traces.now links.now }
    ensures section { OnOk result (report.new.items ≡ report.old.items ++ links_section links.now) }
    ensures looks { steps.new ≤ steps.old + event_count traces.now }
{
    report.push_all(b"links\n")?;
    for thread in 0..traces.threads() {
        put_thread_links(report, links, thread, traces.count(thread), steps)?;
    }
    Ok(())
}
