//! `follow` on an input in memory.
ghost use Rattle.std.specs.Prelude.{◌≡◌, ◌<◌};

use crate::plain_machine::Played;
use std::alloc::Global;
use std::marker::Brand;
use std::sync::Wait;
use std::sync::ledger::{Blank, Ledger};
use std::test::Fail;
use std::thread::Threads;
use stride_base::{MemSink, MemSource, Steps};
use stride_cli::{Status, offline};

/// More than any report of these tests has.
const ROOM: usize = 1_000_000;

fn followed_by<L: Ledger, R: Threads + Wait + Sync>(
    rt: &R,
    alloc: Global,
    input: &[u8],
    blank: Blank,
) -> Result<Played, Fail>
    requires name { blank.name ≡ L.name }
    requires parts { blank.parts ≡ L.parts }
    requires some_part { 0 < blank.parts }
{
    let mut steps = Steps::<L>::new(rt, blank);
    let mut source = MemSource::new(alloc, input, &[])?;
    let mut sink = MemSink::new(alloc, ROOM, ROOM, &[])?;
    match offline(alloc, &["follow"], &mut source, &mut sink, &mut steps) {
        Status::Done => Ok(Played::Report(String::from_utf8(sink.bytes().to_vec(alloc)?)?)),
        Status::NotEnabled { place, fault } => Ok(Played::Refused(place, fault)),
        Status::Usage
        | Status::ReadFault
        | Status::TooLong
        | Status::Program { .. }
        | Status::Bundle { .. }
        | Status::Diverges { .. }
        | Status::NoLinkage { .. }
        | Status::WriteFault
        | Status::NoMemory => Err("neither a report nor a refused place")?,
    }
}

/// What `follow` makes of a program and an order.
pub(crate) fn followed<R: Threads + Wait + Sync>(
    rt: &R,
    alloc: Global,
    input: &[u8],
) -> Result<Played, Fail> {
    followed_by::<Brand, R>(rt, alloc, input, Blank::new(1))
}
