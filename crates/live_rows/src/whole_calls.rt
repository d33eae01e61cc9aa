//! Whole calls of `stride` over devices in memory.
ghost use Rattle.std.specs.Prelude.{◌≡◌, ◌<◌};

use recorder::Gate;
use std::alloc::Global;
use std::marker::Brand;
use std::sync::Wait;
use std::sync::ledger::{Blank, Ledger};
use std::test::Fail;
use std::thread::Threads;
use stride_base::{MemSink, MemSource, Steps};
use stride_cli::stride;

/// The calls of the source and of the sink that fail, counted from 1, how many bytes the sink takes a call, and how many it holds.
#[derive(Clone, Copy)]
pub(crate) struct Devices<'d> {
    pub failing_reads: &'d [u32],
    pub failing_puts: &'d [u32],
    pub per_call: usize,
    pub room: usize,
}

/// Devices without a fault.
pub(crate) const AMPLE: Devices<'static> = Devices {
    failing_reads: &[],
    failing_puts: &[],
    per_call: 64,
    room: 1000,
};

/// The exit status of a call, and what the sink then holds.
#[derive(Drop)]
pub(crate) struct Ending {
    pub code: u8,
    pub held: Vec<u8>,
}

// How a call ends. Its counter is made from the blank.
fn ending_by<L: Ledger, R: Threads + Wait + Sync, G: Gate>(
    rt: &R,
    alloc: Global,
    words: &[&str],
    input: &[u8],
    devices: Devices<'_>,
    gate: &G,
    blank: Blank,
) -> Result<Ending, Fail>
    requires some_byte { 0 < devices.per_call }
    requires name { blank.name ≡ L.name }
    requires parts { blank.parts ≡ L.parts }
    requires some_part { 0 < blank.parts }
{
    let mut steps = Steps::<L>::new(rt, blank);
    let mut source = MemSource::new(alloc, input, devices.failing_reads)?;
    let mut sink = MemSink::new(alloc, devices.per_call, devices.room, devices.failing_puts)?;
    let status = stride(rt, alloc, words, &mut source, &mut sink, gate, &mut steps);
    Ok(Ending {
        code: status.code(),
        held: sink.bytes().to_vec(alloc)?,
    })
}

/// How a call ends.
pub(crate) fn ending_of<R: Threads + Wait + Sync, G: Gate>(
    rt: &R,
    alloc: Global,
    words: &[&str],
    input: &[u8],
    devices: Devices<'_>,
    gate: &G,
) -> Result<Ending, Fail>
    requires some_byte { 0 < devices.per_call }
{
    ending_by::<Brand, R, G>(rt, alloc, words, input, devices, gate, Blank::new(1))
}
