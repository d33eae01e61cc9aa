//! Recordings that are bundled, and run again from their bundles.
ghost use Rattle.std.specs.Prelude.{◌≤◌, All, IsTrue, length};
ghost use Rattle.log_format.specs.Bundles.{bundled, IsWithin};

use crate::rerun_rows::{WRITING, program_of};
use assembler::print_program;
use interleavings::{Driven, LogEntry, drive};
use log_format::{Bundle, decode, encode};
use sc_machine::End;
use std::alloc::{AllocError, Global};
use std::fmt::Write;
use std::test::Fail;
use stride_base::List;
use stride_base::limits::ORDER_LIMIT;
use stride_isa::Checked;
use stride_isa::limits::{FUEL_LIMIT, THREAD_LIMIT};
use thread_rerun::{Rerun, rerun};

/// The bundle of the program that writes 4 and reads it, with its logs.
const WRITTEN: [u8; 67] =
    *b"STRIDE2\n\xa0\x8d\x06\x30var x 0\nthread\npush 4\nwrite x\nread x\nprint\nhalt\n\x01\x02\x02\x01\x01\x04\x02";

/// How many instructions each thread may make.
const FUEL: u32 = 100_000;

/// The recording of a program by an order of atomic steps.
fn recording(alloc: Global, program: &Checked, order: &[u8]) -> Result<Driven, Fail> {
    if order.len() > ORDER_LIMIT {
        return Err("a long order")?;
    }
    Ok(drive(alloc, program, FUEL, 1000, order)?)
}

/// Whether each log has at most so many entries.
fn are_short(logs: &[List<LogEntry>], limit: u32) -> bool
    ensures { IsTrue result → All (λ log. length log.items ≤ limit) logs.now }
{
    logs.iter().all(|log| log.len() <= limit as usize)
}

/// Whether the format can spell the bundle.
fn can_be_spelled(bundle: &Bundle) -> bool
    ensures { IsTrue result → IsWithin (bundled bundle.now) }
{
    1 <= bundle.fuel
        && bundle.fuel <= FUEL_LIMIT
        && bundle.text.len() <= 10_000
        && bundle.logs.len() <= THREAD_LIMIT
        && are_short(bundle.logs.as_slice(), bundle.fuel)
}

/// The bundle of a program with these logs.
fn bundle_of(alloc: Global, program: &Checked, logs: List<List<LogEntry>>) -> Result<Bundle, Fail> {
    Ok(Bundle {
        fuel: FUEL,
        text: print_program(alloc, program)?,
        logs,
    })
}

fn bytes_of(alloc: Global, bundle: &Bundle) -> Result<List<u8>, Fail> {
    if !can_be_spelled(bundle) {
        return Err("a bundle that the format can't spell")?;
    }
    Ok(encode(alloc, bundle)?)
}

#[test]
fn a_recording_is_bundled(rt: HostRuntime) -> Result<(), Fail> {
    let program = program_of(rt.alloc(), WRITING)?;
    let driven = recording(rt.alloc(), &program, &[0; 8])?;
    let bundle = bundle_of(rt.alloc(), &program, driven.logs)?;
    let bytes = bytes_of(rt.alloc(), &bundle)?;
    assert!(rt; bytes.as_slice() == WRITTEN.as_slice());
    Ok(())
}

/// Sixteen threads, each of which writes two hundred values of its own into one variable, reads it and prints what it read.
fn writers(alloc: Global) -> Result<String, AllocError> {
    let mut text = String::from_str(alloc, "var x\n")?;
    for thread in 0..16 {
        writeln!(
            text,
            "thread\npush 200\nset 0\nagain:\nget 0\npush 16\nmul\npush {thread}\nadd\nwrite x\nget 0\npush 1\nsub\nset 0\nget 0\njnz again\nread x\nprint\nhalt"
        )?;
    }
    Ok(text)
}

/// Sixteen threads in turn, so often.
fn in_turn(alloc: Global, rounds: u32) -> Result<Vec<u8>, AllocError> {
    let mut order = Vec::new(alloc);
    for _ in 0..rounds {
        for thread in 0..16 {
            order.push(thread)?;
        }
    }
    Ok(order)
}

/// Whether the lists are the same, one by one.
fn are_alike<T: PartialEq>(left: &[List<T>], right: &[List<T>]) -> bool {
    left.len() == right.len()
        && left
            .iter()
            .zip(right)
            .all(|(one, other)| one.as_slice() == other.as_slice())
}

/// The recording of the sixteen writers in turn, until each has come to its end.
fn recorded_in_turn(alloc: Global, program: &Checked) -> Result<Driven, Fail> {
    recording(alloc, program, &in_turn(alloc, 20_000)?)
}

/// What is read of the bytes of a bundle.
fn read_back(alloc: Global, bundle: &Bundle) -> Result<Bundle, Fail> {
    let bytes = bytes_of(alloc, bundle)?;
    Ok(decode(alloc, bytes.as_slice())?)
}

/// The threads of a bundle run again by its logs.
fn run_again(alloc: Global, bundle: &Bundle) -> Result<Rerun, Fail> {
    let program = program_of(alloc, bundle.text.as_slice())?;
    Ok(rerun(alloc, &program, FUEL, &bundle.logs)?)
}

#[test]
fn sixteen_writers_log_each_write_and_a_read(rt: HostRuntime) -> Result<(), Fail> {
    let program = program_of(rt.alloc(), writers(rt.alloc())?.as_bytes())?;
    let driven = recorded_in_turn(rt.alloc(), &program)?;
    assert_eq!(rt; driven.logs.len(), 16);
    assert!(rt; driven.logs.as_slice().iter().all(|log| log.len() == 201));
    assert!(rt; driven.ends.as_slice() == [End::Halted; 16].as_slice());
    Ok(())
}

// The writes go round: the last of 3200 is that of 16 and 15 by the last thread, which reads it.
#[test]
fn the_last_writer_reads_its_own_write(rt: HostRuntime) -> Result<(), Fail> {
    let program = program_of(rt.alloc(), writers(rt.alloc())?.as_bytes())?;
    let driven = recorded_in_turn(rt.alloc(), &program)?;
    let last_log = driven.logs.as_slice().last();
    let last = last_log.and_then(|log| log.as_slice().last().copied());
    let wanted = LogEntry::Read {
        bound: 3200,
        value: 31,
    };
    assert_eq!(rt; last, Some(wanted));
    Ok(())
}

#[test]
fn many_entries_are_bundled_and_read_back(rt: HostRuntime) -> Result<(), Fail> {
    let program = program_of(rt.alloc(), writers(rt.alloc())?.as_bytes())?;
    let driven = recorded_in_turn(rt.alloc(), &program)?;
    let bundle = bundle_of(rt.alloc(), &program, driven.logs)?;
    let read_back = read_back(rt.alloc(), &bundle)?;
    assert!(rt; are_alike(read_back.logs.as_slice(), bundle.logs.as_slice()));
    Ok(())
}

#[test]
fn many_entries_are_bundled_and_run_again(rt: HostRuntime) -> Result<(), Fail> {
    let program = program_of(rt.alloc(), writers(rt.alloc())?.as_bytes())?;
    let driven = recorded_in_turn(rt.alloc(), &program)?;
    let bundle = bundle_of(rt.alloc(), &program, driven.logs)?;
    let again = run_again(rt.alloc(), &read_back(rt.alloc(), &bundle)?)?;
    assert!(rt; are_alike(again.outputs.as_slice(), driven.outputs.as_slice()));
    assert!(rt; again.ends.as_slice() == driven.ends.as_slice());
    Ok(())
}
