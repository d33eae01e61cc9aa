//! `run` on devices that fail, at each of their calls in turn.
ghost use Rattle.std.specs.Prelude.{◌<◌};

use crate::whole_calls::{Devices, Ending, ending_of};
use recorder::OpenGate;
use std::alloc::Global;
use std::sync::Wait;
use std::test::Fail;
use std::thread::Threads;

/// One thread that reads and prints what it has written.
const OWN_WRITE: &[u8] = b"var x 0\nthread\npush 4\nwrite x\nread x\nprint\nhalt\n";

const REPORT: &[u8; 44] = b"schedule 2\n0*2\ntranscript\n0 4\nends\n0 halted\n";

fn ending_on<R: Threads + Wait + Sync>(
    rt: &R,
    alloc: Global,
    devices: Devices<'_>,
) -> Result<Ending, Fail>
    requires some_byte { 0 < devices.per_call }
{
    ending_of(rt, alloc, &["run"], OWN_WRITE, devices, &OpenGate)
}

/// One thread that shares nothing.
const ADDITION: &[u8] = b"thread\npush 18446744073709551615\npush 1\nadd\nprint\nhalt\n";

#[test]
fn a_fault_keeps_what_was_put(rt: HostRuntime) -> Result<(), Fail> {
    for (failing_reads, failing_puts, code, held) in [
        // Without a fault the report is longer than two calls take, so the faults below cut it off.
        (
            [].as_slice(),
            [].as_slice(),
            0,
            b"schedule 0\ntranscript\n0 0\nends\n0 halted\n".as_slice(),
        ),
        (&[], &[2], 9, b"sche"),
        (&[1], &[2], 2, b""),
    ] {
        let ending = ending_of(
            &rt,
            rt.alloc(),
            &["run"],
            ADDITION,
            Devices {
                failing_reads,
                failing_puts,
                per_call: 4,
                room: 100,
            },
            &OpenGate,
        )?;
        assert_eq!(rt; ending.code, code);
        assert!(rt; ending.held.as_slice() == held);
    }
    Ok(())
}

#[test]
fn each_put_fails_in_turn(rt: HostRuntime) -> Result<(), Fail> {
    for failing in 1..=45u32 {
        let ending = ending_on(
            &rt,
            rt.alloc(),
            Devices {
                failing_reads: &[],
                failing_puts: &[failing],
                per_call: 1,
                room: 44,
            },
        )?;
        let put = failing as usize - 1;
        assert_eq!(rt; ending.code, if put == 44 { 0 } else { 9 });
        assert!(rt; ending.held.as_slice() == &REPORT[..put]);
    }
    Ok(())
}

#[test]
fn each_room_is_filled(rt: HostRuntime) -> Result<(), Fail> {
    for room in 0..44usize {
        let ending = ending_on(
            &rt,
            rt.alloc(),
            Devices {
                failing_reads: &[],
                failing_puts: &[],
                per_call: 7,
                room,
            },
        )?;
        assert_eq!(rt; ending.code, 9);
        assert!(rt; ending.held.as_slice() == &REPORT[..room]);
    }
    Ok(())
}

#[test]
fn each_read_fails_in_turn(rt: HostRuntime) -> Result<(), Fail> {
    for failing in 1..=8u32 {
        let ending = ending_on(
            &rt,
            rt.alloc(),
            Devices {
                failing_reads: &[failing],
                failing_puts: &[],
                per_call: 64,
                room: 44,
            },
        )?;
        if ending.code == 0 {
            // That call was not made.
            assert!(rt; failing > 1);
            assert!(rt; ending.held.as_slice() == REPORT.as_slice());
            return Ok(());
        }
        assert_eq!(rt; ending.code, 2);
        assert!(rt; ending.held.is_empty());
    }
    Err("a short input is read by more than eight calls")?
}
