//! How long a recording alone takes: the program on standard input is recorded eleven times, and the number of entries in its logs
//! and the time of each recording, from the start of its threads to their end, are written to standard error, and last the median.
#![tactic(auto)]

use assembler::assemble;
use recorder::{OpenGate, Session};
use std::alloc::Global;
use std::io;
use std::process::ExitCode;
use std::sync::Wait;
use std::thread::Threads;
use std::time::{Clock, Duration, Instant};
use stride_base::limits::INPUT_LIMIT;
use stride_base::{StdSource, read_all};
use stride_isa::{Checked, check};

/// How many instructions a thread may make.
const FUEL: u32 = 1_000_000;

/// After how many odd looks in a row a thread gives up.
const PATIENCE: u32 = 10_000_000;

/// How often the program is recorded.
const REPEATS: usize = 11;

/// A recording's time, in nanoseconds, and how many entries it logged.
#[derive(Clone, Copy)]
struct Timed {
    nanos: u64,
    entries: usize,
}

fn nanos_of(time: Duration) -> u64 {
    let seconds = time.as_secs().saturating_mul(1_000_000_000);
    seconds.saturating_add(u64::from(time.subsec_nanos()))
}

fn record_once<R: Threads + Wait + Clock + Sync>(
    rt: &R,
    alloc: Global,
    program: &Checked,
) -> Result<Timed, &'static str> {
    let Ok(mut session) = Session::reserve(alloc, program, FUEL, PATIENCE) else {
        return Err("memory ran out");
    };
    let start = Instant::now(rt).map_err(|_: io::Error| "there is no clock")?;
    session.run_threads(rt, &OpenGate);
    let time = start
        .elapsed(rt)
        .map_err(|_: io::Error| "there is no clock")?;
    let taken = session.finish();
    let mut entries = 0usize;
    for log in taken.logs.as_slice() {
        entries = entries.saturating_add(log.len());
    }
    Ok(Timed {
        nanos: nanos_of(time),
        entries,
    })
}

fn program_of<R: Input>(rt: &R, alloc: Global) -> Result<Checked, &'static str> {
    let mut source = StdSource::new(rt.reader());
    let Ok(text) = read_all(alloc, &mut source, INPUT_LIMIT) else {
        return Err("the input could not be read");
    };
    let Ok(program) = assemble(alloc, text.as_slice()) else {
        return Err("the text is refused");
    };
    check(alloc, program).map_err(|_| "the program is refused")
}

fn bench<R: Threads + Wait + Clock + Sync + Input>(
    rt: &R,
    alloc: Global,
) -> Result<[Timed; REPEATS], &'static str> {
    let program = program_of(rt, alloc)?;
    let mut recordings = [Timed {
        nanos: 0,
        entries: 0,
    }; REPEATS];
    for recording in recordings.iter_mut() {
        *recording = record_once(rt, alloc, &program)?;
    }
    Ok(recordings)
}

fn main(rt: HostRuntime) -> ExitCode {
    match bench(&rt, rt.alloc()) {
        Ok(mut recordings) => {
            for Timed { nanos, entries } in recordings {
                let _ = eprintln!(rt; "{entries} entries, {nanos} ns");
            }
            recordings.sort_unstable_by_key(|recording| recording.nanos);
            let _ = eprintln!(rt; "median {} ns", recordings[REPEATS / 2].nanos);
            ExitCode::SUCCESS
        }
        Err(fault) => {
            let _ = eprintln!(rt; "{fault}");
            ExitCode::FAILURE
        }
    }
}
