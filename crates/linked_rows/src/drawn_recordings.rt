//! Recordings by orders that are drawn: their events are always linked and ordered, as a plain slow linker and a plain slow
//! search say too.
use crate::drawn_orders::{Arranged, arranged_of, is_as_searched};
use crate::drawn_rows::Draws;
use crate::plain_linker::plain_link;
use crate::plain_order::MOST;
use assembler::assemble;
use interleavings::{Event, Traces, drive};
use std::alloc::{AllocError, Global};
use std::test::Fail;
use stride_isa::{Checked, check};
use thread_rerun::rerun;

/// Programs of three threads with the variables and monitors of the plain linker, and six events at most. Values are written
/// twice, updates meet writes, and turns follow turns.
const PROGRAMS: [&[u8]; 3] = [
    b"var x 5\nvar y 6\nmonitor m\nmonitor n\nthread\npush 7\nwrite x\nread y\ndrop\nhalt\nthread\npush 7\nwrite x\npush 8\nwrite y\nhalt\nthread\nread x\nread x\nprint\ndrop\nhalt\n",
    b"var x 5\nvar y 6\nmonitor m\nmonitor n\nthread\npush 2\naddto x\ndrop\nread x\nprint\nhalt\nthread\npush 5\nxchg x\ndrop\nread x\nprint\nhalt\nthread\npush 7\nwrite x\nread y\nprint\nhalt\n",
    b"var x 5\nvar y 6\nmonitor m\nmonitor n\nthread\nenter m\nexit m\nhalt\nthread\nenter m\nexit m\nhalt\nthread\nread x\npush 5\nwrite x\ndrop\nhalt\n",
];

/// How many instructions a thread may make.
const FUEL: u32 = 50;

/// After how many odd looks in a row a thread gives up.
const PATIENCE: u32 = 50;

// The events of the program's threads, recorded by an order that is drawn and run again by their logs.
fn recorded(alloc: Global, draws: &mut Draws, program: &Checked) -> Result<Traces, Fail> {
    let mut order = Vec::new(alloc);
    for _ in 0..4 + draws.number() % 30 {
        order.push((draws.number() % 3) as u8)?;
    }
    if order.len() > 100 {
        return Err("a long order")?;
    }
    let driven = drive(alloc, program, FUEL, PATIENCE, &order)?;
    Ok(rerun(alloc, program, FUEL, &driven.logs)?.traces)
}

// The events of each of three threads.
fn by_thread(alloc: Global, arranged: &Arranged) -> Result<[Vec<Event>; 3], AllocError> {
    let mut threads = [Vec::new(alloc), Vec::new(alloc), Vec::new(alloc)];
    for linked in &arranged.events {
        threads[(linked.at.thread % 3) as usize].push(linked.event)?;
    }
    Ok(threads)
}

// Whether these are the links of the events, in order of thread, then place.
fn are_links(arranged: &Arranged, rows: &[Vec<Option<u32>>]) -> bool {
    let links = rows.iter().flat_map(|row| row.iter());
    arranged.events.iter().map(|linked| &linked.link).eq(links)
}

// Whether the plain linker finds these links too, and refuses nothing.
fn is_as_linked(alloc: Global, arranged: &Arranged) -> Result<bool, AllocError> {
    let [first, second, third] = by_thread(alloc, arranged)?;
    let threads = [first.as_slice(), second.as_slice(), third.as_slice()];
    match plain_link(alloc, &threads)? {
        Ok(rows) => Ok(are_links(arranged, &rows)),
        Err(_) => Ok(false),
    }
}

#[test]
fn drawn_recordings_are_linked_and_ordered(rt: HostRuntime) -> Result<(), Fail> {
    let alloc = rt.alloc();
    let mut draws = Draws { state: 5 };
    let mut whole = 0u32;
    for text in PROGRAMS {
        let program = check(alloc, assemble(alloc, text)?)?;
        for _ in 0..60 {
            let traces = recorded(alloc, &mut draws, &program)?;
            let Some(arranged) = arranged_of(&rt, alloc, &traces)? else {
                return Err("the links of a recording are refused")?;
            };
            assert!(rt; arranged.outcome.is_ok());
            assert!(rt; is_as_linked(alloc, &arranged)?);
            assert!(rt; is_as_searched(alloc, &arranged)?);
            if arranged.events.len() == MOST {
                whole = whole.wrapping_add(1);
            }
        }
    }
    assert!(rt; whole > 20, "whole {whole}");
    Ok(())
}
