//! Traces that are drawn, linked and arranged, beside a plain slow search for their order.
ghost use Rattle.std.specs.Prelude.{◌≡◌, ◌<◌};

use crate::drawn_rows::{Draws, drawn};
use crate::plain_order::{Linked, MOST, least_schedule, told_cycle};
use crate::setting::{row_of, traces_of};
use event_order::{OrderError, arrange};
use interleavings::{Event, Place, Traces};
use linkage::link;
use std::alloc::{AllocError, Global};
use std::marker::Brand;
use std::sync::Wait;
use std::sync::ledger::{Blank, Ledger};
use std::test::Fail;
use std::thread::Threads;
use stride_base::Steps;

/// What linking and arranging events gives: the events with their links, by thread, then place, and the order or the cycle.
#[derive(Drop)]
pub(crate) struct Arranged {
    pub(crate) events: Vec<Linked>,
    pub(crate) outcome: Result<Vec<u8>, Vec<Place>>,
}

// The link at a place of the row.
fn link_in(row: &[Option<u32>], place: u32) -> Option<u32> {
    match row.get(place as usize) {
        Some(link) => *link,
        None => None,
    }
}

// The same with a counter of the caller's.
fn arranged_by<L: Ledger, R: Threads + Wait + Sync>(
    rt: &R,
    alloc: Global,
    traces: &Traces,
    blank: Blank,
) -> Result<Option<Arranged>, Fail>
    requires name { blank.name ≡ L.name }
    requires parts { blank.parts ≡ L.parts }
    requires some_part { 0 < blank.parts }
{
    let mut steps = Steps::<L>::new(rt, blank);
    let Ok(links) = link(alloc, traces, &mut steps) else {
        return Ok(None);
    };
    let outcome = match arrange(alloc, traces, &links, &mut steps) {
        Ok(order) => Ok(order.as_slice().iter().copied().collect(alloc)?),
        Err(OrderError::Cycle { places }) => {
            Err(places.as_slice().iter().copied().collect(alloc)?)
        }
        Err(OrderError::NoMemory) => return Err("out of memory")?,
    };
    let mut events = Vec::new(alloc);
    for thread in 0..traces.threads() {
        let row = row_of(alloc, traces, &links, thread, &mut steps)?;
        for place in 0..traces.count(thread) {
            events.push(Linked {
                at: Place { thread, place },
                event: traces.at(thread, place, &mut steps),
                link: link_in(&row, place),
            })?;
        }
    }
    Ok(Some(Arranged { events, outcome }))
}

/// The events of the threads with their links, and their order; nothing where they are not linked.
pub(crate) fn arranged_of<R: Threads + Wait + Sync>(
    rt: &R,
    alloc: Global,
    traces: &Traces,
) -> Result<Option<Arranged>, Fail> {
    arranged_by::<Brand, R>(rt, alloc, traces, Blank::new(1))
}

// The schedule as one number.
fn as_number(schedule: &[u8]) -> u64 {
    let mut digits = 0u64;
    for thread in schedule {
        digits = digits.wrapping_mul(4).wrapping_add(u64::from(*thread));
    }
    digits
}

/// Whether the order or the cycle is the one that searching finds.
pub(crate) fn is_as_searched(alloc: Global, arranged: &Arranged) -> Result<bool, AllocError> {
    let least = least_schedule(alloc, &arranged.events)?;
    match &arranged.outcome {
        Ok(order) => { Ok(order.len() == arranged.events.len() && least == Some(as_number(order))) }
        Err(places) => Ok(least.is_none() && *places == told_cycle(alloc, &arranged.events)?),
    }
}

// The events backwards, so that they go against the numbers of writes more often.
fn backwards(alloc: Global, events: &[Event]) -> Result<Vec<Event>, AllocError> {
    events.iter().rev().copied().collect(alloc)
}

// A few events that are drawn, with the first thread's backwards or not; nothing where they are too many.
fn few_drawn(
    alloc: Global,
    draws: &mut Draws,
    turned: bool,
) -> Result<Option<[Vec<Event>; 3]>, AllocError> {
    let steps = 2 + draws.number() % 6;
    let [first, second, third] = drawn(alloc, draws, steps, false)?;
    if first.len() + second.len() + third.len() > MOST {
        return Ok(None);
    }
    if turned {
        let first = backwards(alloc, &first)?;
        return Ok(Some([first, second, third]));
    }
    Ok(Some([first, second, third]))
}

// The traces of these events of three threads.
fn traces_from(alloc: Global, threads: [Vec<Event>; 3]) -> Result<Traces, Fail> {
    let [first, second, third] = threads;
    traces_of(
        alloc,
        &[first.as_slice(), second.as_slice(), third.as_slice()],
    )
}

#[test]
fn drawn_traces_are_arranged_as_by_searching(rt: HostRuntime) -> Result<(), Fail> {
    let alloc = rt.alloc();
    let mut draws = Draws { state: 11 };
    let mut orders = 0u32;
    let mut cycles = 0u32;
    for round in 0..600 {
        let Some(threads) = few_drawn(alloc, &mut draws, round % 2 == 1)? else {
            continue;
        };
        let traces = traces_from(alloc, threads)?;
        let Some(arranged) = arranged_of(&rt, alloc, &traces)? else {
            continue;
        };
        assert!(rt; is_as_searched(alloc, &arranged)?);
        if arranged.outcome.is_ok() {
            orders = orders.wrapping_add(1);
        } else {
            cycles = cycles.wrapping_add(1);
        }
    }
    assert!(rt;
        orders > 100 && cycles > 30,
        "orders {orders}, cycles {cycles}"
    );
    Ok(())
}
