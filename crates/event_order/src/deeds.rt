//! `Deeds`: what all events are to the order. Each event and its link are looked at once.
ghost use Rattle.std.specs.Prelude.{◌≡◌, ℕ, ◌+◌, ◌*◌, ◌<◌, ◌≤◌, length, slice_range, sum_by, IfOk};
ghost use Rattle.interleavings.specs.TraceLists.{events_of, IsTraces};
ghost use Rattle.linkage.specs.Sources.{event_count};
ghost use Rattle.event_order.specs.Deeds.{deed_at, deeds_of, gives_at, size, AreRowsOf, IsFit, IsRowOf};
ghost use Rattle.event_order.specs.Sums.{upto};

use crate::deed::Deed;
use crate::slot::Slot;
use interleavings::{Place, Traces};
use linkage::Links;
use std::alloc::Global;
use std::marker::Model;
use std::sync::ledger::Ledger;
use stride_base::{NoMemory, Steps};
use stride_isa::limits::{FUEL_LIMIT, THREAD_LIMIT};

/// What the events of each thread are to the order. It is seen as a list for each thread.
#[derive(Drop)]
pub(crate) struct Deeds {
    rows: Vec<Vec<Deed>>,
    // How many numbers each row of slots needs room for, so that it does not grow while slots are counted.
    room: Vec<u32>,
}

impl Model for Deeds {
    ghost use Rattle.std.specs.Prelude.{ℕ, ◌≤◌, List, length};
    ghost use Rattle.stride_isa.specs.Limits.{fuel_limit, thread_limit};
    ghost use Rattle.event_order.specs.declared.deed.Deed.{Deed};
    ghost use Rattle.event_order.specs.Deeds.{size as count_of};
    ghost use Rattle.event_order.specs.Tables.{rows_of};

    ghost Value = { List (List Deed) };

    ghost view = { λ deeds. rows_of deeds.rows.items };

    ghost invariant = { λ deeds. (length deeds.rows.items ≤ thread_limit) × ((thread : ℕ) → count_of (rows_of deeds.rows.items) thread ≤ fuel_limit) };
}

// How many rows of slots there can be: three for each number of an owner.
const ROWS: usize = 768;

// Widens the room of the slot's row up to the slot.
#[inline(always)]
fn widen(room: &mut [u32], slot: Option<Slot>) {
    if let Some(slot) = slot {
        if let Some(length) = room.get_mut(slot.row as usize) {
            *length = slot.number.saturating_add(1).max(*length);
        }
    }
}

// What the events of a thread are to the order. The slots that they fill widen the room.
fn row_of<L: Ledger>(
    alloc: Global,
    traces: &Traces,
    links: &Links,
    thread: u32,
    room: &mut [u32],
    steps: &mut Steps<L>,
) -> Result<Vec<Deed>, NoMemory>
    requires thread { thread < length traces.now.events }
    requires traces { IsTraces traces.now }
    requires fit { IsFit traces.now links.now }
    ensures deeds { IfOk result (λ row. IsRowOf traces.now links.now thread (length (events_of traces.now thread)) row.items) }
    ensures few { IfOk result (λ row. length row.items ≤ FUEL_LIMIT) }
    ensures looks { steps.new ≤ steps.old + 2 * length (events_of traces.now thread) }
{
    let count = traces.count(thread);
    let mut row = Vec::with_capacity(alloc, count as usize)?;
    for place in 0..count {
        let event = traces.at(thread, place, steps);
        let link = links.of(Place { thread, place }, steps);
        let deed = Deed::of(event, link);
        widen(room, deed.gives());
        row.push(deed)?;
    }
    Ok(row)
}

impl Deeds {
    /// What the events of traces are to the order, by their links.
    pub(crate) fn of<L: Ledger>(
        alloc: Global,
        traces: &Traces,
        links: &Links,
        steps: &mut Steps<L>,
    ) -> Result<Deeds, NoMemory>
        requires fit { IsFit traces.now links.now }
        ensures deeds { IfOk result (λ deeds. AreRowsOf traces.now links.now (length traces.now.events) deeds) }
        ensures looks { steps.new ≤ steps.old + 2 * event_count traces.now }
    {
        let mut rows = Vec::new(alloc);
        let mut room: Vec<u32> = vec![in alloc; 0; ROWS]?;
        for thread in 0..traces.threads() {
            rows.push(row_of(alloc, traces, links, thread, &mut room, steps)?)?;
        }
        Ok(Deeds { rows, room })
    }

    /// How many threads there are.
    pub(crate) fn threads(&self) -> u32
        ensures count { result ≡ length self.now }
        ensures small { result ≤ THREAD_LIMIT }
        ensures few { (thread : ℕ) → size self.now thread ≤ FUEL_LIMIT }
    {
        self.rows.len() as u32
    }

    /// How many events a thread has.
    pub(crate) fn count(&self, thread: u32) -> u32
        requires { thread < length self.now }
        ensures count { result ≡ size self.now thread }
        ensures small { result ≤ FUEL_LIMIT }
    {
        self.rows[thread as usize].len() as u32
    }

    /// How many events the thread that has the most of them has.
    pub(crate) fn longest(&self) -> u32
        ensures longest { (thread : ℕ) → size self.now thread ≤ result }
        ensures small { result ≤ FUEL_LIMIT }
    {
        let mut longest = 0;
        for thread in 0..self.threads() {
            longest = self.count(thread).max(longest);
        }
        longest
    }

    /// How many numbers each row of slots needs room for, so that it does not grow while slots are counted.
    pub(crate) fn room(&self) -> &[u32] {
        &self.room
    }

    /// How many events there are.
    pub(crate) fn total(&self) -> usize
        ensures { result ≡ upto (size self.now) (length self.now) }
    {
        let mut total: usize = 0;
        for thread in 0..self.threads() {
            total += self.count(thread) as usize;
        }
        total
    }

    /// What the events of a thread from one place on, and before another, are to the order.
    pub(crate) fn part(&self, thread: u32, from: u32, to: u32) -> &[Deed]
        requires thread { thread < length self.now }
        requires order { from ≤ to }
        ensures part { result.now ≡ slice_range (deeds_of self.now thread) from to }
        ensures few { size self.now thread ≤ FUEL_LIMIT }
    {
        let row = &self.rows[thread as usize];
        let count = row.len() as u32;
        &row[from.min(count) as usize..to.min(count) as usize]
    }

    /// What the event at a place is to the order, if one is there.
    pub(crate) fn at(&self, place: Place) -> Option<Deed>
        ensures { result ≡ deed_at self.now place }
    {
        let row = self.rows.get(place.thread as usize)?;
        row.get(place.place as usize).copied()
    }

    /// The slot that the event at a place fills, if it fills one.
    pub(crate) fn gives(&self, place: Place) -> Option<Slot>
        ensures { result ≡ gives_at self.now place }
    {
        self.at(place)?.gives()
    }
}
