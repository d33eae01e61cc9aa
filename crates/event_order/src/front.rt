//! `Front`: how far the threads of an order are, for which slots deeds still wait, and what the next deed of each thread waits
//! for.
ghost use Rattle.std.specs.Prelude.{◌≡◌, ℕ, ◌+◌, ◌-◌, ◌*◌, ◌<◌, ◌≤◌, ◌↔◌, length, slice_set, IfOk, IsTrue, OnOk, Some as Found, None as Nothing};
ghost use Rattle.event_order.specs.Deeds.{deed_at, size, Needs};
ghost use Rattle.event_order.specs.Fronts.{done_of, next_of, none_done, tallied, waiters_of, waiting as waits_of, AreNexts, AreReady, AreWaiters, IsFirstReady, IsFront, IsNextAt, IsRaised};
ghost use Rattle.event_order.specs.Sums.{upto};
ghost use Rattle.event_order.specs.Tables.{counted, rows_of};
ghost use Rattle.event_order.specs.ThreadSets.{Has};
ghost use Rattle.event_order.specs.declared.slot.Slot.{Slot as Numbered};

use crate::deed::Deed;
use crate::deeds::Deeds;
use crate::slot::Slot;
use crate::table::Counts;
use crate::thread_set::ThreadSet;
use interleavings::Place;
use std::alloc::Global;
use stride_base::NoMemory;
use stride_isa::limits::{FUEL_LIMIT, THREAD_LIMIT};

/// What the next deed of a thread waits for.
#[derive(Clone, Copy)]
pub(crate) enum Next {
    /// For nothing.
    Ready { deed: Deed },
    /// For this slot, which other deeds have to fill.
    Waits { slot: Slot },
    /// Each deed of the thread stands.
    Ended,
}

impl Next {
    fn waits_for(self, emptied: Slot) -> bool
        ensures { IsTrue result ↔ (self ≡ Next.Waits emptied) }
    {
        match self {
            Next::Waits { slot } => slot == emptied,
            Next::Ready { .. } | Next::Ended => false,
        }
    }
}

/// A thread whose next deed waits for nothing, and that deed.
#[derive(Clone, Copy)]
pub(crate) struct ReadyThread {
    pub(crate) thread: u32,
    pub(crate) deed: Deed,
}

/// How many deeds of each thread stand, of the others how many fill each slot, what is known of the next deed of each thread,
/// which threads may wait for each slot, and which are ready. Only a thread whose deed comes to stand, or that waits for a slot
/// which has got empty by that, is looked at again.
#[derive(Drop)]
pub(crate) struct Front {
    pub(crate) waiting: Counts,
    pub(crate) done: Vec<u32>,
    pub(crate) next: Vec<Next>,
    pub(crate) waiters: Vec<Vec<ThreadSet>>,
    pub(crate) ready: ThreadSet,
}

/// How many deeds of a thread are tallied before those of the next thread. Those that many threads make at about the same time
/// fill slots that lie near each other, so that their counts are met while they are at hand.
const BURST: u32 = 1_024;

// Counts the slots that the deeds of a thread from one place on, and before another, fill.
fn tally_thread(
    alloc: Global,
    deeds: &Deeds,
    thread: u32,
    from: u32,
    to: u32,
    table: &mut Counts,
) -> Result<(), NoMemory>
    requires thread { thread < length deeds.now }
    requires few { (slot : Numbered) → counted (rows_of table.old.rows.items) slot ≤ 2 * THREAD_LIMIT * FUEL_LIMIT }
    requires order { from ≤ to }
    ensures { OnOk result ((slot : Numbered) → counted (rows_of table.new.rows.items) slot + tallied deeds.now from slot thread ≡ counted (rows_of table.old.rows.items) slot + tallied deeds.now to slot thread) }
{
    for deed in deeds.part(thread, from, to) {
        table.raise(alloc, deed.gives())?;
    }
    Ok(())
}

// Counts the slots that the deeds of all threads from one place on, and before another, fill.
fn tally_burst(
    alloc: Global,
    deeds: &Deeds,
    from: u32,
    to: u32,
    table: &mut Counts,
) -> Result<(), NoMemory>
    requires order { from ≤ to }
    requires before { (slot : Numbered) → counted (rows_of table.old.rows.items) slot ≡ upto (tallied deeds.now from slot) (length deeds.now) }
    ensures { OnOk result ((slot : Numbered) → counted (rows_of table.new.rows.items) slot ≡ upto (tallied deeds.now to slot) (length deeds.now)) }
{
    for thread in 0..deeds.threads() {
        tally_thread(alloc, deeds, thread, from, to, table)?;
    }
    Ok(())
}

// Counts the slots that deeds fill.
fn tally(alloc: Global, deeds: &Deeds) -> Result<Counts, NoMemory>
    ensures { IfOk result (λ table. (slot : Numbered) → counted (rows_of table.rows.items) slot ≡ waits_of deeds.now none_done slot) }
{
    let longest = deeds.longest();
    let mut table = Counts::with_room(alloc, deeds.room())?;
    let mut from = 0;
    while from < longest {
        let to = from + BURST;
        tally_burst(alloc, deeds, from, to, &mut table)?;
        from = to;
    }
    Ok(table)
}

fn zeros(alloc: Global, count: u32) -> Result<Vec<u32>, NoMemory>
    ensures count { IfOk result (λ zeros. length zeros.items ≡ count) }
    ensures zeros { IfOk result (λ zeros. (i : ℕ) → done_of zeros.items i ≡ 0) }
{
    let mut zeros = Vec::new(alloc);
    for _ in 0..count {
        zeros.push(0)?;
    }
    Ok(zeros)
}

// The slot, if others still have to fill it.
#[inline(always)]
fn unfilled(waiting: &Counts, slot: Option<Slot>) -> Option<Slot>
    ensures filled { result ≡ Nothing → (at : Numbered) → slot ≡ Found at → counted (rows_of waiting.now.rows.items) at ≡ 0 }
    ensures waits { (at : Numbered) → result ≡ Found at → (slot ≡ Found at) × (0 < counted (rows_of waiting.now.rows.items) at) }
{
    let slot = slot?;
    if waiting.of(slot) == 0 {
        None
    } else {
        Some(slot)
    }
}

// A slot that the deed needs and that others still have to fill.
#[inline(always)]
fn missing(waiting: &Counts, deed: Deed) -> Option<Slot>
    ensures filled { result ≡ Nothing → (at : Numbered) → Needs deed at → counted (rows_of waiting.now.rows.items) at ≡ 0 }
    ensures waits { (at : Numbered) → result ≡ Found at → Needs deed at × (0 < counted (rows_of waiting.now.rows.items) at) }
{
    match deed {
        Deed::Write { .. } => match unfilled(waiting, deed.needs()) {
            Some(slot) => Some(slot),
            None => unfilled(waiting, deed.needs_too()),
        },
        Deed::Read { .. } | Deed::Enter { .. } => unfilled(waiting, deed.needs()),
        Deed::Exit { .. } => None,
    }
}

// What the deed at a place waits for, if one is there.
#[inline(always)]
fn judge(waiting: &Counts, deeds: &Deeds, at: Place) -> Next
    ensures { IsNextAt deeds.now (counted (rows_of waiting.now.rows.items)) Nothing at result }
{
    match deeds.at(at) {
        Some(deed) => match missing(waiting, deed) {
            Some(slot) => Next::Waits { slot },
            None => Next::Ready { deed },
        },
        None => Next::Ended,
    }
}

fn first_nexts(
    alloc: Global,
    waiters: &mut Vec<Vec<ThreadSet>>,
    waiting: &Counts,
    deeds: &Deeds,
    done: &[u32],
) -> Result<Vec<Next>, NoMemory>
    requires { length done.now ≡ length deeds.now }
    ensures nexts { IfOk result (λ next. AreNexts deeds.now (counted (rows_of waiting.now.rows.items)) Nothing done.now next.items) }
    ensures waiters { IfOk result (λ next. AreWaiters next.items (rows_of waiters.new.items)) }
{
    let mut next = Vec::new(alloc);
    for thread in 0..deeds.threads() {
        let place = done[thread as usize];
        let now = judge(waiting, deeds, Place { thread, place });
        note(waiters, thread, now);
        next.push(now)?;
    }
    Ok(next)
}

// The threads whose next deed waits for nothing.
fn ready_of(next: &[Next]) -> ThreadSet
    requires { length next.now ≤ THREAD_LIMIT }
    ensures { AreReady next.now result }
{
    let mut ready = ThreadSet::none();
    for thread in 0..next.len() as u32 {
        if let Next::Ready { .. } = next[thread as usize] {
            ready = ready.with(thread);
        }
    }
    ready
}

// Room for the waiters of each slot that is counted.
fn no_waiters(alloc: Global, waiting: &Counts) -> Result<Vec<Vec<ThreadSet>>, NoMemory> {
    let mut waiters = Vec::with_capacity(alloc, waiting.rows.len())?;
    for row in &waiting.rows {
        waiters.push(vec![in alloc; ThreadSet::none(); row.len()]?)?;
    }
    Ok(waiters)
}

fn waiters_at(waiters: &[Vec<ThreadSet>], slot: Slot) -> ThreadSet
    ensures { result ≡ waiters_of (rows_of waiters.now) slot }
{
    match waiters.get(slot.row as usize) {
        Some(row) => row
            .get(slot.number as usize)
            .copied()
            .unwrap_or(ThreadSet::all()),
        None => ThreadSet::all(),
    }
}

// Keeps that this thread may wait for the slot.
fn note_slot(waiters: &mut Vec<Vec<ThreadSet>>, thread: u32, slot: Slot)
    requires { thread < THREAD_LIMIT }
    ensures kept { (at : Numbered) (other : ℕ) → Has (waiters_of (rows_of waiters.old.items) at) other → Has (waiters_of (rows_of waiters.new.items) at) other }
    ensures noted { Has (waiters_of (rows_of waiters.new.items) slot) thread }
{
    if (slot.row as usize) < waiters.len() {
        let row = &mut waiters[slot.row as usize];
        if (slot.number as usize) < row.len() {
            let known = row[slot.number as usize];
            row[slot.number as usize] = known.with(thread);
        }
    }
}

// Keeps that this thread may wait for what its next deed waits for.
fn note(waiters: &mut Vec<Vec<ThreadSet>>, thread: u32, next: Next)
    requires { thread < THREAD_LIMIT }
    ensures kept { (at : Numbered) (other : ℕ) → Has (waiters_of (rows_of waiters.old.items) at) other → Has (waiters_of (rows_of waiters.new.items) at) other }
    ensures noted { (slot : Numbered) → next ≡ Next.Waits slot → Has (waiters_of (rows_of waiters.new.items) slot) thread }
{
    if let Next::Waits { slot } = next {
        note_slot(waiters, thread, slot);
    }
}

// Keeps what the next deed of a thread waits for. The answer is the threads that are ready by then.
fn keep(
    next: &mut Vec<Next>,
    waiters: &mut Vec<Vec<ThreadSet>>,
    ready: ThreadSet,
    thread: u32,
    now: Next,
) -> ThreadSet
    requires there { thread < length next.old.items }
    requires few { thread < THREAD_LIMIT }
    requires waiters { AreWaiters next.old.items (rows_of waiters.old.items) }
    requires ready { AreReady next.old.items ready }
    ensures next { next.new.items ≡ slice_set next.old.items thread now }
    ensures waiters { AreWaiters next.new.items (rows_of waiters.new.items) }
    ensures ready { AreReady next.new.items result }
{
    next[thread as usize] = now;
    note(waiters, thread, now);
    match now {
        Next::Ready { .. } => ready.with(thread),
        Next::Waits { .. } | Next::Ended => ready.without(thread),
    }
}

// Whether the next deed of a thread waits for the slot.
fn waits_at(next: &[Next], thread: u32, emptied: Slot) -> bool
    ensures { IsTrue result ↔ (next_of next.now thread ≡ Next.Waits emptied) }
{
    match next.get(thread as usize) {
        Some(known) => known.waits_for(emptied),
        None => false,
    }
}

// Looks again at the threads that wait for a slot which is empty by now.
fn wake(
    next: &mut Vec<Next>,
    waiters: &mut Vec<Vec<ThreadSet>>,
    waiting: &Counts,
    deeds: &Deeds,
    done: &[u32],
    emptied: Slot,
    ready: ThreadSet,
) -> ThreadSet
    requires threads { length done.now ≡ length deeds.now }
    requires nexts { AreNexts deeds.now (counted (rows_of waiting.now.rows.items)) (Found emptied) done.now next.old.items }
    requires waiters { AreWaiters next.old.items (rows_of waiters.old.items) }
    requires ready { AreReady next.old.items ready }
    ensures nexts { AreNexts deeds.now (counted (rows_of waiting.now.rows.items)) Nothing done.now next.new.items }
    ensures waiters { AreWaiters next.new.items (rows_of waiters.new.items) }
    ensures ready { AreReady next.new.items result }
{
    let mut ready = ready;
    let mut left = waiters_at(waiters, emptied);
    while let Some(thread) = left.first() {
        left = left.without(thread);
        if waits_at(next, thread, emptied) {
            let place = done[thread as usize];
            let now = judge(waiting, deeds, Place { thread, place });
            ready = keep(next, waiters, ready, thread, now);
        }
    }
    ready
}

impl Front {
    /// The front at which no deed stands.
    pub(crate) fn new(alloc: Global, deeds: &Deeds) -> Result<Front, NoMemory>
        ensures front { IfOk result (λ front. IsFront deeds.now (counted (rows_of front.waiting.rows.items)) front.done.items) }
        ensures nexts { IfOk result (λ front. AreNexts deeds.now (counted (rows_of front.waiting.rows.items)) Nothing front.done.items front.next.items) }
        ensures waiters { IfOk result (λ front. AreWaiters front.next.items (rows_of front.waiters.items)) }
        ensures ready { IfOk result (λ front. AreReady front.next.items front.ready) }
        ensures none { IfOk result (λ front. (thread : ℕ) → done_of front.done.items thread ≡ 0) }
        ensures few { (thread : ℕ) → size deeds.now thread ≤ FUEL_LIMIT }
        ensures small { length deeds.now ≤ THREAD_LIMIT }
    {
        let threads = deeds.threads();
        let waiting = tally(alloc, deeds)?;
        let done = zeros(alloc, threads)?;
        let mut waiters = no_waiters(alloc, &waiting)?;
        let next = first_nexts(alloc, &mut waiters, &waiting, deeds, &done)?;
        let ready = ready_of(&next);
        Ok(Front {
            waiting,
            done,
            next,
            waiters,
            ready,
        })
    }

    /// The first thread whose next deed waits for nothing.
    pub(crate) fn first_ready(&self, deeds: &Deeds) -> Option<ReadyThread>
        requires nexts { AreNexts deeds.now (counted (rows_of self.now.waiting.rows.items)) Nothing self.now.done.items self.now.next.items }
        requires ready { AreReady self.now.next.items self.now.ready }
        ensures { IsFirstReady deeds.now (counted (rows_of self.now.waiting.rows.items)) (done_of self.now.done.items) result }
    {
        let thread = self.ready.first()?;
        match self.next[thread as usize] {
            Next::Ready { deed } => Some(ReadyThread { thread, deed }),
            Next::Waits { .. } | Next::Ended => unreachable!(),
        }
    }

    /// Lets the next deed of a thread stand.
    pub(crate) fn stand(&mut self, deeds: &Deeds, ready: ReadyThread)
        requires front { IsFront deeds.now (counted (rows_of self.old.waiting.rows.items)) self.old.done.items }
        requires nexts { AreNexts deeds.now (counted (rows_of self.old.waiting.rows.items)) Nothing self.old.done.items self.old.next.items }
        requires waiters { AreWaiters self.old.next.items (rows_of self.old.waiters.items) }
        requires ready { AreReady self.old.next.items self.old.ready }
        requires deed { deed_at deeds.now (record { thread = ready.thread; place = done_of self.old.done.items ready.thread }) ≡ Found ready.deed }
        requires few { size deeds.now ready.thread ≤ FUEL_LIMIT }
        requires small { length deeds.now ≤ THREAD_LIMIT }
        ensures front { IsFront deeds.now (counted (rows_of self.new.waiting.rows.items)) self.new.done.items }
        ensures nexts { AreNexts deeds.now (counted (rows_of self.new.waiting.rows.items)) Nothing self.new.done.items self.new.next.items }
        ensures waiters { AreWaiters self.new.next.items (rows_of self.new.waiters.items) }
        ensures ready { AreReady self.new.next.items self.new.ready }
        ensures raised { IsRaised (done_of self.old.done.items) ready.thread (done_of self.new.done.items) }
    {
        let thread = ready.thread;
        let emptied = self.waiting.lower(ready.deed.gives());
        let place = self.done[thread as usize] + 1;
        self.done[thread as usize] = place;
        let now = judge(&self.waiting, deeds, Place { thread, place });
        self.ready = keep(&mut self.next, &mut self.waiters, self.ready, thread, now);
        if let Some(slot) = emptied {
            self.ready = wake(
                &mut self.next,
                &mut self.waiters,
                &self.waiting,
                deeds,
                &self.done,
                slot,
                self.ready,
            );
        }
    }
}
