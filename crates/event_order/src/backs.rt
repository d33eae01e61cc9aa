//! Steps back from event to event among those that don't stand.
ghost use Rattle.std.specs.Prelude.{◌≡◌, ◌+◌, ◌<◌, length, IfOk, OnOk, option_and_then};
ghost use Rattle.event_order.specs.Backs.{AreFirsts, AreFirstsBefore, IsBefore, IsKeptFirst, IsLeastOf, IsNextLeft, Remains, is_behind, lesser_of};
ghost use Rattle.event_order.specs.Deeds.{size};
ghost use Rattle.event_order.specs.Fronts.{done_of};
ghost use Rattle.event_order.specs.Tables.{entry, rows_of};

use crate::deeds::Deeds;
use crate::slot::Slot;
use crate::table::Table;
use interleavings::Place;
use std::alloc::Global;
use stride_base::NoMemory;

/// The first event that doesn't stand, by thread, then place.
pub(crate) fn first_left(deeds: &Deeds, done: &[u32]) -> Option<Place>
    requires { length done.now ≡ length deeds.now }
    ensures { IsLeastOf (Remains deeds.now (done_of done.now)) result }
{
    for thread in 0..deeds.threads() {
        let place = done[thread as usize];
        if place < deeds.count(thread) {
            return Some(Place { thread, place });
        }
    }
    None
}

// Keeps the place for the slot, if there is one and nothing is kept for it.
fn keep_first(
    alloc: Global,
    firsts: &mut Table<Place>,
    slot: Option<Slot>,
    place: Place,
) -> Result<(), NoMemory>
    ensures { OnOk result (IsKeptFirst (entry (rows_of firsts.old.rows.items)) slot place (entry (rows_of firsts.new.rows.items))) }
{
    if let Some(slot) = slot {
        if firsts.get(slot).is_none() {
            firsts.put(alloc, slot, place)?;
        }
    }
    Ok(())
}

// Keeps the first events of a thread, where nothing is kept.
fn find_firsts_of(
    alloc: Global,
    deeds: &Deeds,
    done: &[u32],
    thread: u32,
    firsts: &mut Table<Place>,
) -> Result<(), NoMemory>
    requires threads { length done.now ≡ length deeds.now }
    requires thread { thread < length deeds.now }
    requires firsts { AreFirstsBefore deeds.now (done_of done.now) thread 0 (entry (rows_of firsts.old.rows.items)) }
    ensures { OnOk result (AreFirstsBefore deeds.now (done_of done.now) (thread + 1) 0 (entry (rows_of firsts.new.rows.items))) }
{
    for place in done[thread as usize]..deeds.count(thread) {
        let at = Place { thread, place };
        keep_first(alloc, firsts, deeds.gives(at), at)?;
    }
    Ok(())
}

/// For each slot the first event that doesn't stand and fills it.
pub(crate) fn find_firsts(
    alloc: Global,
    deeds: &Deeds,
    done: &[u32],
) -> Result<Table<Place>, NoMemory>
    requires { length done.now ≡ length deeds.now }
    ensures { IfOk result (λ firsts. AreFirsts deeds.now (done_of done.now) (entry (rows_of firsts.rows.items))) }
{
    let mut firsts = Table::new(alloc);
    for thread in 0..deeds.threads() {
        find_firsts_of(alloc, deeds, done, thread, &mut firsts)?;
    }
    Ok(firsts)
}

/// Whether a place stands before another, by thread, then place.
pub(crate) fn is_before(one: Place, other: Place) -> bool
    ensures { result ≡ is_behind one other }
{
    one.thread < other.thread || (one.thread == other.thread && one.place < other.place)
}

fn lesser(one: Option<Place>, other: Option<Place>) -> Option<Place>
    ensures { result ≡ lesser_of one other }
{
    match (one, other) {
        (Some(a), Some(b)) if is_before(b, a) => Some(b),
        (Some(a), Some(_) | None) => Some(a),
        (None, other) => other,
    }
}

fn first_for(firsts: &Table<Place>, slot: Option<Slot>) -> Option<Place>
    ensures { result ≡ option_and_then (entry (rows_of firsts.now.rows.items)) slot }
{
    firsts.get(slot?)
}

// The place before in the thread, if its event doesn't stand.
fn place_before(done: &[u32], at: Place) -> Option<Place>
    requires { at.thread < length done.now }
    ensures { IsLeastOf (IsNextLeft (done_of done.now) at) result }
{
    if at.place > done[at.thread as usize] {
        Some(Place {
            thread: at.thread,
            place: at.place - 1,
        })
    } else {
        None
    }
}

/// The least event that doesn't stand and has to come before another.
pub(crate) fn step_back(
    deeds: &Deeds,
    done: &[u32],
    firsts: &Table<Place>,
    at: Place,
) -> Option<Place>
    requires threads { length done.now ≡ length deeds.now }
    requires there { at.place < size deeds.now at.thread }
    requires firsts { AreFirsts deeds.now (done_of done.now) (entry (rows_of firsts.now.rows.items)) }
    ensures { IsLeastOf (IsBefore deeds.now (done_of done.now) at) result }
{
    let deed = deeds.at(at)?;
    let filled = lesser(
        first_for(firsts, deed.needs()),
        first_for(firsts, deed.needs_too()),
    );
    lesser(place_before(done, at), filled)
}
