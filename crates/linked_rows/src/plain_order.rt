//! A plain slow search for the order of linked events: it goes through all lists and all sets of them.
use interleavings::{Event, Place};
use std::alloc::{AllocError, Global};

/// How many events are searched through at most.
pub(crate) const MOST: usize = 6;

/// An event with its place, and the number of the write that it is linked to.
#[derive(Clone, Copy, Debug, PartialEq, Eq)]
pub(crate) struct Linked {
    pub(crate) at: Place,
    pub(crate) event: Event,
    pub(crate) link: Option<u32>,
}

// The cell and the number of a write, or of an update.
fn write_of(event: Event) -> Option<(u32, u32)> {
    match event {
        Event::Write { cell, number, .. } | Event::Update { cell, number, .. } => {
            Some((cell, number))
        }
        Event::Read { .. } | Event::Enter { .. } | Event::Exit { .. } => None,
    }
}

// The cell of a read that is linked, and the number of its write.
fn read_of(linked: Linked) -> Option<(u32, u32)> {
    match linked.event {
        Event::Read { cell, .. } => Some((cell, linked.link?)),
        Event::Write { .. } | Event::Update { .. } | Event::Enter { .. } | Event::Exit { .. } =>
            None,
    }
}

// Whether the second pair is the first with the number after.
fn is_next(one: Option<(u32, u32)>, other: Option<(u32, u32)>) -> bool {
    match (one, other) {
        (Some((cell, number)), Some((other_cell, other_number))) => {
            cell == other_cell && number.wrapping_add(1) == other_number
        }
        (None, _) | (_, None) => false,
    }
}

fn is_next_turn(one: Event, other: Event) -> bool {
    match (one, other) {
        (
            Event::Exit { mon, turn },
            Event::Enter {
                mon: other_mon,
                turn: other_turn,
            },
        ) => { is_next(Some((mon, turn)), Some((other_mon, other_turn))) }
        _ => false,
    }
}

// Whether the first event has to come directly before the other.
fn is_before(one: Linked, other: Linked) -> bool {
    let next_in_thread = one.at.thread == other.at.thread
        && one.at.place.wrapping_add(1) == other.at.place;
    let write = write_of(one.event);
    next_in_thread
        || is_next(write, write_of(other.event))
        || (write.is_some() && write == read_of(other))
        || is_next(read_of(one), write_of(other.event))
        || is_next_turn(one.event, other.event)
}

// The list of the events that has this number among all their lists.
fn list_numbered(
    alloc: Global,
    events: &[Linked],
    number: usize,
) -> Result<Vec<Linked>, AllocError> {
    let mut left: Vec<Linked> = events.iter().copied().collect(alloc)?;
    let mut list = Vec::new(alloc);
    let mut rest = number;
    for _ in 0..events.len() {
        if left.is_empty() {
            break;
        }
        let count = left.len();
        list.push(left.remove(rest % count))?;
        rest = rest / count;
    }
    Ok(list)
}

// Whether no event of the list has to come before one that stands earlier.
fn agrees(list: &[Linked]) -> bool {
    (0..list.len()).all(|i| (0..i).all(|earlier| !is_before(list[i], list[earlier])))
}

// The threads of a list as the digits of one number, so that lists of one length compare as these do.
fn digits(list: &[Linked]) -> u64 {
    let mut digits = 0u64;
    for linked in list {
        digits = digits
            .wrapping_mul(4)
            .wrapping_add(u64::from(linked.at.thread));
    }
    digits
}

/// The least schedule of all lists of the events that agree with the direct order, as one number.
pub(crate) fn least_schedule(alloc: Global, events: &[Linked]) -> Result<Option<u64>, AllocError> {
    let mut lists = 1usize;
    for count in 1..=events.len() {
        lists = lists.wrapping_mul(count);
    }
    let mut least = None;
    for number in 0..lists {
        let list = list_numbered(alloc, events, number)?;
        if agrees(&list) {
            let schedule = digits(&list);
            least = Some(least.map_or(schedule, |known| schedule.min(known)));
        }
    }
    Ok(least)
}

// Whether the set, one bit an event, has the event at this index.
fn has(set: u32, index: usize) -> bool {
    (set >> (index % 32)) & 1 == 1
}

// The first event of the set that has to come directly before the one at this index.
fn back_from(events: &[Linked], set: u32, index: usize) -> Option<usize> {
    let at = *events.get(index)?;
    (0..events.len()).find(|before| has(set, *before) && is_before(events[*before], at))
}

// The union of all sets in which each event has one that comes directly before it.
fn greatest_stuck(events: &[Linked]) -> u32 {
    let mut union = 0;
    for set in 0..1u32 << (events.len() % 32) {
        let stuck = (0..events.len()).all(|index| !has(set, index)
            || back_from(events, set, index).is_some());
        if stuck {
            union = union | set;
        }
    }
    union
}

// The events that steps back from this one go through until they come to it again.
fn ring_from(
    alloc: Global,
    events: &[Linked],
    set: u32,
    first: usize,
) -> Result<Vec<usize>, AllocError> {
    let mut ring = Vec::new(alloc);
    let mut at = first;
    for _ in 0..events.len() {
        ring.push(at)?;
        at = back_from(events, set, at).unwrap_or(first);
        if at == first {
            break;
        }
    }
    Ok(ring)
}

/// The cycle into which steps back from the first event of that union lead, each event before the one that it has to come
/// before, from its least event on. The events stand by thread, then place.
pub(crate) fn told_cycle(alloc: Global, events: &[Linked]) -> Result<Vec<Place>, AllocError> {
    let set = greatest_stuck(events);
    let mut at = (0..events.len())
        .find(|index| has(set, *index))
        .unwrap_or(0);
    for _ in 0..events.len() {
        at = back_from(events, set, at).unwrap_or(at);
    }
    let least = ring_from(alloc, events, set, at)?
        .iter()
        .copied()
        .min()
        .unwrap_or(at);
    let ring = ring_from(alloc, events, set, least)?;
    let mut places = Vec::new(alloc);
    for index in ring.iter().take(1).chain(ring.iter().skip(1).rev()) {
        if let Some(linked) = events.get(*index) {
            places.push(linked.at)?;
        }
    }
    Ok(places)
}
