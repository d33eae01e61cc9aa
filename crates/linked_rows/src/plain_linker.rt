//! A plain slow linker, which scans all writes for each question.
use crate::setting::{MONITORS, Outcome, STARTS};
use interleavings::{Event, Place};
use linkage::LinkError;
use std::alloc::{AllocError, Global};

/// A write of a cell: its number and the value that it stored.
#[derive(Clone, Copy, Debug, PartialEq, Eq)]
struct Stored {
    cell: u32,
    number: u32,
    value: u64,
}

/// What may be wrong with an event, in the order in which it is told.
#[derive(Clone, Copy, Debug, PartialEq, Eq)]
enum Misfit {
    TooLarge,
    Unequal,
    Mismatch,
}

fn writes_of(alloc: Global, threads: &[&[Event]]) -> Result<Vec<Stored>, AllocError> {
    let mut writes = Vec::new(alloc);
    for (cell, value) in STARTS.iter().enumerate() {
        let cell = cell as u32;
        writes.push(Stored {
            cell,
            number: 0,
            value: *value,
        })?;
    }
    for events in threads {
        for event in *events {
            match *event {
                Event::Write {
                    cell,
                    value,
                    number,
                } => writes.push(Stored {
                    cell,
                    number,
                    value,
                })?,
                Event::Update {
                    cell,
                    new,
                    number,
                    ..
                } => writes.push(Stored {
                    cell,
                    number,
                    value: new,
                })?,
                Event::Read { .. } | Event::Enter { .. } | Event::Exit { .. } => {}
            }
        }
    }
    Ok(writes)
}

fn entries_of(alloc: Global, threads: &[&[Event]]) -> Result<Vec<(u32, u32)>, AllocError> {
    let mut turns = Vec::new(alloc);
    for mon in 0..MONITORS {
        turns.push((mon, 0))?;
    }
    for events in threads {
        for event in *events {
            if let Event::Enter { mon, turn } = *event {
                turns.push((mon, turn))?;
            }
        }
    }
    Ok(turns)
}

fn exits_of(alloc: Global, threads: &[&[Event]]) -> Result<Vec<(u32, u32)>, AllocError> {
    let mut turns = Vec::new(alloc);
    for mon in 0..MONITORS {
        turns.push((mon, 0))?;
    }
    for events in threads {
        for event in *events {
            if let Event::Exit { mon, turn } = *event {
                turns.push((mon, turn))?;
            }
        }
    }
    Ok(turns)
}

fn lesser(best: Option<(u32, u32)>, pair: (u32, u32)) -> Option<(u32, u32)> {
    match best {
        Some(known) if known <= pair => best,
        Some(_) | None => Some(pair),
    }
}

// The least pair that stands there twice.
fn least_twice(pairs: &[(u32, u32)]) -> Option<(u32, u32)> {
    let mut best = None;
    for pair in pairs {
        if pairs.iter().filter(|other| **other == *pair).count() > 1 {
            best = lesser(best, *pair);
        }
    }
    best
}

// The least pair that is missing below one of the others.
fn least_gap(present: &[(u32, u32)], others: &[(u32, u32)]) -> Option<(u32, u32)> {
    let mut best = None;
    for (owner, top) in others {
        for number in 0..*top {
            if !present.contains(&(*owner, number)) {
                best = lesser(best, (*owner, number));
            }
        }
    }
    best
}

// The greatest number within the bound that stored the value.
fn greatest(writes: &[Stored], cell: u32, value: u64, bound: u32) -> Option<u32> {
    let mut best = None;
    for write in writes {
        if write.cell == cell && write.value == value && write.number <= bound {
            best = best.max(Some(write.number));
        }
    }
    best
}

fn is_misfit(writes: &[Stored], event: Event, misfit: Misfit) -> bool {
    match (event, misfit) {
        (Event::Read { cell, bound, .. }, Misfit::TooLarge) => {
            writes
                .iter()
                .all(|write| write.cell != cell || write.number < bound)
        }
        (Event::Read { cell, value, bound }, Misfit::Unequal) => greatest(
            writes, cell, value, bound,
        ).is_none(),
        (
            Event::Update {
                cell,
                old,
                number,
                ..
            },
            Misfit::Mismatch,
        ) => {
            let before = Stored {
                cell,
                number: number.wrapping_sub(1),
                value: old,
            };
            !writes.contains(&before)
        }
        (Event::Read { .. }, Misfit::Mismatch)
        | (Event::Update { .. }, Misfit::TooLarge | Misfit::Unequal)
        | (Event::Write { .. } | Event::Enter { .. } | Event::Exit { .. }, _) => false,
    }
}

// The first event with this misfit.
fn first_misfit(writes: &[Stored], threads: &[&[Event]], misfit: Misfit) -> Option<Place> {
    for (thread, events) in (0u32..).zip(threads) {
        for (place, event) in (0u32..).zip(*events) {
            if is_misfit(writes, *event, misfit) {
                return Some(Place { thread, place });
            }
        }
    }
    None
}

fn refusal_of(
    alloc: Global,
    writes: &[Stored],
    threads: &[&[Event]],
) -> Result<Option<LinkError>, AllocError> {
    let numbers: Vec<(u32, u32)> = writes
        .iter()
        .map(|write| (write.cell, write.number))
        .collect(alloc)?;
    if let Some((cell, number)) = least_twice(&numbers) {
        return Ok(Some(LinkError::TwiceWritten { cell, number }));
    }
    if let Some((cell, number)) = least_gap(&numbers, &numbers) {
        return Ok(Some(LinkError::WriteGap { cell, number }));
    }
    let entries = entries_of(alloc, threads)?;
    if let Some((mon, turn)) = least_twice(&entries) {
        return Ok(Some(LinkError::TwiceTurned { mon, turn }));
    }
    if let Some((mon, turn)) = least_gap(&exits_of(alloc, threads)?, &entries) {
        return Ok(Some(LinkError::TurnGap { mon, turn }));
    }
    if let Some(at) = first_misfit(writes, threads, Misfit::TooLarge) {
        return Ok(Some(LinkError::BoundTooLarge { at }));
    }
    if let Some(at) = first_misfit(writes, threads, Misfit::Unequal) {
        return Ok(Some(LinkError::NoEqualWrite { at }));
    }
    let mismatch = first_misfit(writes, threads, Misfit::Mismatch);
    Ok(mismatch.map(|at| LinkError::UpdateMismatch { at }))
}

/// The links of the events, or what is refused first, found by scanning.
pub(crate) fn plain_link(alloc: Global, threads: &[&[Event]]) -> Result<Outcome, AllocError> {
    let writes = writes_of(alloc, threads)?;
    if let Some(error) = refusal_of(alloc, &writes, threads)? {
        return Ok(Err(error));
    }
    let mut rows = Vec::new(alloc);
    for events in threads {
        let mut row = Vec::new(alloc);
        for event in *events {
            row.push(match *event {
                Event::Read { cell, value, bound } => greatest(&writes, cell, value, bound),
                Event::Write { .. }
                | Event::Update { .. }
                | Event::Enter { .. }
                | Event::Exit { .. } => None,
            })?;
        }
        rows.push(row)?;
    }
    Ok(Ok(rows))
}
