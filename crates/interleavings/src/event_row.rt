//! `EventRow`: the events of a thread, in 16 bytes each and 16 more for each update.
ghost use Rattle.std.specs.Prelude.{◌≡◌, ◌<◌, [], ◌∷◌, ◌++◌, length, OnOk, OnErr};
ghost use Rattle.std.specs.List.{slice_index_or};
ghost use Rattle.interleavings.specs.KeptEvents.{IsKept, IsNarrow, event_of as event_kept, exchanges_of, kept_of as kept};

use crate::event::Event;
use std::alloc::Global;
use std::marker::Model;
use stride_base::NoMemory;

/// What is kept of an event. The two values of an update are kept apart, at the place `at`.
#[derive(Clone, Copy)]
enum Kept {
    Read { cell: u8, bound: u32, value: u64 },
    Write { cell: u8, number: u32, value: u64 },
    Update { cell: u8, number: u32, at: usize },
    Enter { mon: u8, turn: u32 },
    Exit { mon: u8, turn: u32 },
}

// The narrow fields stand first, so that each takes two words.
const _: () = prove!(size_of::<Kept>() == 16);

/// The values of an update: the one that it met, and the one that it stored.
#[derive(Clone, Copy)]
struct Exchange {
    old: u64,
    new: u64,
}

/// The events of a thread, oldest first.
#[derive(Drop)]
pub struct EventRow {
    kept: Vec<Kept>,
    updates: Vec<Exchange>,
}

impl Model for EventRow {
    ghost use Rattle.std.specs.Prelude.{List, map};
    ghost use Rattle.std.specs.List.{AllByRecursion};
    ghost use Rattle.interleavings.specs.declared.event.Event.{Event};
    ghost use Rattle.interleavings.specs.KeptEvents.{IsKept, event_of};

    ghost Value = { List Event };

    ghost view = { λ row. map (event_of row.updates.items) row.kept.items };

    ghost invariant = { λ row. AllByRecursion (IsKept row.updates.items) row.kept.items };
}

fn kept_of(event: Event, at: usize) -> Kept
    requires { IsNarrow event }
    ensures { result ≡ kept event at }
{
    match event {
        Event::Read { cell, value, bound } => Kept::Read {
            cell: cell as u8,
            bound,
            value,
        },
        Event::Write {
            cell,
            value,
            number,
        } => Kept::Write {
            cell: cell as u8,
            number,
            value,
        },
        Event::Update { cell, number, .. } => Kept::Update {
            cell: cell as u8,
            number,
            at,
        },
        Event::Enter { mon, turn } => Kept::Enter {
            mon: mon as u8,
            turn,
        },
        Event::Exit { mon, turn } => Kept::Exit {
            mon: mon as u8,
            turn,
        },
    }
}

fn event_of(updates: &[Exchange], kept: Kept) -> Event
    requires { IsKept updates.now kept }
    ensures { result ≡ event_kept updates.now kept }
{
    match kept {
        Kept::Read { cell, bound, value } => Event::Read {
            cell: u32::from(cell),
            value,
            bound,
        },
        Kept::Write {
            cell,
            number,
            value,
        } => Event::Write {
            cell: u32::from(cell),
            value,
            number,
        },
        Kept::Update { cell, number, at } => {
            let Exchange { old, new } = updates[at];
            Event::Update {
                cell: u32::from(cell),
                old,
                new,
                number,
            }
        }
        Kept::Enter { mon, turn } => Event::Enter {
            mon: u32::from(mon),
            turn,
        },
        Kept::Exit { mon, turn } => Event::Exit {
            mon: u32::from(mon),
            turn,
        },
    }
}

// The values of an update that has no entry show nothing, so they may stand there before the entry finds its memory.
fn keep_exchange(updates: &mut Vec<Exchange>, event: Event) -> Result<(), NoMemory>
    ensures ok { OnOk result (updates.new.items ≡ updates.old.items ++ exchanges_of event) }
    ensures err { OnErr result (updates.new.items ≡ updates.old.items) }
{
    if let Event::Update { old, new, .. } = event {
        updates.push(Exchange { old, new })?;
    }
    Ok(())
}

impl EventRow {
    pub fn new(alloc: Global) -> EventRow
        ensures { result ≡ [] }
    {
        EventRow {
            kept: Vec::new(alloc),
            updates: Vec::new(alloc),
        }
    }

    /// Appends an event. Where memory runs out nothing has changed.
    pub fn push(&mut self, event: Event) -> Result<(), NoMemory>
        requires { IsNarrow event }
        ensures ok { OnOk result (self.new ≡ self.old ++ event ∷ []) }
        ensures err { OnErr result (self.new ≡ self.old) }
    {
        let at = self.updates.len();
        keep_exchange(&mut self.updates, event)?;
        self.kept.push(kept_of(event, at))?;
        Ok(())
    }

    /// How many events there are.
    pub fn len(&self) -> usize
        ensures { result ≡ length self.now }
    {
        self.kept.len()
    }

    /// The event at a place.
    pub fn at(&self, place: usize) -> Event
        requires { place < length self.now }
        ensures { result ≡ slice_index_or self.now place result }
    {
        event_of(&self.updates, self.kept[place])
    }
}
