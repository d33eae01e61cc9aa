//! Events, and what a log keeps of them.
ghost use Rattle.std.specs.Prelude.{◌≡◌};
ghost use Rattle.interleavings.specs.Events.{entry_of as entry, word_in};

/// A finished shared instruction of a thread.
#[derive(Clone, Copy, Debug, PartialEq, Eq)]
pub enum Event {
    /// A read of a cell: the value, and the bound, half of the first even number that was loaded after the value.
    Read {
        cell: u32,
        value: u64,
        bound: u32,
    },
    /// A write of a value into a cell, and its number among the writes and updates of the cell, from 1.
    Write {
        cell: u32,
        value: u64,
        number: u32,
    },
    /// An atomic update of a cell: the value that it met, the value that it stored, and its number among the writes and
    /// updates of the cell, from 1.
    Update {
        cell: u32,
        old: u64,
        new: u64,
        number: u32,
    },
    /// An entry into a monitor, by which the thread holds it for this turn, from 1.
    Enter {
        mon: u32,
        turn: u32,
    },
    /// An exit from a monitor, by which this turn ends.
    Exit {
        mon: u32,
        turn: u32,
    },
}

impl Event {
    /// The word that the event gives its thread: the value that a read or an update met, or `None` for any other event.
    pub fn word(self) -> Option<u64>
        ensures { result ≡ word_in self }
    {
        match self {
            Event::Read { value, .. } => Some(value),
            Event::Update { old, .. } => Some(old),
            Event::Write { .. } | Event::Enter { .. } | Event::Exit { .. } => None,
        }
    }
}

/// What a log keeps of an event. An exit leaves no entry.
#[derive(Clone, Copy, Debug, PartialEq, Eq)]
pub enum LogEntry {
    Read { bound: u32, value: u64 },
    Write { number: u32 },
    Update { number: u32, old: u64 },
    Enter { turn: u32 },
}

// The narrow field stands first, so that an entry takes two words.
const _: () = prove!(size_of::<LogEntry>() == 16);

/// The entry of an event, or `None` exactly for an exit.
pub fn entry_of(event: Event) -> Option<LogEntry>
    ensures { result ≡ entry event }
{
    match event {
        Event::Read { value, bound, .. } => Some(LogEntry::Read { bound, value }),
        Event::Write { number, .. } => Some(LogEntry::Write { number }),
        Event::Update { old, number, .. } => Some(LogEntry::Update { number, old }),
        Event::Enter { turn, .. } => Some(LogEntry::Enter { turn }),
        Event::Exit { .. } => None,
    }
}
