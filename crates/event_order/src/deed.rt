//! `Deed`: what an event is to the order.
ghost use Rattle.std.specs.Prelude.{◌≡◌, ◌+◌, ◌*◌, ◌^◌, ◌<◌, ◌≤◌};
ghost use Rattle.event_order.specs.Deeds.{deed_of, earlier as earlier_slot, gives_of, needs_of, needs_too_of, number_in, owner_in, owner_of, sort_in};

use crate::slot::Slot;
use interleavings::Event;

/// What an event is to the order. An update is a write. There is one for each event, so the number of the cell or the monitor is
/// as narrow as the limits allow.
#[derive(Clone, Copy)]
pub(crate) enum Deed {
    /// The write of the cell with this number.
    Write { cell: u8, number: u32 },
    /// A read that is linked to the write of the cell with this number.
    Read { cell: u8, number: u32 },
    /// The entry into the monitor by which this turn begins.
    Enter { mon: u8, turn: u32 },
    /// An exit from the monitor by which this turn ends.
    Exit { mon: u8, turn: u32 },
}

const _: () = prove!(size_of::<Deed>() == 8);

fn writes(cell: u8) -> u32
    ensures { result ≡ 3 * cell }
{
    3 * u32::from(cell)
}

fn reads(cell: u8) -> u32
    ensures { result ≡ 3 * cell + 1 }
{
    3 * u32::from(cell) + 1
}

fn exits(mon: u8) -> u32
    ensures { result ≡ 3 * mon + 2 }
{
    3 * u32::from(mon) + 2
}

fn earlier(row: u32, number: u32) -> Option<Slot>
    ensures { result ≡ earlier_slot row number }
{
    if number == 0 {
        None
    } else {
        Some(Slot {
            row,
            number: number - 1,
        })
    }
}

impl Deed {
    /// What an event with this link is to the order.
    pub(crate) fn of(event: Event, link: Option<u32>) -> Deed
        requires { owner_of event < 2 ^ 8 }
        ensures { result ≡ deed_of event link }
    {
        match event {
            // Each read has a link where the links are those of the events.
            Event::Read { cell, .. } => Deed::Read {
                cell: cell as u8,
                number: link.unwrap_or(0),
            },
            Event::Write { cell, number, .. } | Event::Update { cell, number, .. } => {
                Deed::Write {
                    cell: cell as u8,
                    number,
                }
            }
            Event::Enter { mon, turn } => Deed::Enter {
                mon: mon as u8,
                turn,
            },
            Event::Exit { mon, turn } => Deed::Exit {
                mon: mon as u8,
                turn,
            },
        }
    }

    // The number of its cell or its monitor. Each form keeps it at the same place, so that this is no choice when it runs.
    fn owner(self) -> u8
        ensures { result ≡ owner_in self }
    {
        match self {
            Deed::Write { cell, .. } | Deed::Read { cell, .. } => cell,
            Deed::Enter { mon, .. } | Deed::Exit { mon, .. } => mon,
        }
    }

    // The number of its write or its turn, likewise.
    fn number(self) -> u32
        ensures { result ≡ number_in self }
    {
        match self {
            Deed::Write { number, .. } | Deed::Read { number, .. } => number,
            Deed::Enter { turn, .. } | Deed::Exit { turn, .. } => turn,
        }
    }

    // Which of the rows of its cell or its monitor it fills.
    fn sort(self) -> u32
        ensures sort { result ≡ sort_in self }
        ensures few { result ≤ 2 }
    {
        match self {
            Deed::Write { .. } => 0,
            Deed::Read { .. } => 1,
            Deed::Enter { .. } | Deed::Exit { .. } => 2,
        }
    }

    /// The slot that it fills.
    pub(crate) fn gives(self) -> Option<Slot>
        ensures { result ≡ gives_of self }
    {
        match self {
            Deed::Enter { .. } => None,
            Deed::Write { .. } | Deed::Read { .. } | Deed::Exit { .. } => Some(Slot {
                row: 3 * u32::from(self.owner()) + self.sort(),
                number: self.number(),
            }),
        }
    }

    /// A slot that has to be filled before it.
    pub(crate) fn needs(self) -> Option<Slot>
        ensures { result ≡ needs_of self }
    {
        match self {
            Deed::Write { cell, number } => earlier(writes(cell), number),
            Deed::Read { cell, number } => Some(Slot {
                row: writes(cell),
                number,
            }),
            Deed::Enter { mon, turn } => earlier(exits(mon), turn),
            Deed::Exit { .. } => None,
        }
    }

    /// The other slot that has to be filled before it.
    pub(crate) fn needs_too(self) -> Option<Slot>
        ensures { result ≡ needs_too_of self }
    {
        match self {
            Deed::Write { cell, number } => earlier(reads(cell), number),
            Deed::Read { .. } | Deed::Enter { .. } | Deed::Exit { .. } => None,
        }
    }
}
