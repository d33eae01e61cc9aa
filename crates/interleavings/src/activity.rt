//! What a thread does while it is recorded.

use crate::event::Event;
use crate::kind::Kind;
use std::collections::LinkedList;

/// How far a thread is with its shared instruction.
#[derive(Clone, Copy, Debug, PartialEq, Eq)]
pub enum Phase {
    /// It has begun none.
    Idle,
    /// Of a read: it has loaded this value of the cell.
    Loaded {
        cell: u32,
        value: u64,
    },
    /// Of a write or an update: it has seen the number even, twice `n`.
    Numbered {
        cell: u32,
        n: u32,
    },
    /// Of a write or an update: it has claimed write `n + 1` by making the number odd.
    Marked {
        cell: u32,
        n: u32,
    },
    /// Of an update: it has claimed, and has loaded the old value.
    Fetched {
        cell: u32,
        n: u32,
        old: u64,
    },
    /// Of a write or an update: it has stored the value; an update keeps the old one.
    Stored {
        cell: u32,
        n: u32,
        old: Option<u64>,
        value: u64,
    },
    /// Of an entry: it has seen the monitor free after so many turns.
    Looked {
        mon: u32,
        turn: u32,
    },
}

/// A monitor that a thread holds, and for which turn.
#[derive(Clone, Copy, Debug, PartialEq, Eq)]
pub struct HeldTurn {
    pub mon: u32,
    pub turn: u32,
}

/// A number of a cell that a thread has seen: half of an even number that it loaded after the value, or the number of a
/// write or update of its own.
#[derive(Clone, Copy, Debug, PartialEq, Eq)]
pub struct SeenNumber {
    pub cell: u32,
    pub number: u32,
}

/// How often in a row a thread looked at a monitor that was held.
#[derive(Clone, Copy, Debug, PartialEq, Eq)]
pub struct OddLooks {
    pub mon: u32,
    pub count: u32,
}

/// What a thread has done and is doing: its name, how far it is, its finished events in order, the turns that it holds, and
/// its row of odd looks, if there is one.
#[derive(Drop)]
pub struct Activity {
    pub name: Option<u32>,
    pub phase: Phase,
    pub events: LinkedList<Event>,
    pub held: LinkedList<HeldTurn>,
    pub looks: Option<OddLooks>,
}

/// A thread's last step: its kind, the cell or monitor where the kind has one, and the word that it loaded or met, 0 for a
/// store.
#[derive(Clone, Copy, Debug, PartialEq, Eq)]
pub struct LastStep {
    pub kind: Kind,
    pub place: Option<u32>,
    pub word: u64,
}

/// How many steps a thread has made, and the last of them.
#[derive(Clone, Copy, Debug, PartialEq, Eq)]
pub struct Tally {
    pub steps: u64,
    pub last: Option<LastStep>,
}
