//! What a session keeps of one thread.
ghost use Rattle.std.specs.Prelude.{◌≡◌, ◌≤◌, [], length, IfOk};
ghost use Rattle.std.specs.List.{AllByRecursion};
ghost use Rattle.recorder.specs.Halves.{IsFree};

use interleavings::LogEntry;
use sc_machine::End;
use sc_machine::limits::LINE_LIMIT;
use std::alloc::Global;
use stride_base::{List, NoMemory};
use stride_isa::limits::FUEL_LIMIT;

/// A thread's log, its output and its end. A thread that has not run is stopped at its start.
#[derive(Drop)]
pub struct Slot {
    pub log: List<LogEntry>,
    pub out: List<u8>,
    pub end: End,
}

impl Slot {
    /// A slot with no room. It takes no memory.
    pub(crate) fn empty(alloc: Global) -> Slot
        ensures { IsFree 0 result }
    {
        Slot {
            log: List::new(alloc),
            out: List::new(alloc),
            end: End::Stopped { pc: 0 },
        }
    }
}

// Writes all reserved room of a log, and leaves the log empty. A page that is first written while threads run beside each other
// costs them several times as much.
fn touch(log: &mut List<LogEntry>, room: u32)
    requires empty { log.old.items ≡ [] }
    requires room { room ≤ log.old.spare }
    ensures same { log.new ≡ log.old }
{
    for _ in 0..room {
        log.push_spare(LogEntry::Enter { turn: 0 });
    }
    log.cut(0);
}

// A slot with room for all that a thread of this fuel can log and print.
fn free_slot(alloc: Global, fuel: u32) -> Result<Slot, NoMemory>
    requires { fuel ≤ FUEL_LIMIT }
    ensures { IfOk result (IsFree fuel) }
{
    let mut slot = Slot::empty(alloc);
    slot.log.reserve(fuel as usize)?;
    slot.out.reserve(LINE_LIMIT * fuel as usize)?;
    touch(&mut slot.log, fuel);
    Ok(slot)
}

/// A free slot for each of so many threads.
pub(crate) fn free_slots(alloc: Global, threads: u32, fuel: u32) -> Result<Vec<Slot>, NoMemory>
    requires { fuel ≤ FUEL_LIMIT }
    ensures count { IfOk result (λ slots. length slots.items ≡ threads) }
    ensures free { IfOk result (λ slots. AllByRecursion (IsFree fuel) slots.items) }
{
    let mut slots = Vec::new(alloc);
    for _ in 0..threads {
        slots.push(free_slot(alloc, fuel)?)?;
    }
    Ok(slots)
}
