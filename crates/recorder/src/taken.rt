//! What a session gives.
ghost use Rattle.std.specs.Prelude.{◌≡◌, ◌≤◌, [], length, map, IfOk};
ghost use Rattle.std.specs.List.{range_with_len};
ghost use Rattle.interleavings.specs.AtomicStep.{Value};
ghost use Rattle.shared_rule.specs.Closing.{HasCells, last_word};
ghost use Rattle.recorder.specs.Takings.{HasRoom, IsBlank};

use crate::slot::Slot;
use interleavings::LogEntry;
use sc_machine::End;
use shared_rule::Closed;
use std::alloc::Global;
use stride_base::{List, NoMemory};
use stride_isa::limits::CELL_LIMIT;

/// A recording: each thread's log, what it printed and how it ended, in order of number, and the last value of each cell.
#[derive(Drop)]
pub struct Taken {
    pub logs: List<List<LogEntry>>,
    pub outputs: List<List<u8>>,
    pub ends: List<End>,
    pub last_values: List<u64>,
}

// An empty list with room for so many items.
fn with_room<T: Drop>(alloc: Global, count: usize) -> Result<List<T>, NoMemory>
    ensures { IfOk result (HasRoom count) }
{
    let mut list = List::new(alloc);
    list.reserve(count)?;
    Ok(list)
}

impl Taken {
    /// Nothing yet, with room for what is recorded of so many threads and cells.
    pub(crate) fn reserve(alloc: Global, threads: usize, cells: usize) -> Result<Taken, NoMemory>
        ensures { IfOk result (IsBlank threads cells) }
    {
        Ok(Taken {
            logs: with_room(alloc, threads)?,
            outputs: with_room(alloc, threads)?,
            ends: with_room(alloc, threads)?,
            last_values: with_room(alloc, cells)?,
        })
    }

    /// Adds what was recorded of each thread.
    pub(crate) fn add_threads(&mut self, slots: Vec<Slot>)
        requires logs { HasRoom (length slots.items) self.old.logs }
        requires outputs { HasRoom (length slots.items) self.old.outputs }
        requires ends { HasRoom (length slots.items) self.old.ends }
        ensures logs { self.new.logs.items ≡ map (λ slot. slot.log) slots.items }
        ensures outputs { self.new.outputs.items ≡ map (λ slot. slot.out) slots.items }
        ensures ends { self.new.ends.items ≡ map (λ slot. slot.end) slots.items }
        ensures last_values { self.new.last_values ≡ self.old.last_values }
    {
        for slot in slots {
            let Slot { log, out, end } = slot;
            self.logs.push_spare(log);
            self.outputs.push_spare(out);
            self.ends.push_spare(end);
        }
    }

    /// Adds the last value of each of so many cells.
    pub(crate) fn add_last_values(&mut self, closed: &Closed, cells: u32)
        requires few { cells ≤ CELL_LIMIT }
        requires cells { HasCells closed.now cells }
        requires last_values { HasRoom cells self.old.last_values }
        ensures last_values { self.new.last_values.items ≡ map (λ cell. last_word closed.now (Value cell)) (range_with_len 0 cells) }
        ensures logs { self.new.logs ≡ self.old.logs }
        ensures outputs { self.new.outputs ≡ self.old.outputs }
        ensures ends { self.new.ends ≡ self.old.ends }
    {
        for cell in 0..cells {
            self.last_values.push_spare(closed.value(cell));
        }
    }
}
