//! What a recording keeps of a run that has come to its end.
ghost use Rattle.std.specs.Prelude.{◌≡◌, map, IfOk, slice_index};
ghost use Rattle.std.specs.List.{range_with_len};
ghost use Rattle.sc_machine.specs.ThreadStep.{end_of};
ghost use Rattle.interleavings.specs.AtomicStep.{Value};
ghost use Rattle.interleavings.specs.CoreShows.{HasWholeRow};
ghost use Rattle.interleavings.specs.Events.{log_of as log};
ghost use Rattle.interleavings.specs.Layout.{index_of};

use crate::activity::Activity;
use crate::core_state::Core;
use crate::event::{Event, LogEntry, entry_of};
use sc_machine::{End, StandingThread};
use std::alloc::Global;
use std::collections::LinkedList;
use stride_base::{List, NoMemory};

// The log of these events.
fn log_of(alloc: Global, events: &LinkedList<Event>) -> Result<List<LogEntry>, NoMemory>
    ensures { IfOk result (λ entries. entries.items ≡ log events.now) }
{
    let mut entries = List::new(alloc);
    entries.reserve(events.len())?;
    for event in events {
        if let Some(entry) = entry_of(*event) {
            entries.push(entry)?;
        }
    }
    Ok(entries)
}

/// Each thread's log, in order of number.
pub fn logs_of(alloc: Global, people: &[Activity]) -> Result<List<List<LogEntry>>, NoMemory>
    ensures { IfOk result (λ logs. map (λ entries. entries.items) logs.items ≡ map (λ activity. log activity.events) people.now) }
{
    let mut logs = List::new(alloc);
    for activity in people {
        logs.push(log_of(alloc, &activity.events)?)?;
    }
    Ok(logs)
}

/// How each thread ends and what it printed, in order of number. A thread that has not ended is stopped.
pub fn end_all(
    alloc: Global,
    threads: Vec<StandingThread<'_>>,
) -> Result<(List<End>, List<List<u8>>), NoMemory>
    ensures ends { IfOk result (λ left. left.0.items ≡ map (λ thread. end_of thread.state) threads.entry.items) }
    ensures outputs { IfOk result (λ left. map (λ output. output.items) left.1.items ≡ map (λ thread. thread.state.out) threads.entry.items) }
{
    let mut ends = List::new(alloc);
    let mut outputs = List::new(alloc);
    for thread in threads {
        let (end, printed) = thread.end();
        ends.push(end)?;
        outputs.push(printed)?;
    }
    Ok((ends, outputs))
}

/// The last value of each cell.
pub fn last_values(alloc: Global, core: &Core) -> Result<List<u64>, NoMemory>
    requires { HasWholeRow core.now }
    ensures { IfOk result (λ values. values.items ≡ map (λ cell. slice_index core.now.words.items (index_of core.now.layout.cells (Value cell))) (range_with_len 0 core.now.layout.cells)) }
{
    let mut values = List::new(alloc);
    for cell in 0..core.layout.cells {
        values.push(core.words[core.layout.value_word(cell)])?;
    }
    Ok(values)
}
