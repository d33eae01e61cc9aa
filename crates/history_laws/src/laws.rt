//! Laws of the events of histories and of recordings, over the definitions alone. Each is the contract of a function that does
//! nothing but cite laws of the crates below.
ghost use Rattle.history_laws.specs.Laws.{HistoriesAreLinked, HistoriesAreOrdered, HistoriesHaveOrders, RecordingsAreHistories, RecordingsHaveSchedules, SchedulesReplayRecordings};

use event_order::{extensions_are_runs, followed_are_in_range, least_or_cycle};
use histories::{histories_have_chronicles, strangers_are_newcomers};
use linkage::links_or_refusal;
use sc_machine::{outputs_are_lines, starts_settle, turns_are_steps};
use stride_isa::each_cell_starts;

/// No number or turn of the events of a history, all of cells and monitors that are there, is used twice or left out, each read has a
/// write of its value within its bound, and each update met the value of the write before it.
pub fn histories_are_linked()
    ensures { HistoriesAreLinked }
{
    histories_have_chronicles();
}

/// With the links of the events of such a history there is no cycle.
pub fn histories_are_ordered()
    ensures { HistoriesAreOrdered }
{
    histories_have_chronicles();
}

/// The events of such a history have links and a least schedule.
pub fn histories_have_orders()
    ensures { HistoriesHaveOrders }
{
    histories_are_linked();
    histories_are_ordered();
    least_or_cycle();
    links_or_refusal();
}

/// Running the threads of a recording again gives the events of its history.
pub fn recordings_are_histories()
    ensures { RecordingsAreHistories }
{
    strangers_are_newcomers();
}

/// A recording is a run of the sequentially consistent machine: it has a schedule, by whose run each thread makes exactly its
/// recorded events, with its recorded output and end, and each cell is left with its recorded last value.
pub fn recordings_are_runs()
    ensures schedule { RecordingsHaveSchedules }
    ensures replay { SchedulesReplayRecordings }
{
    each_cell_starts();
    extensions_are_runs();
    followed_are_in_range();
    histories_have_chronicles();
    histories_have_orders();
    outputs_are_lines();
    recordings_are_histories();
    starts_settle();
    turns_are_steps();
}
