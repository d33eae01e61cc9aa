//! What a thread meets where it stands, by the next entry of its log.
ghost use Rattle.std.specs.Prelude.{◌≡◌, slice_index};
ghost use Rattle.interleavings.specs.Following.{enter_met, if_next, met_of, read_met, update_met, write_met};
ghost use Rattle.sc_machine.specs.declared.stop.Stop.TheVariants as stops;
ghost use Rattle.thread_rerun.specs.Shows.{seen_met, Fits, HasMonitor};

use interleavings::{Event, LogEntry};
use sc_machine::Stop;
use stride_isa::Change;
use stride_isa::limits::MONITOR_LIMIT;

/// What a thread meets: an event that it makes, that it is over, or an entry that it can't use.
#[derive(Clone, Copy, Debug, PartialEq, Eq)]
pub(crate) enum Met {
    Makes { event: Event },
    Over,
    Off,
}

// What a read meets.
fn meet_read(cell: u32, next: Option<LogEntry>) -> Met
    ensures met { result ≡ seen_met (if_next next (read_met cell)) }
    ensures fits { Fits (stops.Read cell) result }
{
    match next {
        None => Met::Over,
        Some(LogEntry::Read { bound, value }) => Met::Makes {
            event: Event::Read { cell, value, bound },
        },
        Some(LogEntry::Write { .. } | LogEntry::Update { .. } | LogEntry::Enter { .. }) => Met::Off,
    }
}

// What a write meets.
fn meet_write(cell: u32, value: u64, next: Option<LogEntry>) -> Met
    ensures met { result ≡ seen_met (if_next next (write_met cell value)) }
    ensures fits { Fits (stops.Write cell value) result }
{
    match next {
        None => Met::Over,
        Some(LogEntry::Write { number }) => Met::Makes {
            event: Event::Write {
                cell,
                value,
                number,
            },
        },
        Some(LogEntry::Read { .. } | LogEntry::Update { .. } | LogEntry::Enter { .. }) => Met::Off,
    }
}

// What an update meets: the entry tells the old value, and the change the new one.
fn meet_update(cell: u32, change: Change, next: Option<LogEntry>) -> Met
    ensures met { result ≡ seen_met (if_next next (update_met cell change)) }
    ensures fits { Fits (stops.Update cell change) result }
{
    match next {
        None => Met::Over,
        Some(LogEntry::Update { number, old }) => Met::Makes {
            event: Event::Update {
                cell,
                old,
                new: change.applied(old),
                number,
            },
        },
        Some(LogEntry::Read { .. } | LogEntry::Write { .. } | LogEntry::Enter { .. }) => Met::Off,
    }
}

// What an entry into a monitor meets.
fn meet_enter(mon: u32, next: Option<LogEntry>) -> Met
    ensures met { result ≡ seen_met (if_next next (enter_met mon)) }
    ensures fits { Fits (stops.Enter mon) result }
{
    match next {
        None => Met::Over,
        Some(LogEntry::Enter { turn }) => Met::Makes {
            event: Event::Enter { mon, turn },
        },
        Some(LogEntry::Read { .. } | LogEntry::Write { .. } | LogEntry::Update { .. }) => Met::Off,
    }
}

/// What the thread meets at this stop, given the turn of its last entry into each monitor.
pub(crate) fn meet(stop: Stop, next: Option<LogEntry>, turns: &[u32; MONITOR_LIMIT]) -> Met
    requires { HasMonitor stop }
    ensures met { result ≡ seen_met (met_of stop next (λ m. slice_index turns.now m)) }
    ensures fits { Fits stop result }
{
    match stop {
        Stop::Read { cell } => meet_read(cell, next),
        Stop::Write { cell, value } => meet_write(cell, value, next),
        Stop::Update { cell, change } => meet_update(cell, change, next),
        Stop::Enter { mon } => meet_enter(mon, next),
        Stop::Exit { mon } => Met::Makes {
            event: Event::Exit {
                mon,
                turn: turns[mon as usize],
            },
        },
        Stop::Ended { .. } => match next {
            None => Met::Over,
            Some(_) => Met::Off,
        },
    }
}
