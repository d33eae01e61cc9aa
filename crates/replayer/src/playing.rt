//! The loop over a schedule.
ghost use Rattle.std.specs.Prelude.{◌<◌, ◌≤◌, length};
ghost use Rattle.sc_machine.specs.Schedule.{ready};
ghost use Rattle.replayer.specs.Schedules.{IsRow, Plays};
ghost use Rattle.replayer.specs.Tables.{IsTable, Shows};

use crate::replay_error::ReplayError;
use crate::table::Table;
use stride_base::limits::ORDER_LIMIT;

// The end of the row of members that name the same thread as the one at this place.
fn row_end(schedule: &[u8], place: usize) -> usize
    requires { place < length schedule.now }
    ensures after { place < result }
    ensures within { result ≤ length schedule.now }
    ensures row { IsRow schedule.now place result }
{
    let mut end = place + 1;
    while end < schedule.len() && schedule[end] == schedule[place] {
        end += 1;
    }
    end
}

/// Plays the schedule, one turn for each member. Members in a row that name the same thread are played together.
pub fn play(table: &mut Table<'_>, schedule: &[u8]) -> Result<(), ReplayError>
    requires table { IsTable table.old }
    requires ready { Shows table.old (ready table.old.program.now table.old.fuel) }
    requires limit { length schedule.now ≤ ORDER_LIMIT }
    ensures { Plays table.old table.new schedule.now result }
{
    sc_machine::replay_along_turns();
    sc_machine::turns_join();
    let mut place = 0;
    while place < schedule.len() {
        let end = row_end(schedule, place);
        let taken = table.turns(schedule[place], (end - place) as u32)?;
        place += taken as usize;
        if place < end {
            return Err(ReplayError::NotEnabled {
                place: place as u32,
            });
        }
    }
    Ok(())
}
