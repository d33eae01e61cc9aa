//! `replay`: a program run by a schedule.
ghost use Rattle.std.specs.Prelude.{◌≡◌, ◌≤◌, length, IfOk};
ghost use Rattle.replayer.specs.Replays.{IsAnswer};

use crate::playing::play;
use crate::replay_error::ReplayError;
use crate::results::{Replay, left_by, values_in};
use crate::table::Table;
use std::alloc::Global;
use stride_base::limits::ORDER_LIMIT;
use stride_isa::Checked;
use stride_isa::limits::FUEL_LIMIT;

/// Runs the sequentially consistent machine by a list of thread numbers: first the local start of each thread in order of
/// number, then one turn for each member.
pub fn replay(
    alloc: Global,
    program: &Checked,
    fuel: u32,
    schedule: &[u8],
) -> Result<Replay, ReplayError>
    requires some { 1 ≤ fuel }
    requires limit { fuel ≤ FUEL_LIMIT }
    requires short { length schedule.now ≤ ORDER_LIMIT }
    ensures run { IsAnswer program.now fuel schedule.now result }
    ensures threads { IfOk result (λ replay. length replay.ends.items ≡ length program.now.threads) }
{
    sc_machine::replay_along_turns();
    let mut table = Table::start(alloc, program, fuel)?;
    play(&mut table, schedule)?;
    let last_values = values_in(alloc, program, &table.cells)?;
    let (outputs, ends) = left_by(alloc, table.players)?;
    Ok(Replay {
        transcript: table.transcript,
        outputs,
        ends,
        last_values,
    })
}
