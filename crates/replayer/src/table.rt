//! The machine that plays a schedule: all threads over one row of cells.
ghost use Rattle.std.specs.Prelude.{◌≡◌, ◌<◌, ◌≤◌, IfOk, length};

use crate::player::Player;
use crate::starting::{start_players, starting_cells};
use std::alloc::Global;
use stride_base::{List, NoMemory};
use stride_isa::Checked;
use stride_isa::limits::{CELL_LIMIT, FUEL_LIMIT, MONITOR_LIMIT};

/// How many cells there is room for: as many as any program has.
pub const CELL_ROOM: usize = CELL_LIMIT as usize;

/// The players of a program's threads, the value of each cell, the thread that holds each monitor, and the transcript so
/// far.
#[derive(Drop)]
pub struct Table<'p> {
    pub program: &'p Checked,
    pub fuel: u32,
    pub players: Vec<Player<'p>>,
    pub cells: [u64; CELL_ROOM],
    pub holders: [Option<u8>; MONITOR_LIMIT],
    pub transcript: List<u8>,
}

impl<'p> Table<'p> {
    ghost use Rattle.std.specs.Prelude.{OnOk};
    ghost use Rattle.sc_machine.specs.Machine.{Machine};
    ghost use Rattle.replayer.specs.Tables.{IsTable, Shows, SameGame, TookTurns};

    /// Takes up to this many turns of a thread in a row, and tells how many: those before the first stop at which it may not go
    /// on. None where there is no such thread.
    pub fn turns(&mut self, thread: u8, limit: u32) -> Result<u32, NoMemory>
        requires { IsTable self.old }
        ensures table { OnOk result (IsTable self.new × SameGame self.old self.new) }
        ensures taken { (m : Machine) → Shows self.old m → IfOk result (λ taken. TookTurns self.old self.new thread limit taken m) }
    {
        sc_machine::turns_in_a_row();
        let Some(player) = self.players.get_mut(thread as usize) else {
            return Ok(0);
        };
        player.turns(
            limit,
            &mut self.cells,
            &mut self.holders,
            &mut self.transcript,
        )
    }
}

impl<'p> Table<'p> {
    ghost use Rattle.std.specs.Prelude.{List};
    ghost use Rattle.sc_machine.specs.Machine.{Machine};
    ghost use Rattle.sc_machine.specs.Schedule.{ready};
    ghost use Rattle.replayer.specs.Tables.{IsTable, Shows};

    /// The table after the local start of each thread.
    pub fn start(alloc: Global, program: &'p Checked, fuel: u32) -> Result<Table<'p>, NoMemory>
        requires some { 1 ≤ fuel }
        requires limit { fuel ≤ FUEL_LIMIT }
        ensures table { IfOk result IsTable }
        ensures shows { IfOk result (λ table. Shows table (ready program.now fuel)) }
        ensures program { IfOk result (λ table. table.program.now ≡ program.now) }
        ensures fuel { IfOk result (λ table. table.fuel ≡ fuel) }
    {
        sc_machine::starts_settle();
        let mut transcript = List::new(alloc);
        let players = start_players(alloc, program, fuel, &mut transcript)?;
        Ok(Table {
            program,
            fuel,
            players,
            cells: starting_cells(program),
            holders: [None; MONITOR_LIMIT],
            transcript,
        })
    }
}
