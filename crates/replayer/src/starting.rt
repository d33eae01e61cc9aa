//! The table at the start: each player after its local start, each cell at its starting value.
ghost use Rattle.std.specs.Prelude.{◌≡◌, ◌++◌, ◌<◌, ◌≤◌, ℕ, [], IfOk, OnOk, length, map, slice_index};
ghost use Rattle.std.specs.List.{flat_map, range_with_len, slice_index_or};
ghost use Rattle.stride_isa.specs.Listing.{start_of, cell_count};
ghost use Rattle.sc_machine.specs.ThreadStep.{start_thread};
ghost use Rattle.sc_machine.specs.Schedule.{settled_lines};
ghost use Rattle.sc_machine.specs.Transcript.{transcript_bytes};
ghost use Rattle.replayer.specs.Players.{ArePlayers};

use crate::player::Player;
use crate::table::CELL_ROOM;
use std::alloc::Global;
use stride_base::{List, NoMemory};
use stride_isa::Checked;
use stride_isa::limits::FUEL_LIMIT;

/// A player for each thread, in order of number. What they print on the way is appended to the transcript.
pub fn start_players<'p>(
    alloc: Global,
    program: &'p Checked,
    fuel: u32,
    transcript: &mut List<u8>,
) -> Result<Vec<Player<'p>>, NoMemory>
    requires some { 1 ≤ fuel }
    requires limit { fuel ≤ FUEL_LIMIT }
    ensures players { IfOk result (λ players. ArePlayers program.now fuel (length program.now.threads) players.items) }
    ensures printed { OnOk result (transcript.new.items ≡ transcript.old.items
        ++ transcript_bytes (flat_map (λ t. settled_lines program.now fuel t start_thread) (range_with_len 0 (length program.now.threads)))) }
{
    let mut players = Vec::new(alloc);
    for thread in 0..program.threads() {
        let player = Player::start(alloc, program, thread, fuel, transcript)?;
        players.push(player)?;
    }
    Ok(players)
}

/// The starting value of each cell of the program; 0 after them.
pub fn starting_cells(program: &Checked) -> [u64; CELL_ROOM]
    ensures starts { (cell : ℕ) → cell < cell_count program.now.decls → slice_index result cell ≡ start_of program.now cell }
    ensures room { cell_count program.now.decls ≤ length result }
{
    let mut cells = [0; CELL_ROOM];
    for cell in 0..program.cells() {
        cells[cell as usize] = program.start_of(cell);
    }
    cells
}
