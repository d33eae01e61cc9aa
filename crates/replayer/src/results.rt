//! `Replay`: what the run of a schedule leaves.
ghost use Rattle.std.specs.Prelude.{◌≡◌, ◌≤◌, IfOk, length, map, slice_index};
ghost use Rattle.std.specs.List.{range_with_len};
ghost use Rattle.stride_isa.specs.Listing.{cell_count};
ghost use Rattle.sc_machine.specs.ThreadStep.{end_of};
ghost use Rattle.replayer.specs.Players.{outputs_of, thread_of};

use crate::player::Player;
use crate::table::CELL_ROOM;
use sc_machine::End;
use std::alloc::Global;
use stride_base::{List, NoMemory};
use stride_isa::Checked;

/// What the run of a schedule leaves.
#[derive(Drop)]
pub struct Replay {
    /// Each printed line with the number of its thread before it, in the order of the run.
    pub transcript: List<u8>,
    /// What each thread printed, in order of number.
    pub outputs: List<List<u8>>,
    /// How each thread ended, in order of number; one that had not ended after the last turn is stopped where it stands.
    pub ends: List<End>,
    /// The value of each cell.
    pub last_values: List<u64>,
}

/// What each thread printed and how it ends, in order of number.
pub fn left_by(
    alloc: Global,
    players: Vec<Player<'_>>,
) -> Result<(List<List<u8>>, List<End>), NoMemory>
    ensures outputs { IfOk result (λ left. map (λ out. out.items) left.0.items ≡ outputs_of players.entry.items) }
    ensures ends { IfOk result (λ left. left.1.items ≡ map end_of (map thread_of players.entry.items)) }
{
    let mut outputs = List::new(alloc);
    let mut ends = List::new(alloc);
    for player in players {
        let (end, printed) = player.thread.end();
        outputs.push(printed)?;
        ends.push(end)?;
    }
    Ok((outputs, ends))
}

/// The values of the program's cells, which stand first in the row.
pub fn values_in(
    alloc: Global,
    program: &Checked,
    row: &[u64; CELL_ROOM],
) -> Result<List<u64>, NoMemory>
    requires { cell_count program.now.decls ≤ length row.now }
    ensures { IfOk result (λ values. values.items ≡ map (λ cell. slice_index row.now cell) (range_with_len 0 (cell_count program.now.decls))) }
{
    let mut values = List::new(alloc);
    for cell in 0..program.cells() {
        values.push(row[cell as usize])?;
    }
    Ok(values)
}
