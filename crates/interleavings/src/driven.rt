//! `drive` and its result: the recording that an order of atomic steps gives.
ghost use Rattle.std.specs.Prelude.{◌≡◌, ◌≤◌, IfOk, IfErr, None, length, map};
ghost use Rattle.interleavings.specs.CoreShows.{HasWholeRow};
ghost use Rattle.interleavings.specs.DrivenSeen.{IsStranger, recording_seen};
ghost use Rattle.interleavings.specs.SimulationShows.{Shows};
ghost use Rattle.interleavings.specs.Recording.{Setting};
ghost use Rattle.interleavings.specs.Driving.{Drive, driven, recording_of, stranger};
ghost use Rattle.sc_machine.specs.Schedule.{stopped};

use crate::event::LogEntry;
use crate::limits::PATIENCE_LIMIT;
use crate::results::{end_all, last_values, logs_of};
use crate::simulation::Simulation;
use crate::simulation_start::start_simulation;
use sc_machine::End;
use std::alloc::Global;
use stride_base::limits::ORDER_LIMIT;
use stride_base::{List, NoMemory};
use stride_isa::Checked;
use stride_isa::limits::{FUEL_LIMIT, THREAD_LIMIT};

/// A recording: each thread's log, what it printed and how it ended, in order of number, and the last value of each cell.
#[derive(Drop)]
pub struct Driven {
    pub logs: List<List<LogEntry>>,
    pub outputs: List<List<u8>>,
    pub ends: List<End>,
    pub last_values: List<u64>,
}

/// Why an order was not driven.
#[derive(Clone, Copy, Debug, PartialEq, Eq)]
pub enum DriveError {
    /// The member at this place, counted from 0, names no thread of the program.
    NoSuchThread { place: u32 },
    /// Memory ran out.
    NoMemory,
}

impl From<NoMemory> for DriveError {
    ghost use Rattle.interleavings.specs.declared.driven.DriveError.TheVariants.{NoMemory};

    ghost from_gives = { λ _ error. error ≡ NoMemory };

    fn from(_error: NoMemory) -> DriveError {
        DriveError::NoMemory
    }
}

// The place of the first member that names no thread.
fn stranger_in(threads: u32, order: &[u8]) -> Option<u32>
    requires { length order.now ≤ ORDER_LIMIT }
    ensures { result ≡ stranger threads order.now }
{
    for (place, thread) in order.iter().enumerate() {
        if u32::from(*thread) >= threads {
            return Some(place as u32);
        }
    }
    None
}

// The recording of a run that the simulation shows, in which each thread that has not ended is stopped.
fn recorded(alloc: Global, sim: Simulation<'_>) -> Result<Driven, NoMemory>
    requires { HasWholeRow sim.core }
    ensures { (g : Setting) (d : Drive) → Shows g sim.entry d → IfOk result (λ r. recording_seen r ≡ recording_of g (record { steps = d.steps; threads = map stopped d.threads })) }
{
    let logs = logs_of(alloc, &sim.core.people)?;
    let last_values = last_values(alloc, &sim.core)?;
    let (ends, outputs) = end_all(alloc, sim.threads)?;
    Ok(Driven {
        logs,
        outputs,
        ends,
        last_values,
    })
}

/// The recording that an order of atomic steps gives: the draws of the threads' names, their local starts, one atomic step of
/// the named thread for each member, and after the order the steps by which each thread comes to rest.
///
/// A thread that has ended makes no step. A thread gives up where so many odd looks in a row reach the patience.
pub fn drive(
    alloc: Global,
    program: &Checked,
    fuel: u32,
    patience: u32,
    order: &[u8],
) -> Result<Driven, DriveError>
    requires some { 1 ≤ fuel }
    requires limit { fuel ≤ FUEL_LIMIT }
    requires patient { 1 ≤ patience }
    requires patience_limit { patience ≤ PATIENCE_LIMIT }
    requires short { length order.now ≤ ORDER_LIMIT }
    ensures recording { IfOk result (λ d. recording_seen d ≡ driven (record { program = program.now; fuel = fuel; patience = patience }) order.now) }
    ensures few { IfOk result (λ d. length d.logs.items ≤ THREAD_LIMIT) }
    ensures known { IfOk result (λ _. stranger (length program.now.threads) order.now ≡ None) }
    ensures refused { IfErr result (IsStranger (length program.now.threads) order.now) }
{
    if let Some(place) = stranger_in(program.threads(), order) {
        return Err(DriveError::NoSuchThread { place });
    }
    let mut sim = start_simulation(alloc, program, fuel, patience)?;
    sim.follow(order)?;
    sim.settle()?;
    Ok(recorded(alloc, sim)?)
}
