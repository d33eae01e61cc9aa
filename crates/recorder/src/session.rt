//! Sessions: a program is recorded once, on threads of its own.
ghost use Rattle.std.specs.Prelude.{◌≡◌, ◌≤◌, length, map, IfOk};
ghost use Rattle.interleavings.specs.Recording.{IsRecording};
ghost use Rattle.recorder.specs.Sessions.{AreShort, HasRun, IsReserved, recording_in, setting_in};
ghost use Rattle.stride_isa.specs.Listing.{starts_of};

use crate::gate::Gate;
use crate::halves::{Task, record_all};
use crate::slot::{Slot, free_slots};
use crate::taken::Taken;
use interleavings::PATIENCE_LIMIT;
use shared_rule::{Pass, Shared};
use std::alloc::Global;
use std::sync::Wait;
use std::thread::Threads;
use stride_base::NoMemory;
use stride_isa::limits::{FUEL_LIMIT, THREAD_LIMIT};
use stride_isa::{Checked, each_cell_starts};

// The starting values of the program's cells, in order.
fn starting_values(alloc: Global, program: &Checked) -> Result<Vec<u64>, NoMemory>
    ensures { IfOk result (λ starts. starts.items ≡ starts_of program.now.decls) }
{
    each_cell_starts();
    let mut starts = Vec::new(alloc);
    for cell in 0..program.cells() {
        starts.push(program.start_of(cell))?;
    }
    Ok(starts)
}

/// The recording of a program: its shared words, and what is kept of each thread. All memory is taken by `reserve`.
#[derive(Drop)]
pub struct Session<'p> {
    alloc: Global,
    program: &'p Checked,
    fuel: u32,
    patience: u32,
    shared: Shared,
    pass: Pass,
    slots: Vec<Slot>,
    taken: Taken,
}

impl<'p> Session<'p> {
    /// A session that has not run, with room for all that each thread can log and print.
    pub fn reserve(
        alloc: Global,
        program: &'p Checked,
        fuel: u32,
        patience: u32,
    ) -> Result<Session<'p>, NoMemory>
        requires some { 1 ≤ fuel }
        requires limit { fuel ≤ FUEL_LIMIT }
        requires patient { 1 ≤ patience }
        requires patience_limit { patience ≤ PATIENCE_LIMIT }
        ensures setting { IfOk result (λ s. setting_in s ≡ record { program = program.now; fuel = fuel; patience = patience }) }
        ensures reserved { IfOk result IsReserved }
    {
        each_cell_starts();
        program.facts();
        let starts = starting_values(alloc, program)?;
        let (shared, pass) = Shared::prepare(alloc, starts.as_slice(), program.monitors())?;
        let threads = program.threads();
        Ok(Session {
            alloc,
            program,
            fuel,
            patience,
            shared,
            pass,
            slots: free_slots(alloc, threads, fuel)?,
            taken: Taken::reserve(alloc, threads as usize, program.cells() as usize)?,
        })
    }

    /// Runs all threads of the program beside each other, and records each. It refuses nothing and takes no memory.
    pub fn run_threads<R: Threads + Wait + Sync, G: Gate>(&mut self, rt: &R, gate: &G)
        requires { IsReserved self.old }
        ensures setting { setting_in self.new ≡ setting_in self.old }
        ensures run { HasRun self.new }
    {
        let task = Task {
            alloc: self.alloc,
            shared: &self.shared,
            program: self.program,
            fuel: self.fuel,
            patience: self.patience,
            gate,
        };
        record_all(rt, &task, &mut self.pass, self.slots.as_mut_slice(), 0, 4);
    }

    /// What was recorded: the lists, the outputs and the ends are those that the threads left. It refuses nothing and takes no memory.
    pub fn finish(self) -> Taken
        requires { HasRun self }
        ensures recording { IsRecording (setting_in self.entry) (recording_in result) }
        ensures logs { result.logs.items ≡ map (λ slot. slot.log) self.entry.slots.items }
        ensures outputs { result.outputs.items ≡ map (λ slot. slot.out) self.entry.slots.items }
        ensures ends { result.ends.items ≡ map (λ slot. slot.end) self.entry.slots.items }
        ensures few { length result.logs.items ≤ THREAD_LIMIT }
        ensures short { AreShort self.entry.fuel result.logs.items }
    {
        each_cell_starts();
        let Session {
            program,
            shared,
            pass,
            slots,
            mut taken,
            ..
        } = self;
        let closed = shared.close(pass);
        taken.add_threads(slots);
        taken.add_last_values(&closed, program.cells());
        taken
    }
}
