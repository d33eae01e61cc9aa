//! All threads of a program over one core, advanced one atomic step at a time.
ghost use Rattle.std.specs.Prelude.{◌≡◌, ◌<◌, ◌*◌, ◌+◌, ℕ, OnOk, length, slice_index};

use crate::core_state::Core;
use crate::driven_thread::go_on;
use crate::rest::Rest;
use crate::step_choice::{has_claimed, is_exit, is_loaded, next_step};
use sc_machine::StandingThread;
use stride_base::NoMemory;
use stride_isa::Checked;
use stride_isa::limits::THREAD_LIMIT;

/// The threads of a program over one core.
#[derive(Drop)]
pub struct Simulation<'p> {
    pub program: &'p Checked,
    pub fuel: u32,
    pub patience: u32,
    pub threads: Vec<StandingThread<'p>>,
    pub core: Core,
}

impl<'p> Simulation<'p> {
    ghost use Rattle.sc_machine.specs.Schedule.{thread_numbers};
    ghost use Rattle.interleavings.specs.Recording.{Setting};
    ghost use Rattle.interleavings.specs.Driving.{Drive, advance, advance_all, finished, finished_by_all, is_left, settle_all};
    ghost use Rattle.interleavings.specs.SimulationShows.{Shows, CanGo, Makes};

    /// One atomic step of a thread, if it has not ended.
    pub fn advance(&mut self, thread: u32) -> Result<(), NoMemory>
        requires thread { thread < length self.old.threads.items }
        requires goes { CanGo self.old 1 }
        ensures { OnOk result (Makes (λ g. advance g thread) self.old self.new) }
    {
        let stop = self.threads[thread as usize].stop();
        let phase = self.core.people[thread as usize].phase;
        let Some(step) = next_step(thread, stop, phase) else {
            return Ok(());
        };
        let finished = self.core.happen(step)?;
        let looks = self.core.people[thread as usize].looks;
        go_on(
            &mut self.threads[thread as usize],
            finished,
            self.patience,
            looks,
        );
        Ok(())
    }

    /// One atomic step of the named thread for each member of the order, in turn.
    pub fn follow(&mut self, order: &[u8]) -> Result<(), NoMemory>
        requires known { (place : ℕ) → place < length order.now → slice_index order.now place < length self.old.threads.items }
        requires goes { CanGo self.old (length order.now) }
        ensures { OnOk result (Makes (λ g. advance_all g order.now) self.old self.new) }
    {
        for thread in order {
            self.advance(u32::from(*thread))?;
        }
        Ok(())
    }

    // Whether a thread has this left.
    fn has_left(&self, rest: Rest, thread: u32) -> bool
        requires thread { thread < length self.now.threads.items }
        requires goes { CanGo self.now 0 }
        ensures { (g : Setting) (d : Drive) → Shows g self.now d → result ≡ is_left rest g thread d }
    {
        match rest {
            Rest::Write => has_claimed(self.core.people[thread as usize].phase),
            Rest::Read => is_loaded(self.core.people[thread as usize].phase),
            Rest::Exits => is_exit(self.threads[thread as usize].stop()),
        }
    }

    // Advances a thread until it has this left no more.
    fn finish(&mut self, rest: Rest, thread: u32) -> Result<(), NoMemory>
        requires thread { thread < length self.old.threads.items }
        requires goes { CanGo self.old (self.old.fuel + 3) }
        ensures { OnOk result (Makes (λ g. finished rest g thread) self.old self.new) }
    {
        for _step in 0..self.fuel + 3 {
            if !self.has_left(rest, thread) {
                return Ok(());
            }
            self.advance(thread)?;
        }
        Ok(())
    }

    // Lets each thread finish this, in order of number.
    fn finish_all(&mut self, rest: Rest) -> Result<(), NoMemory>
        requires { CanGo self.old (THREAD_LIMIT * (self.old.fuel + 3)) }
        ensures { OnOk result (Makes (λ g. finished_by_all rest g (thread_numbers g.program)) self.old self.new) }
    {
        for thread in 0..self.program.threads() {
            self.finish(rest, thread)?;
        }
        Ok(())
    }

    /// Lets the threads finish after an order: what was claimed, then what was read, then exits.
    pub fn settle(&mut self) -> Result<(), NoMemory>
        requires { CanGo self.old (3 * THREAD_LIMIT * (self.old.fuel + 3)) }
        ensures { OnOk result (Makes settle_all self.old self.new) }
    {
        self.finish_all(Rest::Write)?;
        self.finish_all(Rest::Read)?;
        self.finish_all(Rest::Exits)
    }
}
