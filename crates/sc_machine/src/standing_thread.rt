//! A thread that stands, with what it printed.
ghost use Rattle.std.specs.Prelude.{◌≡◌, ◌<◌, ◌≤◌, IfOk, length, unwrap_or};
ghost use Rattle.sc_machine.specs.Schedule.{stopped};
ghost use Rattle.sc_machine.specs.StandingThread.{IsThreadOf, started_at, standing_after, stop_here};
ghost use Rattle.sc_machine.specs.ThreadRun.{IsShared, NamesCell, TakesWord, state};
ghost use Rattle.sc_machine.specs.ThreadStep.{Stands, end_of, now};
ghost use Rattle.sc_machine.specs.TurnsInARow.{TookTurns, beside};
ghost use Rattle.stride_isa.specs.Listing.{cell_count};

use crate::end::End;
use crate::limits::LINE_LIMIT;
use crate::stop::Stop;
use crate::thread_run::ThreadRun;
use std::alloc::Global;
use std::marker::Model;
use stride_base::{List, NoMemory};
use stride_isa::Checked;
use stride_isa::limits::{FUEL_LIMIT, MONITOR_LIMIT};

/// One thread of a program at a shared instruction or at its end, with what it printed so far and room for all that it may
/// print yet.
///
/// Only `start` takes memory.
#[derive(Drop)]
pub struct StandingThread<'p> {
    run: ThreadRun<'p>,
    printed: List<u8>,
}

impl<'p> Model for StandingThread<'p> {
    ghost use Rattle.sc_machine.specs.StandingInside.{IsStanding};
    ghost use Rattle.sc_machine.specs.StandingThread.{Standing};
    ghost use Rattle.sc_machine.specs.ThreadRun.{state};

    ghost Value = { Standing };

    ghost view = { λ a. record { program = a.run.program; number = a.run.thread; fuel = a.run.fuel; state = state a.run a.printed.items } };

    ghost invariant = { λ a. IsStanding a.run a.printed };
}

impl<'p> StandingThread<'p> {
    /// The thread after its local start, with a fuel of 1 to 1,000,000 instructions.
    pub fn start(
        alloc: Global,
        program: &'p Checked,
        number: u32,
        fuel: u32,
    ) -> Result<StandingThread<'p>, NoMemory>
        requires thread { number < length program.now.threads }
        requires some { 1 ≤ fuel }
        requires limit { fuel ≤ FUEL_LIMIT }
        ensures { IfOk result (λ thread. thread ≡ started_at program.now fuel number) }
    {
        let mut printed = List::new(alloc);
        printed.reserve(LINE_LIMIT * fuel as usize)?;
        let mut run = ThreadRun::start(program, number, fuel);
        run.settle(&mut printed);
        Ok(StandingThread { run, printed })
    }

    /// Where the thread stands.
    #[inline(always)]
    pub fn stop(&self) -> Stop
        ensures stop { result ≡ stop_here self.now }
        ensures stands { now self.now.program self.now.number self.now.state ≡ Stands result }
        ensures names_cell { NamesCell self.now.program result }
        ensures fuel_left { IsShared result → self.now.state.made < self.now.fuel }
    {
        self.run.stop()
    }

    /// Completes the shared instruction at which the thread stands, and makes its local instructions up to where it stands
    /// next. The word is there exactly for a read or an update, which gets it.
    pub fn answer(&mut self, word: Option<u64>)
        requires { TakesWord (stop_here self.old) word }
        ensures { self.new ≡ standing_after (unwrap_or word 0) self.old }
    {
        self.run.go_on(word, &mut self.printed);
    }

    /// Takes up to this many turns of the thread in a row, and tells how many: those before the first stop at which it may not
    /// go on, since it has ended or another thread holds the monitor.
    pub fn turns(&mut self, limit: u32, cells: &mut [u64], holders: &mut [Option<u8>]) -> u32
        requires cells { cell_count self.old.program.decls ≤ length cells.old }
        requires holders { length holders.old ≡ MONITOR_LIMIT }
        ensures turns { TookTurns self.old.program self.old.fuel self.old.number limit result
            (beside cells.old holders.old self.old.state) (beside cells.new holders.new self.new.state) }
        ensures stood { now self.old.program self.old.number self.old.state ≡ Stands (stop_here self.old) }
        ensures same { IsThreadOf self.old.program self.old.fuel self.old.number self.new }
        ensures cells { length cells.new ≡ length cells.old }
        ensures holders { length holders.new ≡ length holders.old }
    {
        self.run.turns(limit, cells, holders, &mut self.printed)
    }

    /// Ends the thread at the shared instruction where it stands. The instruction is not counted.
    pub fn give_up(&mut self)
        requires { IsShared (stop_here self.old) }
        ensures { self.new ≡ record self.old { state = stopped self.old.state } }
    {
        self.run.give_up();
    }

    /// What the thread printed so far.
    pub fn printed(&self) -> &[u8]
        ensures { result.now ≡ self.now.state.out }
    {
        self.printed.as_slice()
    }

    /// How the thread ends where it is not answered any more, and what it printed: at a shared instruction it is stopped.
    pub fn end(self) -> (End, List<u8>)
        ensures end { result.0 ≡ end_of self.entry.state }
        ensures printed { result.1.items ≡ self.entry.state.out }
    {
        let mut run = self.run;
        let end = match run.stop() {
            Stop::Ended { end } => end,
            Stop::Read { cell: _ }
            | Stop::Write { cell: _, value: _ }
            | Stop::Update { cell: _, change: _ }
            | Stop::Enter { mon: _ }
            | Stop::Exit { mon: _ } => run.give_up(),
        };
        (end, self.printed)
    }
}
