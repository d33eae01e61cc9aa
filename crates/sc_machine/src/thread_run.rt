//! One thread's run.
ghost use Rattle.std.specs.Prelude.{◌≡◌, ◌+◌, ◌-◌, ◌*◌, ◌≤◌, ◌<◌, Some, length, unwrap_or};
ghost use Rattle.sc_machine.specs.ThreadStep.{answered, holds, settled};
ghost use Rattle.sc_machine.specs.ThreadRun.{run_of, start_run, state, stop_at, StandsAt, SameThread, IsAnswered, IsShared, TakesWord, NamesCell};
ghost use Rattle.sc_machine.specs.TurnsInARow.{TookTurns, beside};
ghost use Rattle.sc_machine.specs.declared.end.End.TheVariants.{Stopped};
ghost use Rattle.stride_isa.specs.Listing.{cell_count};

use crate::control::Control;
use crate::end::End;
use crate::frame::Frame;
use crate::limits::LINE_LIMIT;
use crate::stop::Stop;
use std::marker::Model;
use stride_base::List;
use stride_isa::Checked;
use stride_isa::limits::{FUEL_LIMIT, LOCAL_COUNT, MONITOR_LIMIT, STACK_LIMIT};

/// One thread of a program while it runs. What it prints goes to a list of the caller's.
///
/// A thread stands at a shared instruction until it is answered or given up. No call takes memory.
#[derive(Drop)]
pub struct ThreadRun<'p> {
    control: Control<'p>,
    frame: Frame,
}

impl<'p> Model for ThreadRun<'p> {
    ghost use Rattle.sc_machine.specs.ThreadRun.{Run, run_of};

    ghost Value = { Run };

    ghost view = { λ a. run_of a.control a.frame };
}

impl<'p> ThreadRun<'p> {
    /// The thread at its start, with a fuel of 1 to 1,000,000 instructions.
    #[tactic(auto, unfolding(crate::specs::Operands::operands))]
    pub fn start(program: &'p Checked, thread: u32, fuel: u32) -> ThreadRun<'p>
        requires thread { thread < length program.now.threads }
        requires some { 1 ≤ fuel }
        requires limit { fuel ≤ FUEL_LIMIT }
        ensures { result ≡ start_run program.now thread fuel }
    {
        ThreadRun {
            control: Control::start(program, thread, fuel),
            frame: Frame {
                words: [0; STACK_LIMIT],
                locals: [0; LOCAL_COUNT],
                held: [false; MONITOR_LIMIT],
            },
        }
    }

    /// The run in its two parts, for a loop that keeps the first in registers.
    #[inline(always)]
    pub fn apart(self) -> (Control<'p>, Frame)
        ensures { run_of result.0 result.1 ≡ self.entry }
    {
        (self.control, self.frame)
    }

    /// Makes local instructions up to the next shared one or the end, and tells which it is. What they print is
    /// appended to `out`, which needs room for it. A shared instruction that traps is made here, as a local one.
    ///
    /// At a shared instruction, and after the end, it changes nothing.
    #[inline(always)]
    pub fn local(&mut self, out: &mut List<u8>) -> Stop
        requires { LINE_LIMIT * (self.old.fuel - self.old.made) ≤ out.old.spare }
        ensures state { state self.new out.new.items
            ≡ settled self.old.program self.old.fuel self.old.thread (state self.old out.old.items) }
        ensures stop { result ≡ stop_at self.new }
        ensures stands { StandsAt self.new result }
        ensures same { SameThread self.old self.new }
        ensures names_cell { NamesCell self.old.program result }
        ensures made { self.old.made ≤ self.new.made }
        ensures fuel_left { IsShared result → self.new.made < self.new.fuel }
        ensures spare { LINE_LIMIT * (self.new.fuel - self.new.made) ≤ out.new.spare }
        ensures used { out.new.spare + length out.new.items ≡ out.old.spare + length out.old.items }
    {
        self.control.local(&mut self.frame, out)
    }

    /// The same as `local`, but does not tell where the thread stands then.
    #[inline(always)]
    pub(crate) fn settle(&mut self, out: &mut List<u8>)
        requires { LINE_LIMIT * (self.old.fuel - self.old.made) ≤ out.old.spare }
        ensures state { state self.new out.new.items
            ≡ settled self.old.program self.old.fuel self.old.thread (state self.old out.old.items) }
        ensures stands { StandsAt self.new (stop_at self.new) }
        ensures same { SameThread self.old self.new }
        ensures made { self.old.made ≤ self.new.made }
        ensures spare { LINE_LIMIT * (self.new.fuel - self.new.made) ≤ out.new.spare }
        ensures used { out.new.spare + length out.new.items ≡ out.old.spare + length out.old.items }
    {
        self.control.settle(&mut self.frame, out);
    }

    /// Where the thread stands. One that has not settled reads as if it had halted.
    #[inline(always)]
    pub(crate) fn stop(&self) -> Stop
        ensures stop { result ≡ stop_at self.now }
        ensures names_cell { NamesCell self.now.program result }
        ensures fuel_left { IsShared result → self.now.made < self.now.fuel }
    {
        self.control.stop(&self.frame)
    }

    /// Completes the shared instruction at which the thread stands. The word is there exactly for a read or an
    /// update, which gets it.
    #[inline(always)]
    pub fn answer(&mut self, word: Option<u64>)
        requires { TakesWord (stop_at self.old) word }
        ensures state { IsAnswered self.old self.new (unwrap_or word 0) }
        ensures made { self.new.made ≡ self.old.made + 1 }
        ensures same { SameThread self.old self.new }
    {
        self.control.answer(&mut self.frame, word);
    }

    /// The same as `answer` and `local` after it, but does not tell where the thread stands then.
    #[inline(always)]
    pub(crate) fn go_on(&mut self, word: Option<u64>, out: &mut List<u8>)
        requires word { TakesWord (stop_at self.old) word }
        requires spare { LINE_LIMIT * (self.old.fuel - self.old.made) ≤ out.old.spare }
        ensures state { state self.new out.new.items ≡ settled self.old.program self.old.fuel self.old.thread
            (answered self.old.program self.old.fuel self.old.thread (unwrap_or word 0) (state self.old out.old.items)) }
        ensures stands { StandsAt self.new (stop_at self.new) }
        ensures same { SameThread self.old self.new }
        ensures spare { LINE_LIMIT * (self.new.fuel - self.new.made) ≤ out.new.spare }
    {
        self.control.go_on(&mut self.frame, word, out);
    }

    /// Takes up to this many turns of the thread, which stands, in a row, and tells how many: those before the first stop at
    /// which it may not go on.
    #[inline(never)]
    pub(crate) fn turns(
        &mut self,
        limit: u32,
        cells: &mut [u64],
        holders: &mut [Option<u8>],
        out: &mut List<u8>,
    ) -> u32
        requires stands { StandsAt self.old (stop_at self.old) }
        requires cells { cell_count self.old.program.decls ≤ length cells.old }
        requires holders { length holders.old ≡ MONITOR_LIMIT }
        requires spare { LINE_LIMIT * (self.old.fuel - self.old.made) ≤ out.old.spare }
        ensures turns { TookTurns self.old.program self.old.fuel self.old.thread limit result
            (beside cells.old holders.old (state self.old out.old.items)) (beside cells.new holders.new (state self.new out.new.items)) }
        ensures stands { StandsAt self.new (stop_at self.new) }
        ensures same { SameThread self.old self.new }
        ensures spare { LINE_LIMIT * (self.new.fuel - self.new.made) ≤ out.new.spare }
        ensures cells { length cells.new ≡ length cells.old }
        ensures holders { length holders.new ≡ length holders.old }
    {
        self.control
            .turns(&mut self.frame, limit, cells, holders, out)
    }

    /// Ends the thread at the shared instruction where it stands. The instruction is not counted.
    pub fn give_up(&mut self) -> End
        requires { IsShared (stop_at self.old) }
        ensures end { result ≡ Stopped self.old.pc }
        ensures ended { self.new ≡ record self.old { ended = Some (Stopped self.old.pc) } }
    {
        self.control.give_up(&self.frame)
    }

    /// Whether the thread holds this monitor. It holds none that the program does not have.
    pub fn held(&self, monitor: u32) -> bool
        ensures { result ≡ holds self.now.held monitor }
    {
        match self.frame.held.get(monitor as usize) {
            Some(held) => *held,
            None => false,
        }
    }

    /// The position of the next instruction. An end by a trap, a `halt` or `give_up` leaves it as it was.
    pub fn pc(&self) -> u32
        ensures { result ≡ self.now.pc }
    {
        self.control.pc()
    }

    /// A run of the same thread in the same state.
    pub fn copy(&self) -> ThreadRun<'p>
        ensures { result ≡ self.now }
    {
        ThreadRun {
            control: self.control.copy(),
            frame: self.frame,
        }
    }

    /// How many instructions the thread has made.
    pub fn made(&self) -> u32
        ensures { result ≡ self.now.made }
    {
        self.control.made()
    }

    /// The thread's end, or `None` where it has not ended.
    pub fn ended(&self) -> Option<End>
        ensures { result ≡ self.now.ended }
    {
        self.control.ended()
    }
}
