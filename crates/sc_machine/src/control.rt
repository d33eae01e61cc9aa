//! One thread's run without its arrays.
ghost use Rattle.std.specs.Prelude.{◌≡◌, ◌+◌, ◌-◌, ◌*◌, ◌≤◌, ◌<◌, None, Some, length, unwrap_or};
ghost use Rattle.sc_machine.specs.ThreadStep.{answered, settled};
ghost use Rattle.sc_machine.specs.ThreadRun.{run_of, state, stop_at, StandsAt, SameThread, IsAnswered, IsShared, TakesWord, NamesCell};
ghost use Rattle.sc_machine.specs.TurnsInARow.{TookTurns, beside};
ghost use Rattle.sc_machine.specs.declared.end.End.TheVariants.{OutOfSteps, Stopped};
ghost use Rattle.stride_isa.specs.Listing.{cell_count};

use crate::end::End;
use crate::frame::Frame;
use crate::instruction::stop_of;
use crate::limits::LINE_LIMIT;
use crate::operands::Top;
use crate::running::{Cursor, completed, run_on, run_turns};
use crate::stop::Stop;
use crate::task::Task;
use std::marker::Model;
use stride_base::List;
use stride_isa::Checked;
use stride_isa::limits::{FUEL_LIMIT, MONITOR_LIMIT};

/// What a thread runs, where it is and its end. Each call is lent the frame of the same run.
///
/// A loop that owns it keeps it in registers, which it can't beside arrays that are indexed by moving numbers.
#[derive(Drop)]
pub struct Control<'p> {
    task: Task<'p>,
    at: Cursor,
    ended: Option<End>,
}

impl<'p> Model for Control<'p> {
    ghost use Rattle.sc_machine.specs.ThreadRun.{RunControl};
    ghost use Rattle.sc_machine.specs.ThreadRunInside.{IsRun};

    ghost Value = { RunControl };

    ghost view = { λ a. record { program = a.task.program.now; thread = a.task.thread; fuel = a.task.fuel; pc = a.at.pc; depth = a.at.top.depth; made = a.at.made; ended = a.ended } };

    ghost invariant = { λ a. IsRun a.task.program.now a.task.thread a.task.fuel a.at.pc a.at.top.depth a.at.made a.ended };
}

// The end of a thread whose fuel is spent. It comes once, so that what ends a thread is not written after every answer.
#[cold]
#[inline(never)]
fn out_of_steps() -> Option<End>
    ensures { result ≡ Some OutOfSteps }
{
    Some(End::OutOfSteps)
}

impl<'p> Control<'p> {
    /// A thread at its start, with a fuel of 1 to 1,000,000 instructions.
    pub(crate) fn start(program: &'p Checked, thread: u32, fuel: u32) -> Control<'p>
        requires thread { thread < length program.now.threads }
        requires some { 1 ≤ fuel }
        requires limit { fuel ≤ FUEL_LIMIT }
        ensures { result ≡ record { program = program.now; thread = thread; fuel = fuel; pc = 0; depth = 0; made = 0; ended = None } }
    {
        Control {
            task: Task::new(program, thread, fuel),
            at: Cursor {
                pc: 0,
                made: 0,
                top: Top::empty(),
            },
            ended: None,
        }
    }

    /// Makes local instructions up to the next shared one or the end, and tells which it is. What they print is
    /// appended to `out`, which needs room for it. A shared instruction that traps is made here, as a local one.
    ///
    /// At a shared instruction, and after the end, it changes nothing.
    #[inline(always)]
    pub fn local(&mut self, frame: &mut Frame, out: &mut List<u8>) -> Stop
        requires { LINE_LIMIT * (self.old.fuel - self.old.made) ≤ out.old.spare }
        ensures state { state (run_of self.new frame.new) out.new.items
            ≡ settled self.old.program self.old.fuel self.old.thread (state (run_of self.old frame.old) out.old.items) }
        ensures stop { result ≡ stop_at (run_of self.new frame.new) }
        ensures stands { StandsAt (run_of self.new frame.new) result }
        ensures same { SameThread (run_of self.old frame.old) (run_of self.new frame.new) }
        ensures names_cell { NamesCell self.old.program result }
        ensures made { self.old.made ≤ self.new.made }
        ensures fuel_left { IsShared result → self.new.made < self.new.fuel }
        ensures spare { LINE_LIMIT * (self.new.fuel - self.new.made) ≤ out.new.spare }
        ensures used { out.new.spare + length out.new.items ≡ out.old.spare + length out.old.items }
    {
        self.settle(frame, out);
        self.stop(frame)
    }

    /// The same as `local`, but does not tell where the thread stands then.
    #[inline(always)]
    pub(crate) fn settle(&mut self, frame: &mut Frame, out: &mut List<u8>)
        requires { LINE_LIMIT * (self.old.fuel - self.old.made) ≤ out.old.spare }
        ensures state { state (run_of self.new frame.new) out.new.items
            ≡ settled self.old.program self.old.fuel self.old.thread (state (run_of self.old frame.old) out.old.items) }
        ensures stands { StandsAt (run_of self.new frame.new) (stop_at (run_of self.new frame.new)) }
        ensures same { SameThread (run_of self.old frame.old) (run_of self.new frame.new) }
        ensures made { self.old.made ≤ self.new.made }
        ensures spare { LINE_LIMIT * (self.new.fuel - self.new.made) ≤ out.new.spare }
        ensures used { out.new.spare + length out.new.items ≡ out.old.spare + length out.old.items }
    {
        if self.ended.is_some() {
            return;
        }
        let (at, ended) = run_on(
            self.task,
            self.at,
            &mut frame.words,
            &mut frame.locals,
            &mut frame.held,
            out,
        );
        self.at = at;
        if let Some(end) = ended {
            self.ended = Some(end);
        }
    }

    /// Where the thread stands. One that has not settled reads as if it had halted.
    #[inline(always)]
    pub(crate) fn stop(&self, frame: &Frame) -> Stop
        ensures stop { result ≡ stop_at (run_of self.now frame.now) }
        ensures names_cell { NamesCell self.now.program result }
        ensures fuel_left { IsShared result → self.now.made < self.now.fuel }
    {
        match self.ended {
            Some(end) => Stop::Ended { end },
            None => stop_of(
                self.task.op(self.at.pc),
                self.task.program,
                &frame.words,
                self.at.top,
                &frame.held,
            ),
        }
    }

    /// Completes the shared instruction at which the thread stands. The word is there exactly for a read or an
    /// update, which gets it.
    #[inline(always)]
    pub fn answer(&mut self, frame: &mut Frame, word: Option<u64>)
        requires { TakesWord (stop_at (run_of self.old frame.old)) word }
        ensures state { IsAnswered (run_of self.old frame.old) (run_of self.new frame.new) (unwrap_or word 0) }
        ensures made { self.new.made ≡ self.old.made + 1 }
        ensures same { SameThread (run_of self.old frame.old) (run_of self.new frame.new) }
    {
        self.at = completed(
            self.task,
            self.at,
            word.unwrap_or(0),
            &mut frame.words,
            &mut frame.held,
        );
        if self.at.made >= self.task.fuel {
            self.ended = out_of_steps();
        }
    }

    /// The same as `answer` and `local` after it, but does not tell where the thread stands then.
    #[inline(always)]
    pub(crate) fn go_on(&mut self, frame: &mut Frame, word: Option<u64>, out: &mut List<u8>)
        requires word { TakesWord (stop_at (run_of self.old frame.old)) word }
        requires spare { LINE_LIMIT * (self.old.fuel - self.old.made) ≤ out.old.spare }
        ensures state { state (run_of self.new frame.new) out.new.items ≡ settled self.old.program self.old.fuel self.old.thread
            (answered self.old.program self.old.fuel self.old.thread (unwrap_or word 0) (state (run_of self.old frame.old) out.old.items)) }
        ensures stands { StandsAt (run_of self.new frame.new) (stop_at (run_of self.new frame.new)) }
        ensures same { SameThread (run_of self.old frame.old) (run_of self.new frame.new) }
        ensures spare { LINE_LIMIT * (self.new.fuel - self.new.made) ≤ out.new.spare }
    {
        let next = completed(
            self.task,
            self.at,
            word.unwrap_or(0),
            &mut frame.words,
            &mut frame.held,
        );
        if next.made >= self.task.fuel {
            self.at = next;
            self.ended = Some(End::OutOfSteps);
            return;
        }
        let (at, ended) = run_on(
            self.task,
            next,
            &mut frame.words,
            &mut frame.locals,
            &mut frame.held,
            out,
        );
        self.at = at;
        if let Some(end) = ended {
            self.ended = Some(end);
        }
    }

    /// Takes up to this many turns of the thread, which stands, in a row, and tells how many: those before the first stop at
    /// which it may not go on.
    #[inline(always)]
    pub(crate) fn turns(
        &mut self,
        frame: &mut Frame,
        limit: u32,
        cells: &mut [u64],
        holders: &mut [Option<u8>],
        out: &mut List<u8>,
    ) -> u32
        requires stands { StandsAt (run_of self.old frame.old) (stop_at (run_of self.old frame.old)) }
        requires cells { cell_count self.old.program.decls ≤ length cells.old }
        requires holders { length holders.old ≡ MONITOR_LIMIT }
        requires spare { LINE_LIMIT * (self.old.fuel - self.old.made) ≤ out.old.spare }
        ensures turns { TookTurns self.old.program self.old.fuel self.old.thread limit result
            (beside cells.old holders.old (state (run_of self.old frame.old) out.old.items))
            (beside cells.new holders.new (state (run_of self.new frame.new) out.new.items)) }
        ensures stands { StandsAt (run_of self.new frame.new) (stop_at (run_of self.new frame.new)) }
        ensures same { SameThread (run_of self.old frame.old) (run_of self.new frame.new) }
        ensures spare { LINE_LIMIT * (self.new.fuel - self.new.made) ≤ out.new.spare }
        ensures cells { length cells.new ≡ length cells.old }
        ensures holders { length holders.new ≡ length holders.old }
    {
        if self.ended.is_some() {
            return 0;
        }
        let (at, left, ended) = run_turns(
            self.task,
            self.at,
            limit,
            &mut frame.words,
            &mut frame.locals,
            &mut frame.held,
            cells,
            holders,
            out,
        );
        self.at = at;
        self.ended = ended;
        limit - left
    }

    /// Ends the thread at the shared instruction where it stands. The instruction is not counted.
    #[inline(always)]
    pub fn give_up(&mut self, frame: &Frame) -> End
        requires { IsShared (stop_at (run_of self.old frame.now)) }
        ensures end { result ≡ Stopped self.old.pc }
        ensures ended { self.new ≡ record self.old { ended = Some (Stopped self.old.pc) } }
    {
        let end = End::Stopped { pc: self.at.pc };
        self.ended = Some(end);
        end
    }

    /// The position of the next instruction. An end by a trap, a `halt` or `give_up` leaves it as it was.
    pub(crate) fn pc(&self) -> u32
        ensures { result ≡ self.now.pc }
    {
        self.at.pc
    }

    /// The same run without its arrays.
    pub(crate) fn copy(&self) -> Control<'p>
        ensures { result ≡ self.now }
    {
        Control {
            task: self.task,
            at: self.at,
            ended: self.ended,
        }
    }

    /// How many instructions the thread has made.
    pub(crate) fn made(&self) -> u32
        ensures { result ≡ self.now.made }
    {
        self.at.made
    }

    /// The thread's end, or `None` where it has not ended.
    pub(crate) fn ended(&self) -> Option<End>
        ensures { result ≡ self.now.ended }
    {
        self.ended
    }
}
