//! One thread that is run again.
ghost use Rattle.std.specs.Prelude.{◌≡◌, ◌<◌, ◌≤◌, IfOk, length, slice_index};
ghost use Rattle.interleavings.specs.Following.{place_after, turns_after};
ghost use Rattle.thread_rerun.specs.Shows.{MonitorBelow};

use interleavings::Event;
use sc_machine::StandingThread;
use std::alloc::Global;
use stride_base::NoMemory;
use stride_isa::Checked;
use stride_isa::limits::{FUEL_LIMIT, MONITOR_LIMIT};

/// A thread that is run again, with the place of the next entry of its log, and the turn of its last entry into each monitor.
#[derive(Drop)]
pub(crate) struct Follower<'p> {
    pub(crate) thread: StandingThread<'p>,
    pub(crate) place: usize,
    pub(crate) turns: [u32; MONITOR_LIMIT],
}

// The place of the next entry after an event. An exit uses none.
fn next_place(place: usize, event: Event) -> usize
    requires { place < usize.MAX }
    ensures { result ≡ place_after event place }
{
    match event {
        Event::Exit { .. } => place,
        Event::Read { .. } | Event::Write { .. } | Event::Update { .. } | Event::Enter { .. } =>
            place + 1,
    }
}

// Keeps the turn of an entry into a monitor.
fn keep_turn(turns: &mut [u32; MONITOR_LIMIT], event: Event)
    requires { MonitorBelow event }
    ensures { (λ m. slice_index turns.new m) ≡ turns_after event (λ m. slice_index turns.old m) }
{
    if let Event::Enter { mon, turn } = event {
        turns[mon as usize] = turn;
    }
}

impl<'p> Follower<'p> {
    ghost use Rattle.sc_machine.specs.StandingThread.{started_at, stop_here};
    ghost use Rattle.thread_rerun.specs.Shows.{IsGone, Suits, no_turns, turns_in};

    /// The thread after its local start.
    pub(crate) fn start(
        alloc: Global,
        program: &'p Checked,
        number: u32,
        fuel: u32,
    ) -> Result<Follower<'p>, NoMemory>
        requires thread { number < length program.now.threads }
        requires some { 1 ≤ fuel }
        requires limit { fuel ≤ FUEL_LIMIT }
        ensures thread { IfOk result (λ f. f.thread ≡ started_at program.now fuel number) }
        ensures place { IfOk result (λ f. f.place ≡ 0) }
        ensures turns { IfOk result (λ f. turns_in f ≡ no_turns) }
    {
        Ok(Follower {
            thread: StandingThread::start(alloc, program, number, fuel)?,
            place: 0,
            turns: [0; MONITOR_LIMIT],
        })
    }

    /// Goes on after an event that the thread met.
    pub(crate) fn go(&mut self, event: Event)
        requires suits { Suits (stop_here self.old.thread) event }
        requires monitor { MonitorBelow event }
        requires place { self.old.place < usize.MAX }
        ensures { IsGone self.old self.new event }
    {
        self.place = next_place(self.place, event);
        keep_turn(&mut self.turns, event);
        self.thread.answer(event.word());
    }
}
