//! What a thread that is recorded does after an atomic step.
ghost use Rattle.std.specs.Prelude.{◌≡◌};
ghost use Rattle.sc_machine.specs.StandingThread.{stop_here};
ghost use Rattle.sc_machine.specs.ThreadRun.{IsShared};
ghost use Rattle.interleavings.specs.SimulationShows.{SuitsStop, gone_on};
ghost use Rattle.interleavings.specs.Recording.{gives_up as has_no_patience};

use crate::activity::OddLooks;
use crate::event::Event;
use sc_machine::StandingThread;

/// A thread goes on after an atomic step: where it finished an event the instruction is answered, and where the row of odd
/// looks has reached the patience the thread gives up.
pub fn go_on(
    thread: &mut StandingThread<'_>,
    finished: Option<Event>,
    patience: u32,
    looks: Option<OddLooks>,
)
    requires shared { IsShared (stop_here thread.old) }
    requires suits { SuitsStop (stop_here thread.old) finished }
    ensures { thread.new ≡ gone_on thread.old finished patience looks }
{
    if let Some(event) = finished {
        thread.answer(event.word());
    } else if gives_up(patience, looks) {
        thread.give_up();
    }
}

// Whether a row of odd looks has reached the patience.
fn gives_up(patience: u32, looks: Option<OddLooks>) -> bool
    ensures { result ≡ has_no_patience patience looks }
{
    match looks {
        Some(row) => patience <= row.count,
        None => false,
    }
}
