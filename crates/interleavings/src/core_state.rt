//! The shared words and what the threads do, in memory.
ghost use Rattle.std.specs.Prelude.{◌≡◌, OnOk, IfOk};
ghost use Rattle.interleavings.specs.History.{State, happens};
ghost use Rattle.interleavings.specs.Driving.{finished_in};

use crate::activity::Activity;
use crate::event::Event;
use crate::layout::Layout;
use crate::step_effects::step_activity;
use crate::step_words::{AtomicStep, new_word};
use stride_base::NoMemory;

/// The row of the shared words, and what each thread does, by its number.
#[derive(Drop)]
pub struct Core {
    pub layout: Layout,
    pub words: Vec<u64>,
    pub people: Vec<Activity>,
}

impl Core {
    ghost use Rattle.interleavings.specs.CoreShows.{ShowsState, CanHappen, HasSameShape, step_seen};

    /// Makes an atomic step, and tells the event that it finishes, if it finishes one.
    pub fn happen(&mut self, step: AtomicStep) -> Result<Option<Event>, NoMemory>
        requires { CanHappen self.old step }
        ensures shape { OnOk result (HasSameShape self.old self.new) }
        ensures shows { (st : State) → ShowsState self.old st → OnOk result (ShowsState self.new (happens (step_seen step) st)) }
        ensures finished { (st : State) → ShowsState self.old st → IfOk result (λ event. event ≡ finished_in st (step_seen step)) }
    {
        let place = self.layout.word_of(step.kind, step.at);
        let met = self.words[place];
        let activity = &mut self.people[step.who as usize];
        self.words[place] = new_word(step, activity, met);
        step_activity(activity, step, met)
    }
}
