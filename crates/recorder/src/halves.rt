//! The threads of a session, each on a thread of its own.
ghost use Rattle.std.specs.Prelude.{[], ◌∷◌};
ghost use Rattle.std.specs.Thread.{IsSync};
ghost use Rattle.recorder.specs.Halves.{CanRun, Ran, setting_of};
ghost use Rattle.shared_rule.specs.Passes.{IsPassOf, view_of};

use crate::gate::Gate;
use crate::recording::record_thread;
use crate::slot::Slot;
use sc_machine::ThreadRun;
use shared_rule::{Pass, Shared};
use std::alloc::Global;
use std::mem;
use std::sync::Wait;
use std::thread::{Threads, join_mut};
use stride_isa::Checked;

/// What all threads of a session have in common.
#[derive(Drop)]
pub(crate) struct Task<'s, G> {
    pub alloc: Global,
    pub shared: &'s Shared,
    pub program: &'s Checked,
    pub fuel: u32,
    pub patience: u32,
    pub gate: &'s G,
}

// Records the thread of this number into its slot, on a pass of its own.
fn record_one<R: Wait, G: Gate>(
    rt: &R,
    task: &Task<'_, G>,
    pass: &mut Pass,
    slot: &mut Slot,
    thread: u32,
)
    requires pass { IsPassOf task.now.shared.now pass.old }
    requires can { CanRun (setting_of task.now) task.now.shared.now thread 0 (view_of pass.old) (slot.old ∷ []) }
    ensures pass { IsPassOf task.now.shared.now pass.new }
    ensures ran { Ran (setting_of task.now) thread (view_of pass.old) (view_of pass.new) (slot.new ∷ []) }
{
    let mut own = task.shared.split(pass);
    task.shared.draw(&mut own);
    // The lists grow on this thread's stack: in a row of slots the threads would write into each other's lines of memory.
    let free = mem::replace(slot, Slot::empty(task.alloc));
    *slot = record_thread(
        rt,
        task.shared,
        &mut own,
        ThreadRun::start(task.program, thread, task.fuel),
        thread,
        task.patience,
        task.gate,
        free,
    );
    task.shared.gather(pass, own);
}

/// Records as many threads as there are slots, numbered from `first` on, by halves, each half on a pass of its own.
pub(crate) fn record_all<R: Threads + Wait + Sync, G: Gate>(
    rt: &R,
    task: &Task<'_, G>,
    pass: &mut Pass,
    slots: &mut [Slot],
    first: u32,
    depth: u32,
)
    requires pass { IsPassOf task.now.shared.now pass.old }
    requires can { CanRun (setting_of task.now) task.now.shared.now first depth (view_of pass.old) slots.old }
    ensures pass { IsPassOf task.now.shared.now pass.new }
    ensures ran { Ran (setting_of task.now) first (view_of pass.old) (view_of pass.new) slots.new }
{
    match slots {
        [] => (),
        [slot] => record_one(rt, task, pass, slot, first),
        _ => {
            let middle = slots.len() / 2;
            let (left, right) = slots.split_at_mut(middle);
            let mut other = task.shared.split(pass);
            let below = depth - 1;
            let second = first + middle as u32;
            join_mut(
                rt,
                &mut ||
                    requires { IsSync R.row × IsPassOf task.now.shared.now pass.now × CanRun (setting_of task.now) task.now.shared.now first below (view_of pass.now) left.now }
                    ensures { IsPassOf task.entry.now.shared.now pass.exit.now × Ran (setting_of task.entry.now) first (view_of pass.entry.now) (view_of pass.exit.now) left.exit.now }
                { record_all(rt, task, pass, left, first, below) },
                &mut ||
                    requires { IsSync R.row × IsPassOf task.now.shared.now other × CanRun (setting_of task.now) task.now.shared.now second below (view_of other) right.now }
                    ensures { IsPassOf task.entry.now.shared.now other.exit × Ran (setting_of task.entry.now) second (view_of other.entry) (view_of other.exit) right.exit.now }
                { record_all(rt, task, &mut other, right, second, below) },
            );
            task.shared.gather(pass, other);
        }
    }
}
