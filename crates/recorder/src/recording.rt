//! Recording one thread.
ghost use Rattle.std.specs.Prelude.{◌≡◌, ◌≤◌, length};
ghost use Rattle.stride_isa.specs.Listing.{starts_of};
ghost use Rattle.sc_machine.specs.ThreadRun.{start_run};
ghost use Rattle.interleavings.specs.declared.activity.Phase.TheVariants.{Idle};
ghost use Rattle.recorder.specs.Halves.{IsFree};
ghost use Rattle.recorder.specs.Threads.{IsFresh, IsThreadRecorded};
ghost use Rattle.shared_rule.specs.Passes.{IsPassOf, IsSameBeside, monitors_in, starts_in, view_of};

use crate::accesses::{enter, read, update, write};
use crate::gate::{Gate, Way};
use crate::slot::Slot;
use interleavings::{LogEntry, walks_are_followed, walks_go_on, walks_stand};
use monitors::leave;
use sc_machine::{Stop, ThreadRun};
use shared_rule::{Pass, Shared};
use std::sync::Wait;
use stride_isa::each_cell_starts;
use stride_isa::limits::{FUEL_LIMIT, MONITOR_LIMIT};

/// Records a thread, from its start to its end, on the pass that it is lent and into its slot, which is free. It refuses nothing and
/// takes no memory. It ends as stopped exactly where it found a monitor held so often in a row as the patience says.
pub fn record_thread<R: Wait, G: Gate>(
    rt: &R,
    shared: &Shared,
    pass: &mut Pass,
    run: ThreadRun<'_>,
    thread: u32,
    patience: u32,
    gate: &G,
    slot: Slot,
) -> Slot
    requires pass { IsPassOf shared.now pass.old }
    requires fresh { IsFresh (view_of pass.old) }
    requires cells { starts_in shared.now ≡ starts_of run.program.decls }
    requires monitors { monitors_in shared.now ≡ length run.program.monitors }
    requires start { run ≡ start_run run.program thread run.fuel }
    requires fuel_limit { run.fuel ≤ FUEL_LIMIT }
    requires patient { 1 ≤ patience }
    requires free { IsFree run.fuel slot }
    ensures pass { IsPassOf shared.now pass.new }
    ensures idle { (view_of pass.new).activity.phase ≡ Idle }
    ensures name { (view_of pass.new).activity.name ≡ (view_of pass.old).activity.name }
    ensures same { IsSameBeside (view_of pass.old) (view_of pass.new) }
    ensures recorded { IsThreadRecorded (record { program = run.entry.program; fuel = run.entry.fuel; patience = patience }) thread (view_of pass.new).activity result.log.items result.out.items result.end }
    ensures short { length result.log.items ≤ run.entry.fuel }
{
    each_cell_starts();
    walks_are_followed();
    walks_go_on();
    walks_stand();
    let way = Way { gate, thread };
    let (mut control, mut frame) = run.apart();
    let Slot {
        mut log,
        mut out,
        ..
    } = slot;
    let mut turns = [0; MONITOR_LIMIT];
    'instructions: loop {
        match control.local(&mut frame, &mut out) {
            Stop::Read { cell } => {
                let (value, bound) = read(rt, shared, pass, &way, cell);
                log.push_spare(LogEntry::Read { bound, value });
                control.answer(&mut frame, Some(value));
            }
            Stop::Write { cell, value } => {
                let number = write(rt, shared, pass, &way, cell, value);
                log.push_spare(LogEntry::Write { number });
                control.answer(&mut frame, None);
            }
            Stop::Update { cell, change } => {
                let (old, number) = update(rt, shared, pass, &way, cell, change);
                log.push_spare(LogEntry::Update { number, old });
                control.answer(&mut frame, Some(old));
            }
            Stop::Enter { mon } => match enter(rt, shared, pass, &way, mon, patience) {
                Some(turn) => {
                    turns[mon as usize] = turn;
                    log.push_spare(LogEntry::Enter { turn });
                    control.answer(&mut frame, None);
                }
                None => {
                    let end = control.give_up(&frame);
                    return Slot { log, out, end };
                }
            },
            Stop::Exit { mon } => {
                leave(shared, pass, mon, turns[mon as usize]);
                control.answer(&mut frame, None);
            }
            Stop::Ended { end } => return Slot { log, out, end },
        }
    }
}
