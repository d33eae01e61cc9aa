//! What an atomic step does to the thread that makes it.
ghost use Rattle.std.specs.Prelude.{◌≡◌, ◌==◌, ◌++◌, not, filter, take, drop, OnOk, IfOk};
ghost use Rattle.interleavings.specs.AtomicStep.{word_of, phase_after, name_after, looks_after, held_after, with_event, activity_after};
ghost use Rattle.interleavings.specs.AtomicStep.{marked as phase_marked, fetched as phase_fetched, stored as phase_stored, phase_if as either_phase};
ghost use Rattle.interleavings.specs.AtomicStep.{one_more as longer_row, finished_by as event_of};
ghost use Rattle.interleavings.specs.Bounded.{IsWordWithin, IsPhaseWithin, AreLooksWithin, IsActivityWithin};

use crate::activity::{Activity, HeldTurn, OddLooks, Phase};
use crate::event::Event;
use crate::kind::Kind;
use crate::limits::STEP_LIMIT;
use crate::step_words::{AtomicStep, finished_by, is_even, number_in, turn_in};
use std::collections::LinkedList;
use std::mem::swap;
use stride_base::NoMemory;

fn marked(phase: Phase) -> Phase
    ensures { result ≡ phase_marked phase }
{
    match phase {
        Phase::Numbered { cell, n } => Phase::Marked { cell, n },
        Phase::Idle
        | Phase::Loaded { .. }
        | Phase::Marked { .. }
        | Phase::Fetched { .. }
        | Phase::Stored { .. }
        | Phase::Looked { .. } => phase,
    }
}

fn fetched(old: u64, phase: Phase) -> Phase
    ensures { result ≡ phase_fetched old phase }
{
    match phase {
        Phase::Marked { cell, n } => Phase::Fetched { cell, n, old },
        Phase::Idle
        | Phase::Loaded { .. }
        | Phase::Numbered { .. }
        | Phase::Fetched { .. }
        | Phase::Stored { .. }
        | Phase::Looked { .. } => phase,
    }
}

fn stored(value: u64, phase: Phase) -> Phase
    ensures { result ≡ phase_stored value phase }
{
    match phase {
        Phase::Marked { cell, n } => Phase::Stored {
            cell,
            n,
            old: None,
            value,
        },
        Phase::Fetched { cell, n, old } => Phase::Stored {
            cell,
            n,
            old: Some(old),
            value,
        },
        Phase::Idle
        | Phase::Loaded { .. }
        | Phase::Numbered { .. }
        | Phase::Stored { .. }
        | Phase::Looked { .. } => phase,
    }
}

// The phase after the step.
fn new_phase(step: AtomicStep, phase: Phase, met: u64) -> Phase
    requires met { IsWordWithin STEP_LIMIT (word_of step.kind step.at) met }
    requires phase { IsPhaseWithin STEP_LIMIT phase }
    ensures { result ≡ phase_after step.kind step.at step.value phase met }
{
    let at = step.at;
    match step.kind {
        Kind::ValueLoad => Phase::Loaded {
            cell: at,
            value: met,
        },
        Kind::NumberLoad => if is_even(met) { Phase::Idle } else { phase },
        Kind::SeeNumber => if is_even(met) {
            Phase::Numbered {
                cell: at,
                n: (met / 2) as u32,
            }
        } else {
            Phase::Idle
        },
        Kind::Claim => if met == 2 * u64::from(number_in(phase)) {
            marked(phase)
        } else {
            Phase::Idle
        },
        Kind::Fetch => fetched(met, phase),
        Kind::Put => stored(step.value, phase),
        Kind::Look => if is_even(met) {
            Phase::Looked {
                mon: at,
                turn: (met / 2) as u32,
            }
        } else {
            Phase::Idle
        },
        Kind::Complete | Kind::Enter | Kind::Leave | Kind::Draw => Phase::Idle,
    }
}

// The name after the step.
fn new_name(step: AtomicStep, name: Option<u32>, met: u64) -> Option<u32>
    requires met { IsWordWithin STEP_LIMIT (word_of step.kind step.at) met }
    ensures { result ≡ name_after step.kind name met }
{
    match step.kind {
        Kind::Draw => Some(met as u32),
        Kind::ValueLoad
        | Kind::NumberLoad
        | Kind::SeeNumber
        | Kind::Claim
        | Kind::Fetch
        | Kind::Put
        | Kind::Complete
        | Kind::Look
        | Kind::Enter
        | Kind::Leave => name,
    }
}

// The row of odd looks with one more at this monitor.
fn one_more(mon: u32, looks: Option<OddLooks>) -> OddLooks
    requires { AreLooksWithin STEP_LIMIT looks }
    ensures { result ≡ longer_row mon looks }
{
    match looks {
        Some(row) => {
            if row.mon == mon {
                OddLooks {
                    mon,
                    count: row.count + 1,
                }
            } else {
                OddLooks { mon, count: 1 }
            }
        }
        None => OddLooks { mon, count: 1 },
    }
}

// The row of odd looks after the step.
fn new_looks(step: AtomicStep, looks: Option<OddLooks>, met: u64) -> Option<OddLooks>
    requires { AreLooksWithin STEP_LIMIT looks }
    ensures { result ≡ looks_after step.kind step.at looks met }
{
    match step.kind {
        Kind::Look => {
            let was_free = is_even(met);
            if was_free {
                None
            } else {
                Some(one_more(step.at, looks))
            }
        }
        Kind::ValueLoad
        | Kind::NumberLoad
        | Kind::SeeNumber
        | Kind::Claim
        | Kind::Fetch
        | Kind::Put
        | Kind::Complete
        | Kind::Enter
        | Kind::Leave
        | Kind::Draw => looks,
    }
}

// Takes the first entry out, and puts it last if it is of another monitor. The nodes move, so this takes no memory.
fn turn_over(held: &mut LinkedList<HeldTurn>, mon: u32)
    ensures { held.new ≡ drop 1 held.old ++ filter (λ h. not (h.mon == mon)) (take 1 held.old) }
{
    if held.len() == 0 {
        return;
    }
    let Ok(mut others) = held.split_off(1) else {
        unreachable!()
    };
    if let Some(turn) = held.front() {
        if turn.mon == mon {
            held.clear();
        }
    }
    let Ok(()) = others.append(held) else {
        unreachable!()
    };
    swap(held, &mut others);
}

// Holds this monitor no longer.
fn let_go(held: &mut LinkedList<HeldTurn>, mon: u32)
    ensures { held.new ≡ filter (λ h. not (h.mon == mon)) held.old }
{
    for _turn in 0..held.len() {
        turn_over(held, mon);
    }
}

// Changes the turns that are held, as the step does.
fn hold(
    held: &mut LinkedList<HeldTurn>,
    step: AtomicStep,
    phase: Phase,
    met: u64,
) -> Result<(), NoMemory>
    requires { IsPhaseWithin STEP_LIMIT phase }
    ensures { OnOk result (held.new ≡ held_after step.kind step.at phase held.old met) }
{
    match step.kind {
        Kind::Enter => {
            let turn = turn_in(phase);
            if met == 2 * u64::from(turn) {
                held.push_front(HeldTurn {
                    mon: step.at,
                    turn: turn + 1,
                })?;
            }
        }
        Kind::Leave => let_go(held, step.at),
        Kind::ValueLoad
        | Kind::NumberLoad
        | Kind::SeeNumber
        | Kind::Claim
        | Kind::Fetch
        | Kind::Put
        | Kind::Complete
        | Kind::Look
        | Kind::Draw => {}
    }
    Ok(())
}

// Appends the event, if there is one.
fn append(events: &mut LinkedList<Event>, event: Option<Event>) -> Result<(), NoMemory>
    ensures { OnOk result (events.new ≡ with_event events.old event) }
{
    if let Some(event) = event {
        events.push_back(event)?;
    }
    Ok(())
}

/// Changes what the thread does, as the step that met this word does, and tells the event that it finishes, if there is one.
pub fn step_activity(
    activity: &mut Activity,
    step: AtomicStep,
    met: u64,
) -> Result<Option<Event>, NoMemory>
    requires met { IsWordWithin STEP_LIMIT (word_of step.kind step.at) met }
    requires activity { IsActivityWithin STEP_LIMIT activity.old }
    ensures activity { OnOk result (activity.new ≡ activity_after step.kind step.at step.value activity.old met) }
    ensures finished { IfOk result (λ event. event ≡ event_of step.kind step.at activity.old met) }
{
    let finished = finished_by(step, activity, met);
    append(&mut activity.events, finished)?;
    hold(&mut activity.held, step, activity.phase, met)?;
    activity.name = new_name(step, activity.name, met);
    activity.looks = new_looks(step, activity.looks, met);
    activity.phase = new_phase(step, activity.phase, met);
    Ok(finished)
}
