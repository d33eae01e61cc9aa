//! Atomic steps: what each does to the word that it touches, and the event that it finishes.
ghost use prog.Atomic.{either};
ghost use Rattle.std.specs.Prelude.{◌≡◌, ◌==◌, ◌*◌, ◌+◌};
ghost use Rattle.interleavings.specs.AtomicStep.{word_of, word_after, held_turn, turn_or_zero};
ghost use Rattle.interleavings.specs.AtomicStep.{number_in as half_number, turn_in as seen_turn, is_even as even};
ghost use Rattle.interleavings.specs.AtomicStep.{read_if as event_of_read, completed as event_of_writer, entered_if as event_of_entry, finished_by as event_of};
ghost use Rattle.interleavings.specs.Bounded.{IsWordWithin, IsPhaseWithin};

use crate::activity::{Activity, HeldTurn, Phase};
use crate::event::Event;
use crate::kind::Kind;
use crate::limits::STEP_LIMIT;
use std::collections::LinkedList;

/// An atomic step: the thread that makes it, its kind, the cell or the monitor, and the value where it stores one.
#[derive(Clone, Copy, Debug, PartialEq, Eq)]
pub struct AtomicStep {
    pub who: u32,
    pub kind: Kind,
    pub at: u32,
    pub value: u64,
}

/// Whether a word is even.
pub fn is_even(word: u64) -> bool
    ensures { result ≡ even word }
{
    word % 2 == 0
}

// The turn for which the monitor is held, 0 if it is not.
fn held_turn_of(held: &LinkedList<HeldTurn>, mon: u32) -> u32
    ensures { result ≡ turn_or_zero (held_turn mon held.now) }
{
    for turn in held {
        if turn.mon == mon {
            return turn.turn;
        }
    }
    0
}

/// Half of the number that a writer saw.
pub fn number_in(phase: Phase) -> u32
    ensures { result ≡ half_number phase }
{
    match phase {
        Phase::Numbered { n, .. }
        | Phase::Marked { n, .. }
        | Phase::Fetched { n, .. }
        | Phase::Stored { n, .. } => n,
        Phase::Idle | Phase::Loaded { .. } | Phase::Looked { .. } => 0,
    }
}

/// How many turns a monitor had when it was seen free.
pub fn turn_in(phase: Phase) -> u32
    ensures { result ≡ seen_turn phase }
{
    match phase {
        Phase::Looked { turn, .. } => turn,
        Phase::Idle
        | Phase::Loaded { .. }
        | Phase::Numbered { .. }
        | Phase::Marked { .. }
        | Phase::Fetched { .. }
        | Phase::Stored { .. } => 0,
    }
}

// The word after an exchange of twice this number for the next word.
fn exchanged(half: u32, met: u64) -> u64
    ensures { result ≡ either (met == 2 * half) (2 * half + 1) met }
{
    let seen = 2 * u64::from(half);
    if met == seen { seen + 1 } else { met }
}

/// The word after the step.
pub fn new_word(step: AtomicStep, activity: &Activity, met: u64) -> u64
    requires met { IsWordWithin STEP_LIMIT (word_of step.kind step.at) met }
    requires phase { IsPhaseWithin STEP_LIMIT activity.now.phase }
    ensures { result ≡ word_after step.kind step.at step.value activity.now met }
{
    match step.kind {
        Kind::ValueLoad | Kind::NumberLoad | Kind::SeeNumber | Kind::Fetch | Kind::Look => met,
        Kind::Claim => exchanged(number_in(activity.phase), met),
        Kind::Put => step.value,
        Kind::Complete => 2 * u64::from(number_in(activity.phase)) + 2,
        Kind::Enter => exchanged(turn_in(activity.phase), met),
        Kind::Leave => 2 * u64::from(held_turn_of(&activity.held, step.at)),
        Kind::Draw => met + 1,
    }
}

fn read_if(even: bool, phase: Phase, bound: u32) -> Option<Event>
    ensures { result ≡ event_of_read even phase bound }
{
    match phase {
        Phase::Loaded { cell, value } => {
            if even {
                Some(Event::Read { cell, value, bound })
            } else {
                None
            }
        }
        Phase::Idle
        | Phase::Numbered { .. }
        | Phase::Marked { .. }
        | Phase::Fetched { .. }
        | Phase::Stored { .. }
        | Phase::Looked { .. } => None,
    }
}

fn completed(phase: Phase) -> Option<Event>
    requires { IsPhaseWithin STEP_LIMIT phase }
    ensures { result ≡ event_of_writer phase }
{
    match phase {
        Phase::Stored {
            cell,
            n,
            old: None,
            value,
        } => Some(Event::Write {
            cell,
            value,
            number: n + 1,
        }),
        Phase::Stored {
            cell,
            n,
            old: Some(old),
            value: new,
        } => Some(Event::Update {
            cell,
            old,
            new,
            number: n + 1,
        }),
        Phase::Idle
        | Phase::Loaded { .. }
        | Phase::Numbered { .. }
        | Phase::Marked { .. }
        | Phase::Fetched { .. }
        | Phase::Looked { .. } => None,
    }
}

fn entered_if(was_free: bool, mon: u32, turn: u32) -> Option<Event>
    ensures { result ≡ event_of_entry was_free mon turn }
{
    if was_free {
        Some(Event::Enter { mon, turn })
    } else {
        None
    }
}

/// The event that the step finishes, if it finishes one.
pub fn finished_by(step: AtomicStep, activity: &Activity, met: u64) -> Option<Event>
    requires met { IsWordWithin STEP_LIMIT (word_of step.kind step.at) met }
    requires phase { IsPhaseWithin STEP_LIMIT activity.now.phase }
    ensures { result ≡ event_of step.kind step.at activity.now met }
{
    match step.kind {
        Kind::NumberLoad => read_if(is_even(met), activity.phase, (met / 2) as u32),
        Kind::Complete => completed(activity.phase),
        Kind::Enter => {
            let turn = turn_in(activity.phase);
            entered_if(met == 2 * u64::from(turn), step.at, turn + 1)
        }
        Kind::Leave => Some(Event::Exit {
            mon: step.at,
            turn: held_turn_of(&activity.held, step.at),
        }),
        Kind::ValueLoad
        | Kind::SeeNumber
        | Kind::Claim
        | Kind::Fetch
        | Kind::Put
        | Kind::Look
        | Kind::Draw => None,
    }
}
