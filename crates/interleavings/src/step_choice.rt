//! The next atomic step of a thread, by where it stands and how far it is.
ghost use Rattle.std.specs.Prelude.{◌≡◌};
ghost use Rattle.std.specs.Option.{option_map};
ghost use Rattle.interleavings.specs.CoreShows.{step_seen};
ghost use Rattle.interleavings.specs.Driving.{read_kind as kind_of_reader, write_kind as kind_of_writer, update_kind as kind_of_update, enter_kind as kind_of_entry};
ghost use Rattle.interleavings.specs.Driving.{next_kind as kind_next, next_step as step_next, at_of as place_at, value_of as value_at};
ghost use Rattle.interleavings.specs.Driving.{has_claimed as is_under_way, is_loaded as has_loaded};
ghost use Rattle.interleavings.specs.Walking.{is_exit as stands_at_exit};

use crate::activity::Phase;
use crate::kind::Kind;
use crate::step_words::AtomicStep;
use sc_machine::Stop;

fn read_kind(phase: Phase) -> Kind
    ensures { result ≡ kind_of_reader phase }
{
    match phase {
        Phase::Loaded { .. } => Kind::NumberLoad,
        Phase::Idle
        | Phase::Numbered { .. }
        | Phase::Marked { .. }
        | Phase::Fetched { .. }
        | Phase::Stored { .. }
        | Phase::Looked { .. } => Kind::ValueLoad,
    }
}

fn write_kind(phase: Phase) -> Kind
    ensures { result ≡ kind_of_writer phase }
{
    match phase {
        Phase::Numbered { .. } => Kind::Claim,
        Phase::Marked { .. } | Phase::Fetched { .. } => Kind::Put,
        Phase::Stored { .. } => Kind::Complete,
        Phase::Idle | Phase::Loaded { .. } | Phase::Looked { .. } => Kind::SeeNumber,
    }
}

// An update loads the old value after its claim, and is otherwise a write.
fn update_kind(phase: Phase) -> Kind
    ensures { result ≡ kind_of_update phase }
{
    match phase {
        Phase::Marked { .. } => Kind::Fetch,
        Phase::Idle
        | Phase::Loaded { .. }
        | Phase::Numbered { .. }
        | Phase::Fetched { .. }
        | Phase::Stored { .. }
        | Phase::Looked { .. } => write_kind(phase),
    }
}

fn enter_kind(phase: Phase) -> Kind
    ensures { result ≡ kind_of_entry phase }
{
    match phase {
        Phase::Looked { .. } => Kind::Enter,
        Phase::Idle
        | Phase::Loaded { .. }
        | Phase::Numbered { .. }
        | Phase::Marked { .. }
        | Phase::Fetched { .. }
        | Phase::Stored { .. } => Kind::Look,
    }
}

// The kind of the next step, or `None` for a thread that has ended.
fn next_kind(stop: Stop, phase: Phase) -> Option<Kind>
    ensures { result ≡ kind_next stop phase }
{
    match stop {
        Stop::Read { .. } => Some(read_kind(phase)),
        Stop::Write { .. } => Some(write_kind(phase)),
        Stop::Update { .. } => Some(update_kind(phase)),
        Stop::Enter { .. } => Some(enter_kind(phase)),
        Stop::Exit { .. } => Some(Kind::Leave),
        Stop::Ended { .. } => None,
    }
}

// The cell or the monitor of a shared instruction.
fn at_of(stop: Stop) -> u32
    ensures { result ≡ place_at stop }
{
    match stop {
        Stop::Read { cell } | Stop::Write { cell, .. } | Stop::Update { cell, .. } => cell,
        Stop::Enter { mon } | Stop::Exit { mon } => mon,
        Stop::Ended { .. } => 0,
    }
}

// The value that a shared instruction stores: that of an update is known once the old value is loaded.
fn value_of(stop: Stop, phase: Phase) -> u64
    ensures { result ≡ value_at stop phase }
{
    match stop {
        Stop::Write { value, .. } => value,
        Stop::Update { change, .. } => match phase {
            Phase::Fetched { old, .. } => change.applied(old),
            Phase::Idle
            | Phase::Loaded { .. }
            | Phase::Numbered { .. }
            | Phase::Marked { .. }
            | Phase::Stored { .. }
            | Phase::Looked { .. } => 0,
        },
        Stop::Read { .. } | Stop::Enter { .. } | Stop::Exit { .. } | Stop::Ended { .. } => 0,
    }
}

/// The next atomic step of a thread that stands there in this phase, or `None` exactly where it has ended.
pub fn next_step(who: u32, stop: Stop, phase: Phase) -> Option<AtomicStep>
    ensures { option_map step_seen result ≡ step_next who stop phase }
{
    let kind = next_kind(stop, phase)?;
    Some(AtomicStep {
        who,
        kind,
        at: at_of(stop),
        value: value_of(stop, phase),
    })
}

/// Whether a thread stands at an exit.
pub fn is_exit(stop: Stop) -> bool
    ensures { result ≡ stands_at_exit stop }
{
    match stop {
        Stop::Exit { .. } => true,
        Stop::Read { .. }
        | Stop::Write { .. }
        | Stop::Update { .. }
        | Stop::Enter { .. }
        | Stop::Ended { .. } => false,
    }
}

/// Whether a writer in this phase has claimed its number and not completed it.
pub fn has_claimed(phase: Phase) -> bool
    ensures { result ≡ is_under_way phase }
{
    match phase {
        Phase::Marked { .. } | Phase::Fetched { .. } | Phase::Stored { .. } => true,
        Phase::Idle | Phase::Loaded { .. } | Phase::Numbered { .. } | Phase::Looked { .. } => false,
    }
}

/// Whether a reader in this phase has loaded the value and not yet an even number.
pub fn is_loaded(phase: Phase) -> bool
    ensures { result ≡ has_loaded phase }
{
    match phase {
        Phase::Loaded { .. } => true,
        Phase::Idle
        | Phase::Numbered { .. }
        | Phase::Marked { .. }
        | Phase::Fetched { .. }
        | Phase::Stored { .. }
        | Phase::Looked { .. } => false,
    }
}
