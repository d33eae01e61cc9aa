//! One entry of a log, from the front of the bytes.
ghost use Rattle.std.specs.Prelude.{◌≡◌};
ghost use Rattle.log_format.specs.Answers.{Gives};
ghost use Rattle.log_format.specs.Reading.{bound_at, bound_by, enter_at, entry_at, fields_at, kind_at, of_32_bits, read_at, update_at, write_at};
ghost use Rattle.log_format.specs.Spelling.{bound_after};

use crate::fault::ReadError;
use crate::format_error::FormatKind;
use crate::numbers::{number_at, u32_at};
use crate::version::{Size, Version};
use interleavings::LogEntry;

/// The kind of an entry, which its tag tells.
#[derive(Clone, Copy, Debug, PartialEq, Eq)]
pub(crate) enum Kind {
    Read,
    Write,
    Enter,
    Update,
}

/// The bound of the last read, after this entry.
pub(crate) fn bound_after(before: u32, entry: LogEntry) -> u32
    ensures { result ≡ bound_after before entry }
{
    match entry {
        LogEntry::Read { bound, .. } => bound,
        LogEntry::Write { .. } | LogEntry::Update { .. } | LogEntry::Enter { .. } => before,
    }
}

fn of_32_bits(number: u64) -> Option<u32>
    ensures { result ≡ of_32_bits number }
{
    if number > 0xffff_ffff {
        None
    } else {
        Some(number as u32)
    }
}

// The bound that a step leads to.
fn bound_by(before: u32, step: u64) -> Option<u32>
    ensures { result ≡ bound_by before step }
{
    let before = u64::from(before);
    let half = step / 2;
    if step % 2 == 0 {
        of_32_bits(before + half)
    } else if half < before {
        of_32_bits(before - half - 1)
    } else {
        None
    }
}

#[tactic(auto, unfolding(crate::specs::Reading::bound_at))]
fn bound_at(version: Version, before: u32, bytes: &[u8]) -> Result<(u32, &[u8]), ReadError>
    ensures { Gives (λ x. (x.0, x.1.now)) result (bound_at version before bytes.now) }
{
    match version {
        Version::One => u32_at(version, bytes),
        Version::Two => {
            let (step, rest) = number_at(version, Size::Bits64, bytes)?;
            match bound_by(before, step) {
                Some(bound) => Ok((bound, rest)),
                None => Err(ReadError::at(FormatKind::BadCount, bytes)),
            }
        }
    }
}

#[tactic(auto, unfolding(crate::specs::Reading::read_at))]
fn read_at(version: Version, before: u32, bytes: &[u8]) -> Result<(LogEntry, &[u8]), ReadError>
    ensures { Gives (λ x. (x.0, x.1.now)) result (read_at version before bytes.now) }
{
    let (value, rest) = number_at(version, Size::Bits64, bytes)?;
    let (bound, rest) = bound_at(version, before, rest)?;
    Ok((LogEntry::Read { bound, value }, rest))
}

#[tactic(auto, unfolding(crate::specs::Reading::write_at))]
fn write_at(version: Version, bytes: &[u8]) -> Result<(LogEntry, &[u8]), ReadError>
    ensures { Gives (λ x. (x.0, x.1.now)) result (write_at version bytes.now) }
{
    let (number, rest) = u32_at(version, bytes)?;
    Ok((LogEntry::Write { number }, rest))
}

#[tactic(auto, unfolding(crate::specs::Reading::enter_at))]
fn enter_at(version: Version, bytes: &[u8]) -> Result<(LogEntry, &[u8]), ReadError>
    ensures { Gives (λ x. (x.0, x.1.now)) result (enter_at version bytes.now) }
{
    let (turn, rest) = u32_at(version, bytes)?;
    Ok((LogEntry::Enter { turn }, rest))
}

#[tactic(auto, unfolding(crate::specs::Reading::update_at))]
fn update_at(version: Version, bytes: &[u8]) -> Result<(LogEntry, &[u8]), ReadError>
    ensures { Gives (λ x. (x.0, x.1.now)) result (update_at version bytes.now) }
{
    let (old, rest) = number_at(version, Size::Bits64, bytes)?;
    let (number, rest) = u32_at(version, rest)?;
    Ok((LogEntry::Update { number, old }, rest))
}

#[tactic(auto, unfolding(crate::specs::Reading::kind_at))]
fn kind_at(version: Version, bytes: &[u8]) -> Result<(Kind, &[u8]), ReadError>
    ensures { Gives (λ x. (x.0, x.1.now)) result (kind_at version bytes.now) }
{
    match (bytes, version) {
        ([], _) => Err(ReadError::SHORT),
        ([1, rest @ ..], _) => Ok((Kind::Read, rest)),
        ([2, rest @ ..], _) => Ok((Kind::Write, rest)),
        ([3, rest @ ..], _) => Ok((Kind::Enter, rest)),
        ([4, rest @ ..], Version::Two) => Ok((Kind::Update, rest)),
        ([_, ..], _) => Err(ReadError::at(FormatKind::BadTag, bytes)),
    }
}

/// An entry, after a read with the bound `before`: its tag, and then its fields.
#[tactic(auto, unfolding(crate::specs::Reading::entry_at, crate::specs::Reading::fields_at))]
pub(crate) fn entry_at(
    version: Version,
    before: u32,
    bytes: &[u8],
) -> Result<(LogEntry, &[u8]), ReadError>
    ensures { Gives (λ x. (x.0, x.1.now)) result (entry_at version before bytes.now) }
{
    let (kind, fields) = kind_at(version, bytes)?;
    match kind {
        Kind::Read => read_at(version, before, fields),
        Kind::Write => write_at(version, fields),
        Kind::Enter => enter_at(version, fields),
        Kind::Update => update_at(version, fields),
    }
}
