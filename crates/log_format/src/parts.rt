//! The magic bytes and the text, from the front of the bytes.
ghost use Rattle.std.specs.Prelude.{◌≡◌, IfOk};
ghost use Rattle.log_format.specs.Answers.{Gives};
ghost use Rattle.log_format.specs.Reading.{bytes_at, letter_at, letters_at, magic_at, text_at, version_at};

use crate::fault::ReadError;
use crate::format_error::FormatKind;
use crate::numbers::u32_at;
use crate::version::Version;
use std::alloc::Global;
use stride_base::{List, NoMemory};

#[tactic(auto, unfolding(crate::specs::Reading::letter_at))]
fn after_letter(want: u8, bytes: &[u8]) -> Result<&[u8], ReadError>
    ensures { Gives (λ rest. (tt, rest.now)) result (letter_at want bytes.now) }
{
    match bytes {
        [] => Err(ReadError::SHORT),
        [byte, rest @ ..] => {
            if *byte == want {
                Ok(rest)
            } else {
                Err(ReadError::at(FormatKind::BadMagic, bytes))
            }
        }
    }
}

// The bytes after the wanted ones, with which they begin.
fn after_letters<'a>(wanted: &[u8], bytes: &'a [u8]) -> Result<&'a [u8], ReadError>
    ensures { Gives (λ rest. (tt, rest.now)) result (letters_at wanted.now bytes.now) }
{
    let mut rest = bytes;
    for want in wanted {
        rest = after_letter(*want, rest)?;
    }
    Ok(rest)
}

#[tactic(auto, unfolding(crate::specs::Reading::version_at))]
fn version_at(bytes: &[u8]) -> Result<(Version, &[u8]), ReadError>
    ensures { Gives (λ x. (x.0, x.1.now)) result (version_at bytes.now) }
{
    match bytes {
        [] => Err(ReadError::SHORT),
        [b'1', rest @ ..] => Ok((Version::One, rest)),
        [b'2', rest @ ..] => Ok((Version::Two, rest)),
        [_, ..] => Err(ReadError::at(FormatKind::BadMagic, bytes)),
    }
}

/// The magic bytes, which tell the version.
#[tactic(auto, unfolding(crate::specs::Reading::magic_at))]
pub(crate) fn magic_at(bytes: &[u8]) -> Result<(Version, &[u8]), ReadError>
    ensures { Gives (λ x. (x.0, x.1.now)) result (magic_at bytes.now) }
{
    let rest = after_letters(b"STRIDE", bytes)?;
    let (version, rest) = version_at(rest)?;
    let rest = after_letters(b"\n", rest)?;
    Ok((version, rest))
}

fn listed(alloc: Global, bytes: &[u8]) -> Result<List<u8>, NoMemory>
    ensures { IfOk result (λ list. list.items ≡ bytes.now) }
{
    let mut list = List::new(alloc);
    list.push_all(bytes)?;
    Ok(list)
}

#[tactic(auto, unfolding(crate::specs::Reading::bytes_at))]
fn bytes_at(alloc: Global, count: usize, bytes: &[u8]) -> Result<(List<u8>, &[u8]), ReadError>
    ensures { Gives (λ x. (x.0.items, x.1.now)) result (bytes_at count bytes.now) }
{
    if bytes.len() < count {
        return Err(ReadError::SHORT);
    }
    let (text, rest) = bytes.split_at(count);
    Ok((listed(alloc, text)?, rest))
}

/// The text, after its length.
#[tactic(auto, unfolding(crate::specs::Reading::text_at))]
pub(crate) fn text_at(
    alloc: Global,
    version: Version,
    bytes: &[u8],
) -> Result<(List<u8>, &[u8]), ReadError>
    ensures { Gives (λ x. (x.0.items, x.1.now)) result (text_at version bytes.now) }
{
    let (length, rest) = u32_at(version, bytes)?;
    bytes_at(alloc, length as usize, rest)
}
