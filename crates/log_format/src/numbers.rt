//! The numbers of a bundle, from the front of the bytes.
ghost use Rattle.std.specs.Prelude.{◌≡◌, ◌≤◌, IfOk};
ghost use Rattle.log_format.specs.Answers.{Gives};
ghost use Rattle.log_format.specs.Reading.{byte_at as next_byte, fault, fuel_at, groups_at, grouped_at, number_at, number_up_to, wide_at};
ghost use Rattle.log_format.specs.Spelling.{greatest};

use crate::fault::{Fault, ReadError};
use crate::format_error::FormatKind;
use crate::version::{Size, Version};
use byteorder::{BigEndian, ByteOrder};
use stride_isa::limits::{FUEL_LIMIT, THREAD_LIMIT};

#[inline(never)]
#[tactic(auto, unfolding(crate::specs::Reading::wide_at), using(crate::proofs::BigNumbers::big_number_of))]
fn wide_at(size: Size, bytes: &[u8]) -> Result<(u64, &[u8]), ReadError>
    ensures { Gives (λ x. (x.0, x.1.now)) result (wide_at size bytes.now) }
{
    let width = size.width();
    if bytes.len() < width {
        return Err(ReadError::SHORT);
    }
    let (front, rest) = bytes.split_at(width);
    Ok((BigEndian::read_uint(front, width), rest))
}

#[inline(always)]
fn byte_at(bytes: &[u8]) -> Result<(u8, &[u8]), ReadError>
    ensures { Gives (λ x. (x.0, x.1.now)) result (next_byte bytes.now) }
{
    match bytes {
        [] => Err(ReadError::SHORT),
        [byte, rest @ ..] => Ok((*byte, rest)),
    }
}

// The last of the higher groups that can come.
#[tactic(auto, unfolding(crate::specs::Reading::groups_at))]
fn last_group_at(wrong: Fault, bytes: &[u8]) -> Result<&[u8], ReadError>
    ensures { Gives (λ rest. (1, rest.now)) result (groups_at wrong 0 bytes.now) }
{
    match bytes {
        [] => Err(ReadError::SHORT),
        [1, rest @ ..] => Ok(rest),
        [_, ..] => Err(ReadError::Fault(wrong)),
    }
}

// The higher groups of seven bits, of which eight can have a high bit.
#[inline(never)]
fn groups_at(wrong: Fault, bytes: &[u8]) -> Result<(u64, &[u8]), ReadError>
    ensures { Gives (λ x. (x.0, x.1.now)) result (groups_at wrong 8 bytes.now) }
{
    let mut number = 0;
    let mut weight = 1;
    let mut rest = bytes;
    for _ in 0..8_u8 {
        let (byte, after) = byte_at(rest)?;
        if byte == 0 {
            return Err(ReadError::Fault(wrong));
        }
        if byte < 128 {
            return Ok((number + weight * u64::from(byte), after));
        }
        number += weight * u64::from(byte - 128);
        weight *= 128;
        rest = after;
    }
    let rest = last_group_at(wrong, rest)?;
    Ok((number + weight, rest))
}

#[inline(always)]
#[tactic(auto, unfolding(crate::specs::Reading::grouped_at))]
fn grouped_at(bytes: &[u8]) -> Result<(u64, &[u8]), ReadError>
    ensures { Gives (λ x. (x.0, x.1.now)) result (grouped_at bytes.now) }
{
    let [byte, rest @ ..] = bytes else {
        return Err(ReadError::SHORT);
    };
    let byte = *byte;
    if byte < 128 {
        return Ok((u64::from(byte), rest));
    }
    let wrong = Fault {
        kind: FormatKind::BadForm,
        left: bytes.len(),
    };
    let (higher, rest) = groups_at(wrong, rest)?;
    Ok((u64::from(byte - 128) + 128 * higher, rest))
}

/// A number of this size.
#[inline(always)]
#[tactic(auto, unfolding(crate::specs::Reading::number_at))]
pub(crate) fn number_at(
    version: Version,
    size: Size,
    bytes: &[u8],
) -> Result<(u64, &[u8]), ReadError>
    ensures reads { Gives (λ x. (x.0, x.1.now)) result (number_at version size bytes.now) }
    ensures fits { IfOk result (λ x. x.0 ≤ greatest size) }
{
    match version {
        Version::One => wide_at(size, bytes),
        Version::Two => {
            let (number, rest) = grouped_at(bytes)?;
            if number > size.greatest() {
                return Err(ReadError::at(FormatKind::BadCount, bytes));
            }
            Ok((number, rest))
        }
    }
}

/// A number of 32 bits.
#[inline(always)]
pub(crate) fn u32_at(version: Version, bytes: &[u8]) -> Result<(u32, &[u8]), ReadError>
    ensures { Gives (λ x. (x.0, x.1.now)) result (number_at version Size.Bits32 bytes.now) }
{
    let (number, rest) = number_at(version, Size::Bits32, bytes)?;
    Ok((number as u32, rest))
}

/// The number of threads.
#[tactic(auto, unfolding(crate::specs::Reading::number_up_to))]
pub(crate) fn threads_at(version: Version, bytes: &[u8]) -> Result<(u16, &[u8]), ReadError>
    ensures { Gives (λ x. (x.0, x.1.now)) result (number_up_to version Size.Bits16 THREAD_LIMIT bytes.now) }
{
    let (threads, rest) = number_at(version, Size::Bits16, bytes)?;
    if threads > THREAD_LIMIT as u64 {
        return Err(ReadError::at(FormatKind::BadCount, bytes));
    }
    Ok((threads as u16, rest))
}

/// A number of entries or of instructions, up to a limit.
#[tactic(auto, unfolding(crate::specs::Reading::number_up_to))]
pub(crate) fn u32_up_to(
    version: Version,
    limit: u32,
    bytes: &[u8],
) -> Result<(u32, &[u8]), ReadError>
    ensures { Gives (λ x. (x.0, x.1.now)) result (number_up_to version Size.Bits32 limit bytes.now) }
{
    let (number, rest) = u32_at(version, bytes)?;
    if number > limit {
        return Err(ReadError::at(FormatKind::BadCount, bytes));
    }
    Ok((number, rest))
}

/// How many instructions each thread may make.
#[tactic(auto, unfolding(crate::specs::Reading::fuel_at))]
pub(crate) fn fuel_at(version: Version, bytes: &[u8]) -> Result<(u32, &[u8]), ReadError>
    ensures { Gives (λ x. (x.0, x.1.now)) result (fuel_at version bytes.now) }
{
    let (fuel, rest) = u32_up_to(version, FUEL_LIMIT, bytes)?;
    if fuel == 0 {
        return Err(ReadError::at(FormatKind::BadCount, bytes));
    }
    Ok((fuel, rest))
}
