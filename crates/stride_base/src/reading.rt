//! `read_all`: the whole of an input.
ghost use Rattle.std.specs.Prelude.{◌≡◌, ◌+◌, ◌<◌, ◌≤◌, [], length, vec_len, Err, IfSome, IfOk, OnOk};
ghost use Rattle.stride_base.specs.Devices.{TakesMany, Rose};

use crate::input_error::InputError;
use crate::list::List;
use crate::source::Source;
use std::alloc::{AllocError, Global};

// The most bytes that one read asks for: enough that the calls cost little beside the copying.
const PIECE_LEN: usize = 65536;

/// Reads all bytes that are left, if they are at most `limit`. No read asks for more than one byte
/// past the limit, and none follows the one that gave that byte.
pub fn read_all<S: Source>(
    alloc: Global,
    source: &mut S,
    limit: usize,
) -> Result<List<u8>, InputError>
    // All that was left was read, and nothing is left.
    ensures all { IfOk result (λ list. IfSome (S.left source.old) (λ bytes. list.items ≡ bytes)) }
    ensures end { OnOk result (IfSome (S.left source.new) (λ bytes. bytes ≡ [])) }
    ensures within { IfOk result (λ list. length list.items ≤ limit) }

    ensures read_fault { result ≡ Err InputError.ReadFault → Rose (S.faults source.old) (S.faults source.new) }
    ensures too_long { result ≡ Err InputError.TooLong
        → IfSome (S.left source.old) (λ bytes. limit < length bytes) }

    // One byte past the limit was read, and no more.
    ensures past { result ≡ Err InputError.TooLong
        → TakesMany (S.left source.old) (S.left source.new) (limit + 1) }

    ensures counted { S.faults source.old ≤ S.faults source.new }
{
    let mut buffer = zeros(alloc, PIECE_LEN)?;
    let mut list = List::new(alloc);
    loop {
        let left = limit - list.len();
        let piece = &mut buffer[..left.min(PIECE_LEN - 1) + 1];
        let n = source.read(piece)?;
        if n == 0 {
            return Ok(list);
        }
        if n > left {
            return Err(InputError::TooLong);
        }
        list.push_all(&piece[..n])?;
    }
}

// Apart from its caller, since a proof at a written length would write the whole list out.
fn zeros(alloc: Global, len: usize) -> Result<Vec<u8>, AllocError>
    ensures { IfOk result (λ bytes. vec_len bytes ≡ len) }
{
    vec![in alloc; 0; len]
}
