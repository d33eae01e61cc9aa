//! Printed words.
ghost use Rattle.std.specs.Prelude.{◌≡◌, ◌+◌, ◌<◌, ◌≤◌, [], ◌∷◌, ◌++◌, length, decimal};

use crate::limits::LINE_LIMIT;
use itoa::write_digits;
use stride_base::List;

/// Appends the word in decimal and a line feed, at most `LINE_LIMIT` bytes, into reserved room.
#[inline(never)]
pub fn push_line(out: &mut List<u8>, word: u64)
    requires { LINE_LIMIT ≤ out.old.spare }
    ensures items { out.new.items ≡ out.old.items ++ (decimal word ++ 10 ∷ []) }
    ensures spare { out.new.spare + (length (decimal word) + 1) ≡ out.old.spare }
    ensures few { length (decimal word) < LINE_LIMIT }
{
    let mut line = [b'\n'; LINE_LIMIT];
    let begin = write_digits(word, &mut line, LINE_LIMIT - 1);
    out.push_all_spare(line.split_at(begin).1);
}
