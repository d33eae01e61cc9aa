//! `split_order`: where the line `order` splits an input.
ghost use Rattle.std.specs.Prelude.{◌≡◌, ◌+◌, ◌≤◌, length};
ghost use Rattle.assembler.specs.Splits.{is_order, split};
ghost use Rattle.assembler.specs.Words.{words_of};

use crate::lines::take_line;
use crate::order_split::OrderSplit;
use crate::words::{before_comment, take_word};
use stride_base::limits::INPUT_LIMIT;

fn is_order_line(line: &[u8]) -> bool
    ensures { result ≡ is_order (words_of line.now) }
{
    let Some((word, rest)) = take_word(before_comment(line)) else {
        return false;
    };
    word == b"order".as_slice() && take_word(rest).is_none()
}

/// Splits an input by its first line whose only word is `order`. Without one the whole input is the program's text, and
/// the order is empty. It takes no memory.
pub fn split_order(text: &[u8]) -> OrderSplit
    requires { length text.now ≤ INPUT_LIMIT }
    ensures split { result ≡ split text.now }
    ensures ordered { result.program_end ≤ result.order_start }
    ensures within { result.order_start ≤ length text.now }
    ensures line { (1 ≤ result.order_line) × (result.order_line ≤ INPUT_LIMIT + 1) }
{
    let mut rest = text;
    let mut number = 1;
    while let Some((line, after)) = take_line(rest) {
        if is_order_line(line) {
            return OrderSplit {
                program_end: text.len() - rest.len(),
                order_start: text.len() - after.len(),
                order_line: number + 1,
            };
        }
        rest = after;
        number += 1;
    }
    OrderSplit {
        program_end: text.len(),
        order_start: text.len(),
        order_line: number,
    }
}
