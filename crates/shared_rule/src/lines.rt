//! Where the shared words lie.
ghost use Rattle.std.specs.Prelude.{◌≡◌, ◌≤◌, length, IfOk};
ghost use Rattle.interleavings.specs.AtomicStep.{Drawn, Value, Number, Monitor};
ghost use Rattle.interleavings.specs.History.{start_words};
ghost use Rattle.shared_rule.specs.Accesses.{word_named};
ghost use Rattle.shared_rule.specs.Lines.{index_of as place_of, opening_words as words_at_start, width as word_count, word_at};

use crate::word::Word;
use std::alloc::Global;
use stride_base::NoMemory;
use stride_isa::limits::{CELL_LIMIT, MONITOR_LIMIT};

/// How many words a line has: 128 bytes, two lines of a processor's cache, since some fetch two at once. The words of a table
/// begin at an address that 16 divides, so a cell's value and its number always lie in one line of the cache.
pub(crate) const LINE_WORDS: usize = 16;

/// The place of the count of names.
pub(crate) const DRAWN_WORD: usize = 0;

/// How many words there are for so many cells.
fn width(cells: usize) -> usize
    requires { cells ≤ CELL_LIMIT }
    ensures { result ≡ word_count cells }
{
    LINE_WORDS * (cells + MONITOR_LIMIT + 1)
}

/// The place of a word.
pub(crate) fn index_of(word: Word) -> usize
    ensures { result ≡ place_of (word_named word) }
{
    match word {
        Word::Value(cell) => LINE_WORDS * (cell as usize + MONITOR_LIMIT + 1),
        Word::Number(cell) => LINE_WORDS * (cell as usize + MONITOR_LIMIT + 1) + 1,
        Word::Monitor(mon) => LINE_WORDS * (mon as usize + 1),
    }
}

/// The word with which the place starts: the starting value of a cell where it is a cell's value, and else 0.
fn first_word(starts: &[u64], place: usize) -> u64
    ensures { result ≡ start_words starts.now (word_at place) }
{
    let line = place / LINE_WORDS;
    if place % LINE_WORDS == 0 && line > MONITOR_LIMIT {
        starts.get(line - (MONITOR_LIMIT + 1)).copied().unwrap_or(0)
    } else {
        0
    }
}

/// The words with which cells of these starting values start.
pub(crate) fn opening_words(alloc: Global, starts: &[u64]) -> Result<Vec<u64>, NoMemory>
    requires { length starts.now ≤ CELL_LIMIT }
    ensures { IfOk result (λ words. words.items ≡ words_at_start starts.now) }
{
    let words = (0..width(starts.len()))
        .map(|place| first_word(starts, place))
        .collect(alloc)?;
    Ok(words)
}
