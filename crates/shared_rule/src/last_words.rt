//! The words as they were left.
ghost use Rattle.std.specs.Prelude.{◌≡◌, ◌<◌};
ghost use Rattle.interleavings.specs.AtomicStep.{Drawn, Value, Number};
ghost use Rattle.shared_rule.specs.Closing.{last_word, HasCell};

use crate::closed::Closed;
use crate::lines::{DRAWN_WORD, index_of};
use crate::word::Word;

impl Closed {
    /// The last value of a cell.
    pub fn value(&self, cell: u32) -> u64
        requires { HasCell self.now cell }
        ensures { result ≡ last_word self.now (Value cell) }
    {
        self.words.word(index_of(Word::Value(cell)))
    }

    /// The last number of a cell.
    pub fn number(&self, cell: u32) -> u64
        requires { HasCell self.now cell }
        ensures { result ≡ last_word self.now (Number cell) }
    {
        self.words.word(index_of(Word::Number(cell)))
    }

    /// How many names were drawn.
    pub fn drawn(&self) -> u32
        ensures { result ≡ last_word self.now Drawn }
    {
        self.words.word(DRAWN_WORD) as u32
    }
}
