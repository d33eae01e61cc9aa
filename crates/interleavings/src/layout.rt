//! The row of the shared words.
ghost use Rattle.std.specs.Prelude.{◌≡◌};
ghost use Rattle.interleavings.specs.AtomicStep.{Value, Number, Monitor, word_of};
ghost use Rattle.interleavings.specs.Layout.{index_of as place_in, row_length};

use crate::kind::Kind;

/// How many cells and monitors there are. A row has first the count of drawn names, then of each cell its value and its
/// number, then the monitors' words.
#[derive(Clone, Copy, Debug, PartialEq, Eq)]
pub struct Layout {
    pub cells: u32,
    pub monitors: u32,
}

impl Layout {
    /// The length of a row.
    pub fn row_length(self) -> usize
        ensures { result ≡ row_length self.cells self.monitors }
    {
        2 * self.cells as usize + 1 + self.monitors as usize
    }

    /// The place of a cell's value.
    pub fn value_word(self, cell: u32) -> usize
        ensures { result ≡ place_in self.cells (Value cell) }
    {
        2 * cell as usize + 1
    }

    /// The place of a cell's number.
    pub fn number_word(self, cell: u32) -> usize
        ensures { result ≡ place_in self.cells (Number cell) }
    {
        2 * cell as usize + 2
    }

    /// The place of a monitor's word.
    pub fn monitor_word(self, mon: u32) -> usize
        ensures { result ≡ place_in self.cells (Monitor mon) }
    {
        2 * self.cells as usize + 1 + mon as usize
    }

    /// The place of the word that a step of this kind touches at this cell or monitor.
    pub fn word_of(self, kind: Kind, at: u32) -> usize
        ensures { result ≡ place_in self.cells (word_of kind at) }
    {
        match kind {
            Kind::ValueLoad | Kind::Fetch | Kind::Put => self.value_word(at),
            Kind::NumberLoad | Kind::SeeNumber | Kind::Claim | Kind::Complete => {
                self.number_word(at)
            }
            Kind::Look | Kind::Enter | Kind::Leave => self.monitor_word(at),
            Kind::Draw => 0,
        }
    }
}
