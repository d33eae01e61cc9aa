//! What is left once the sharing has ended.
ghost use Rattle.std.specs.Prelude.{◌≡◌, ◌<◌, ◌≤◌, slice_index};
ghost use Rattle.std.specs.Mem.Slots.{slots_items, slots_len, IsFull};
ghost use Rattle.shared_rule.specs.declared.limits.TheConstants.{DRAW_LIMIT};

use std::alloc::Global;

/// The words as they were left.
pub struct Closed {
    pub(crate) words: atomic_table::Closed<(), Global>,
    ghost full: { IsFull words.words },
    ghost empty: { slots_len words.slots ≡ 0 },
    ghost some_word: { 0 < slots_len words.words },
    ghost few_names: { slice_index (slots_items words.words) 0 ≤ DRAW_LIMIT },
}

/// The words of a table that was closed.
pub(crate) fn closed_of(words: atomic_table::Closed<(), Global>) -> Closed
    requires full { IsFull words.words }
    requires empty { slots_len words.slots ≡ 0 }
    requires some_word { 0 < slots_len words.words }
    requires few_names { slice_index (slots_items words.words) 0 ≤ DRAW_LIMIT }
    ensures { result.words ≡ words }
{
    Closed { words }
}

impl Drop for Closed {
    fn drop(self) {
        let Self { words } = self;
        words.free();
    }
}
