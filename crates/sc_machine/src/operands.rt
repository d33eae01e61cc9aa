//! The operand stack of a thread that runs: its words in place, and how many there are apart from them.
ghost use Rattle.std.specs.Prelude.{◌≡◌, ℕ, List, ◌∷◌, ◌<◌, ◌≤◌, [], length, slice_index};
ghost use Rattle.stride_isa.specs.Limits.{stack_limit};
ghost use Rattle.sc_machine.specs.Operands.{operands};

use stride_isa::limits::STACK_LIMIT;

/// How many words are on the stack.
///
/// It stands apart from the words, so that a loop which writes words can keep it in a register.
#[derive(Clone, Copy)]
pub struct Top {
    depth: usize,
    ghost within: { depth ≤ stack_limit },
}

#[tactic(auto, unfolding(crate::specs::Operands::operands))]
impl Top {
    /// The top of the empty stack, whatever words the array holds.
    pub fn empty() -> Top
        ensures empty { (words : List ℕ) → operands words result.depth ≡ [] }
        ensures depth { result.depth ≡ 0 }
    {
        Top { depth: 0 }
    }

    /// Puts a word on the stack.
    #[inline(always)]
    pub fn push(&mut self, words: &mut [u64; STACK_LIMIT], word: u64)
        requires { length (operands words.old self.old.depth) < STACK_LIMIT }
        ensures { operands words.new self.new.depth ≡ word ∷ operands words.old self.old.depth }
    {
        words[self.depth] = word;
        self.depth += 1;
    }

    /// Takes the topmost word away.
    #[inline(always)]
    pub fn pop(&mut self, words: &[u64; STACK_LIMIT]) -> u64
        requires { 0 < length (operands words.now self.old.depth) }
        ensures { operands words.now self.old.depth ≡ result ∷ operands words.now self.new.depth }
    {
        self.depth -= 1;
        words[self.depth]
    }

    /// The word that stands `down` places below the topmost one.
    #[inline(always)]
    pub fn peek(self, words: &[u64; STACK_LIMIT], down: usize) -> u64
        requires { down < length (operands words.now self.depth) }
        ensures { result ≡ slice_index (operands words.now self.depth) down }
    {
        words[self.depth - 1 - down]
    }
}
