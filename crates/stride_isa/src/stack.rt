//! The operand stack of one thread.
ghost use Rattle.std.specs.Prelude.{◌≡◌, ◌==◌, ◌<◌, [], ◌∷◌, length, slice_index};

use std::marker::Model;

/// A stack of at most `D` words, in place. Contracts see its words, the topmost first.
#[derive(Debug, Drop)]
pub struct Stack<const D: usize> {
    words: [u64; D],
    len: usize,
}

impl<const D: usize> Model for Stack<D> {
    ghost use Rattle.std.specs.Prelude.{ℕ, ◌≤◌, List, take, reverse};

    ghost Value = { List ℕ };

    ghost view = { λ s. reverse (take s.len s.words) };

    ghost invariant = { λ s. s.len ≤ D };
}

impl<const D: usize> Stack<D> {
    /// The empty stack.
    pub fn new() -> Stack<D>
        ensures { result ≡ [] }
    {
        Stack {
            words: [0; D],
            len: 0,
        }
    }

    /// How many words are on the stack.
    pub fn len(&self) -> usize
        ensures { result ≡ length self.now }
    {
        self.len
    }

    /// Whether no word is on the stack.
    pub fn is_empty(&self) -> bool
        ensures { result ≡ (length self.now == 0) }
    {
        self.len == 0
    }

    /// Puts a word on the stack.
    pub fn push(&mut self, word: u64)
        requires { length self.old < D }
        ensures { self.new ≡ word ∷ self.old }
    {
        self.words[self.len] = word;
        self.len += 1;
    }

    /// Takes the topmost word away.
    pub fn pop(&mut self) -> u64
        requires { 0 < length self.old }
        ensures { self.old ≡ result ∷ self.new }
    {
        self.len -= 1;
        self.words[self.len]
    }

    /// The word that stands `down` places below the topmost one.
    pub fn peek(&self, down: usize) -> u64
        requires { down < length self.now }
        ensures { result ≡ slice_index self.now down }
    {
        self.words[self.len - 1 - down]
    }
}
