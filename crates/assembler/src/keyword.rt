//! `Keyword`: what the first word of a line begins.
ghost use Rattle.std.specs.Prelude.{◌≡◌};
ghost use Rattle.assembler.specs.Forms.{keyword_of};

use stride_isa::{OpKind, op_named};

/// What a line is by its first word.
#[derive(Clone, Copy, Debug, PartialEq, Eq)]
pub(crate) enum Keyword {
    Var,
    Array,
    Monitor,
    Thread,
    Instruction(OpKind),
    Other,
}

/// The keyword that a word is.
pub(crate) fn keyword_at(word: &[u8]) -> Keyword
    ensures { result ≡ keyword_of word.now }
{
    if word == b"var".as_slice() {
        return Keyword::Var;
    }
    if word == b"array".as_slice() {
        return Keyword::Array;
    }
    if word == b"monitor".as_slice() {
        return Keyword::Monitor;
    }
    if word == b"thread".as_slice() {
        return Keyword::Thread;
    }
    match op_named(word) {
        Some(kind) => Keyword::Instruction(kind),
        None => Keyword::Other,
    }
}
