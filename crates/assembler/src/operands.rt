//! `Operands`: the words after the first of a line.
ghost use Rattle.std.specs.Prelude.{◌≡◌};
ghost use Rattle.assembler.specs.Forms.{following};
ghost use Rattle.assembler.specs.Seen.{words_seen};
ghost use Rattle.assembler.specs.Words.{plain_words};

use crate::words::take_word;

/// The words after the first of a line, as far as any line has some.
#[derive(Clone, Copy, Debug)]
pub(crate) enum Operands<'a> {
    Nothing,
    One(&'a [u8]),
    Two(&'a [u8], &'a [u8]),
    Three(&'a [u8], &'a [u8], &'a [u8]),
    More,
}

impl<'a> Operands<'a> {
    /// The words of the rest of a line, which has no comment.
    pub(crate) fn of(rest: &'a [u8]) -> Operands<'a>
        ensures { words_seen result ≡ following (plain_words rest.now) }
    {
        let Some((first, rest)) = take_word(rest) else {
            return Operands::Nothing;
        };
        let Some((second, rest)) = take_word(rest) else {
            return Operands::One(first);
        };
        let Some((third, rest)) = take_word(rest) else {
            return Operands::Two(first, second);
        };
        match take_word(rest) {
            None => Operands::Three(first, second, third),
            Some(_) => Operands::More,
        }
    }
}
