//! A line of a report.
ghost use Rattle.std.specs.Prelude.{◌≡◌, ◌+◌, ◌≤◌, ◌∷◌, [], ◌++◌, List, ℕ, decimal, drop, length};

use itoa::write_digits;
use std::marker::Model;

/// The most bytes of a line: room for three numbers, the longest word, the spaces and the line feed.
const LINE_LIMIT: usize = 80;

/// A line, which is written from its end to its beginning, so that it is appended to a report at once.
#[derive(Drop)]
pub struct Line {
    bytes: [u8; LINE_LIMIT],
    start: usize,
}

impl Model for Line {
    ghost Value = { List ℕ };

    ghost view = { λ line. drop line.start line.bytes };

    ghost invariant = { λ line. line.start ≤ 80 };
}

impl Line {
    /// The line feed alone.
    pub fn new() -> Line
        ensures { result ≡ 10 ∷ [] }
    {
        Line {
            bytes: [b'\n'; LINE_LIMIT],
            start: LINE_LIMIT - 1,
        }
    }

    /// Puts a number in decimal before what is written.
    pub fn put_number(&mut self, number: u64)
        requires { length self.old + 20 ≤ 80 }
        ensures text { self.new ≡ decimal number ++ self.old }
        ensures length { length self.new ≤ length self.old + 20 }
    {
        self.start = write_digits(number, &mut self.bytes, self.start);
    }

    /// Puts bytes before what is written.
    pub fn put(&mut self, piece: &[u8])
        requires { length self.old + length piece.now ≤ 80 }
        ensures text { self.new ≡ piece.now ++ self.old }
        ensures length { length self.new ≡ length self.old + length piece.now }
    {
        let start = self.start - piece.len();
        self.bytes[start..self.start].copy_from_slice(piece);
        self.start = start;
    }

    /// What is written.
    pub fn text(&self) -> &[u8]
        ensures { result.now ≡ self.now }
    {
        self.bytes.split_at(self.start).1
    }
}
