//! `StdSink`: a sink over a writer of std.
ghost use Rattle.std.specs.Prelude.{◌≡◌};

use crate::failed::Failed;
use crate::sink::Sink;
use std::io::Write;
use std::marker::Model;

/// A sink over a writer of std. It tells no bytes, and is seen as its count of faults.
#[derive(Drop)]
pub struct StdSink<W> {
    writer: W,
    faults: u64,
}

impl<W> Model for StdSink<W> {
    ghost use Rattle.std.specs.Prelude.{ℕ};

    ghost Value = { ℕ };

    ghost view = { λ s. s.faults };
}

impl<W> StdSink<W> {
    /// A sink over `writer` that has had no fault. It takes no memory.
    pub fn new(writer: W) -> StdSink<W>
        ensures { result ≡ 0 }
    {
        StdSink { writer, faults: 0 }
    }
}

impl<W: Write> Sink for StdSink<W> {
    ghost use Rattle.std.specs.Prelude.{None};

    ghost held = { λ _. None };

    ghost faults = { λ s. s };

    /// Writes and flushes. A write that takes nothing is a fault, and so is a flush that fails.
    fn put(&mut self, piece: &[u8]) -> Result<usize, Failed> {
        match self.writer.write(piece) {
            Ok(n) if n > 0 && self.writer.flush().is_ok() => Ok(n),
            _ => {
                self.faults = self.faults.saturating_add(1);
                Err(Failed)
            }
        }
    }
}
