//! `Sink`: what bytes are put into.
ghost use Rattle.std.specs.Prelude.{◌≡◌, ℕ, ◌<◌, ◌≤◌, length, take, Option, IfOk, OnErr};
ghost use Rattle.std.specs.Prelude.{List as Bytes};
ghost use Rattle.stride_base.specs.Devices.{Adds, Rose};

use crate::failed::Failed;

/// A device that bytes are put into.
pub trait Sink {
    /// The bytes held, where the sink tells them.
    ghost held: { Self → Option (Bytes ℕ) };

    /// How many faults the sink has had, up to the last value of a `u64`.
    ghost faults: { Self → ℕ };

    /// Appends at least one byte of `piece`, from its front, and gives how many. A fault appends
    /// nothing and raises the count.
    fn put(&mut self, piece: &[u8]) -> Result<usize, Failed>
        requires { 0 < length piece.now }
        ensures some { IfOk result (λ n. 0 < n) }
        ensures within { IfOk result (λ n. n ≤ length piece.now) }
        ensures added { IfOk result (λ n. Adds (held self.old) (held self.new) (take n piece.now)) }
        ensures kept { OnErr result (held self.new ≡ held self.old) }
        ensures failed { OnErr result (Rose (faults self.old) (faults self.new)) }
        ensures counted { faults self.old ≤ faults self.new };
}
