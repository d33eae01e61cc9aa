//! `Source`: what bytes are read from.
ghost use Rattle.std.specs.Prelude.{◌≡◌, ℕ, ◌<◌, ◌≤◌, [], length, take, Option, IfSome, IfOk, OnErr};
ghost use Rattle.std.specs.Prelude.{List as Bytes};
ghost use Rattle.stride_base.specs.Devices.{Takes, Rose};

use crate::failed::Failed;

/// A device that bytes are read from.
pub trait Source {
    /// The bytes left, where the source tells them.
    ghost left: { Self → Option (Bytes ℕ) };

    /// How many faults the source has had, up to the last value of a `u64`.
    ghost faults: { Self → ℕ };

    /// Reads the next bytes into the front of `buf`, and gives their number. `Ok(0)` is the end.
    /// A fault raises the count.
    fn read(&mut self, buf: &mut [u8]) -> Result<usize, Failed>
        requires { 0 < length buf.old }
        ensures within { IfOk result (λ n. n ≤ length buf.new) }
        ensures taken { IfOk result (λ n. Takes (left self.old) (left self.new) (take n buf.new)) }
        ensures end { IfOk result (λ n. n ≡ 0 → IfSome (left self.new) (λ bytes. bytes ≡ [])) }
        ensures failed { OnErr result (Rose (faults self.old) (faults self.new)) }
        ensures counted { faults self.old ≤ faults self.new };
}
