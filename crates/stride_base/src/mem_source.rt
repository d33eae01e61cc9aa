//! `MemSource`: a source over bytes in memory.
ghost use Rattle.std.specs.Prelude.{◌≡◌, ◌<◌, ◌≤◌, [], ◌++◌, length, take, drop, Some, IfSome, IfOk, OnErr};
ghost use Rattle.std.specs.Result.{result_ok};
ghost use Rattle.stride_base.specs.Devices.{Takes, Rose};
ghost use Rattle.stride_base.specs.MemoryDevices.{listed_calls, read_answer, read_bytes, after_read};

use crate::failed::Failed;
use crate::failing_calls::is_failing;
use crate::list::List;
use crate::no_memory::NoMemory;
use crate::source::Source;
use std::alloc::Global;
use std::marker::Model;

/// A source over bytes in memory, whose calls with listed numbers fail.
#[derive(Drop)]
pub struct MemSource {
    bytes: List<u8>,
    // How many of the bytes were read.
    at: usize,
    failing: List<u32>,
    calls: u64,
    faults: u64,
}

impl Model for MemSource {
    ghost use Rattle.std.specs.Prelude.{drop};
    ghost use Rattle.stride_base.specs.MemoryDevices.{MemorySource};

    ghost Value = { MemorySource };

    ghost use Rattle.stride_base.specs.MemSourceInside.{IsConsistent};

    ghost view = { λ s. record { left = drop s.at s.bytes.items; failing = s.failing.items; calls = s.calls } };

    ghost invariant = { IsConsistent };
}

impl MemSource {
    /// A source over a copy of `bytes`. Its calls with the numbers in `failing`, counted from 1, fail.
    #[tactic(auto, using(crate::proofs::ListedCalls::listed_calls_steps))]
    pub fn new(alloc: Global, bytes: &[u8], failing: &[u32]) -> Result<MemSource, NoMemory>
        ensures { IfOk result
            (λ s. s ≡ record { left = bytes.now; failing = failing.now; calls = 0 }) }
    {
        let mut own_bytes = List::new(alloc);
        own_bytes.push_all(bytes)?;
        let mut own_failing = List::new(alloc);
        own_failing.push_all(failing)?;
        Ok(MemSource {
            bytes: own_bytes,
            at: 0,
            failing: own_failing,
            calls: 0,
            faults: 0,
        })
    }

    /// The bytes that are left.
    pub fn rest(&self) -> &[u8]
        ensures { result.now ≡ self.now.left }
    {
        self.bytes.as_slice().split_at(self.at).1
    }

    /// How many calls failed so far.
    pub fn faults(&self) -> u64
        ensures { result ≡ listed_calls self.now.failing self.now.calls }
    {
        self.faults
    }
}

impl Source for MemSource {
    ghost use Rattle.std.specs.Prelude.{Some};
    ghost use Rattle.stride_base.specs.MemoryDevices.{listed_calls};

    ghost left = { λ s. Some s.left };

    ghost faults = { λ s. listed_calls s.failing s.calls };

    #[tactic(auto, using(crate::proofs::ListedCalls::listed_calls_steps))]
    fn read(&mut self, buf: &mut [u8]) -> Result<usize, Failed>
        requires { 0 < length buf.old }
        ensures within { IfOk result (λ n. n ≤ length buf.new) }
        ensures taken { IfOk result (λ n. Takes (Some self.old.left) (Some self.new.left) (take n buf.new)) }
        ensures end { IfOk result (λ n. n ≡ 0 → IfSome (Some self.new.left) (λ bytes. bytes ≡ [])) }
        ensures failed { OnErr result (Rose (listed_calls self.old.failing self.old.calls)
            (listed_calls self.new.failing self.new.calls)) }
        ensures counted { listed_calls self.old.failing self.old.calls
            ≤ listed_calls self.new.failing self.new.calls }

        // Which calls fail, and what every other call gives.
        ensures answer { result_ok result ≡ read_answer self.old (length buf.old) }
        ensures state { self.new ≡ after_read self.old (length buf.old) }
        ensures buffer { let bytes = read_bytes self.old (length buf.old) in
            buf.new ≡ bytes ++ drop (length bytes) buf.old }
    {
        self.calls = self.calls.saturating_add(1);
        if is_failing(self.failing.as_slice(), self.calls) {
            self.faults = self.faults.saturating_add(1);
            return Err(Failed);
        }
        let left = self.bytes.as_slice().split_at(self.at).1;
        let n = buf.len().min(left.len());
        buf[..n].copy_from_slice(left.split_at(n).0);
        self.at += n;
        Ok(n)
    }
}
