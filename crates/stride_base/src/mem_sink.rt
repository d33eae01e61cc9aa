//! `MemSink`: a sink that holds its bytes in memory.
ghost use Rattle.std.specs.Prelude.{◌≡◌, ◌<◌, ◌≤◌, [], length, take, Some, IfOk, OnErr};
ghost use Rattle.std.specs.Result.{result_ok};
ghost use Rattle.stride_base.specs.Devices.{Adds, Rose};
ghost use Rattle.stride_base.specs.MemoryDevices.{put_answer, after_put};

use crate::failed::Failed;
use crate::failing_calls::is_failing;
use crate::list::List;
use crate::no_memory::NoMemory;
use crate::sink::Sink;
use std::alloc::Global;
use std::marker::Model;

/// A sink that holds its bytes in memory, up to a fixed number. Its calls with listed numbers fail,
/// and so do those made once it is full.
#[derive(Drop)]
pub struct MemSink {
    held: List<u8>,
    per_call: usize,
    room: usize,
    failing: List<u32>,
    calls: u64,
    faults: u64,
}

impl Model for MemSink {
    ghost use Rattle.stride_base.specs.MemoryDevices.{MemorySink};

    ghost Value = { MemorySink };

    ghost use Rattle.stride_base.specs.MemSinkInside.{IsReserved};

    ghost view = { λ s. record {
      held = s.held.items;
      per_call = s.per_call;
      room = s.room;
      failing = s.failing.items;
      calls = s.calls;
      faults = s.faults;
    } };

    ghost invariant = { IsReserved };
}

impl MemSink {
    /// An empty sink with room for `room` bytes, which are reserved here. A call takes at most
    /// `per_call` bytes, and those with the numbers in `failing`, counted from 1, fail.
    pub fn new(
        alloc: Global,
        per_call: usize,
        room: usize,
        failing: &[u32],
    ) -> Result<MemSink, NoMemory>
        requires { 0 < per_call }
        ensures { IfOk result (λ s. s ≡ record {
          held = [];
          per_call = per_call;
          room = room;
          failing = failing.now;
          calls = 0;
          faults = 0;
        }) }
    {
        let mut held = List::new(alloc);
        held.reserve(room)?;
        let mut own_failing = List::new(alloc);
        own_failing.push_all(failing)?;
        Ok(MemSink {
            held,
            per_call,
            room,
            failing: own_failing,
            calls: 0,
            faults: 0,
        })
    }

    /// The bytes that are held.
    pub fn bytes(&self) -> &[u8]
        ensures { result.now ≡ self.now.held }
    {
        self.held.as_slice()
    }

    /// How many calls failed so far, up to the last value.
    pub fn faults(&self) -> u64
        ensures { result ≡ self.now.faults }
    {
        self.faults
    }
}

impl Sink for MemSink {
    ghost use Rattle.std.specs.Prelude.{Some};

    ghost held = { λ s. Some s.held };

    ghost faults = { λ s. s.faults };

    fn put(&mut self, piece: &[u8]) -> Result<usize, Failed>
        requires { 0 < length piece.now }
        ensures some { IfOk result (λ n. 0 < n) }
        ensures within { IfOk result (λ n. n ≤ length piece.now) }
        ensures added { IfOk result (λ n. Adds (Some self.old.held) (Some self.new.held) (take n piece.now)) }
        ensures kept { OnErr result (Some self.new.held ≡ Some self.old.held) }
        ensures failed { OnErr result (Rose self.old.faults self.new.faults) }
        ensures counted { self.old.faults ≤ self.new.faults }

        // Which calls fail, and what every other call takes.
        ensures answer { result_ok result ≡ put_answer self.old piece.now }
        ensures state { self.new ≡ after_put self.old piece.now }
    {
        self.calls = self.calls.saturating_add(1);
        let left = self.room - self.held.len();
        if is_failing(self.failing.as_slice(), self.calls) || left == 0 {
            self.faults = self.faults.saturating_add(1);
            return Err(Failed);
        }
        let n = self.per_call.min(piece.len()).min(left);
        self.held.push_all_spare(piece.split_at(n).0);
        Ok(n)
    }
}
