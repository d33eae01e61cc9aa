//! `ThreadSet`: a set of threads.
ghost use Rattle.std.specs.Prelude.{◌≡◌, ◌≢◌, ℕ, ◌<◌};
ghost use Rattle.event_order.specs.ThreadSets.{Has, IsLeastIn, everyone};

use stride_isa::limits::THREAD_LIMIT;

/// A set of threads.
#[derive(Clone, Copy)]
pub(crate) struct ThreadSet {
    // One bit for each thread that a program can have.
    bits: u16,
}

// There are as many as there are numbers in the rows of slots.
const _: () = prove!(size_of::<ThreadSet>() == 2);

impl ThreadSet {
    pub(crate) fn none() -> ThreadSet
        ensures { (thread : ℕ) → Has result thread → ⊥ }
    {
        ThreadSet { bits: 0 }
    }

    /// The set of each thread that a program can have.
    pub(crate) fn all() -> ThreadSet
        ensures { result ≡ everyone }
    {
        ThreadSet { bits: u16::MAX }
    }

    pub(crate) fn with(self, thread: u32) -> ThreadSet
        requires { thread < THREAD_LIMIT }
        ensures here { Has result thread }
        ensures kept { (other : ℕ) → Has self other → Has result other }
        ensures only { (other : ℕ) → Has result other → other ≢ thread → Has self other }
    {
        ThreadSet {
            bits: self.bits | (1 << thread),
        }
    }

    pub(crate) fn without(self, thread: u32) -> ThreadSet
        requires { thread < THREAD_LIMIT }
        ensures gone { Has result thread → ⊥ }
        ensures kept { (other : ℕ) → Has self other → other ≢ thread → Has result other }
        ensures only { (other : ℕ) → Has result other → Has self other }
        ensures less { Has self thread → result.bits < self.bits }
    {
        ThreadSet {
            bits: self.bits & !(1 << thread),
        }
    }

    /// The least thread of the set.
    pub(crate) fn first(&self) -> Option<u32>
        ensures { IsLeastIn self.now result }
    {
        let bits = self.bits;
        if bits == 0 {
            None
        } else {
            Some(bits.trailing_zeros())
        }
    }
}
