//! `Change`: what an atomic update stores.
ghost use Rattle.std.specs.Prelude.{◌≡◌};
ghost use Rattle.stride_isa.specs.Changes.{applied as value_after};

/// How an atomic update changes the value of a variable.
#[derive(Clone, Copy, Debug, PartialEq, Eq)]
pub enum Change {
    /// Stores this word.
    Store(u64),
    /// Adds this word, wrapping.
    Plus(u64),
    /// Stores `new` where the old value is `expected`, and else the old value again.
    IfEqual { expected: u64, new: u64 },
}

impl Change {
    /// The value that is stored where this one was met.
    pub fn applied(&self, old: u64) -> u64
        ensures { result ≡ value_after self.now old }
    {
        match *self {
            Change::Store(word) => word,
            Change::Plus(word) => old.wrapping_add(word),
            Change::IfEqual { expected, new } => if old == expected { new } else { old },
        }
    }
}
