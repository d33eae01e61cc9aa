//! `Names`: where each of some names stands.
ghost use Rattle.std.specs.Prelude.{◌≡◌, ℕ, List, None, Some, OnOk, if◌then◌else◌};
ghost use Rattle.std.specs.Map.{update};
ghost use Rattle.std.specs.Str.{bytes_eq};
ghost use Rattle.assembler.specs.Naming.{position_of};
ghost use Rattle.assembler.specs.Programs.{or_else};

use std::alloc::Global;
use std::collections::BTreeMap;
use stride_base::NoMemory;

/// The position of each name, which is a piece of the text.
#[derive(Drop)]
pub(crate) struct Names<'a> {
    positions: BTreeMap<&'a [u8], u32>,
}

impl<'a> Names<'a> {
    /// No names. It takes no memory.
    pub(crate) fn new(alloc: Global) -> Names<'a>
        ensures { (name : List ℕ) → position_of result name ≡ None }
    {
        Names {
            positions: BTreeMap::new(alloc),
        }
    }

    /// The position of this name.
    pub(crate) fn position(&self, name: &[u8]) -> Option<u32>
        ensures { result ≡ position_of self.now name.now }
    {
        self.positions.get(name).copied()
    }

    /// Keeps the position of a name, in place of one that is kept for it.
    pub(crate) fn insert(&mut self, name: &'a [u8], position: u32) -> Result<(), NoMemory>
        ensures { OnOk result ((other : List ℕ) →
            position_of self.new other ≡ update bytes_eq (position_of self.old) name.now (Some position) other) }
    {
        self.positions.insert(name, position)?;
        Ok(())
    }

    /// Keeps the position of a name for which none is kept.
    pub(crate) fn keep_first(&mut self, name: &'a [u8], position: u32) -> Result<(), NoMemory>
        ensures { OnOk result ((other : List ℕ) →
            position_of self.new other ≡ or_else (position_of self.old other) (if bytes_eq name.now other then Some position else None)) }
    {
        if self.position(name).is_none() {
            self.insert(name, position)?;
        }
        Ok(())
    }
}
