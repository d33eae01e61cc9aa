//! `Ascending`: a sorted list of triples whose members are looked at one by one, and counted.
ghost use Rattle.std.specs.Prelude.{◌≡◌, ◌+◌, ◌^◌, ◌<◌, length, Some, IsPermutation, slice_get, slice_index_or};
ghost use Rattle.stride_base.specs.Ascending.{IsAscending, AreDistinct, HaveSameMembers};

use crate::list::List;
use crate::steps::Steps;
use std::marker::Model;
use std::sync::ledger::Ledger;

/// A list of triples that ascends strictly in dictionary order. It is seen as that list.
#[derive(Drop)]
pub struct Ascending {
    triples: List<(u32, u64, u32)>,
}

impl Model for Ascending {
    ghost use Rattle.std.specs.Prelude.{List as Triples};
    ghost use Rattle.stride_base.specs.Ascending.{Triple, IsAscending};

    ghost Value = { Triples Triple };

    ghost view = { λ index. index.triples.items };

    ghost invariant = { λ index. IsAscending index.triples.items };
}

impl Ascending {
    /// The same triples in order. It takes no memory.
    pub fn sorted(items: List<(u32, u64, u32)>) -> Ascending
        requires { AreDistinct items.items }
        ensures permutation { IsPermutation items.items result }
        ensures members { HaveSameMembers items.items result }
        ensures len { length result ≡ length items.items }
        ensures ascending { IsAscending result }
    {
        let mut triples = items;
        triples.sort_unstable();
        Ascending { triples }
    }

    /// How many triples there are.
    pub fn len(&self) -> usize
        ensures len { result ≡ length self.now }
        ensures fits { result < 2 ^ 63 }
        ensures ascending { IsAscending self.now }
    {
        self.triples.len()
    }

    /// The triple at `i`, counted from 0. It is one step, and no other call gives a triple.
    pub fn at<L: Ledger>(&self, i: usize, steps: &mut Steps<L>) -> (u32, u64, u32)
        requires { i < length self.now }
        ensures item { slice_get self.now i ≡ Some result }
        ensures read { result ≡ slice_index_or self.now i result }
        ensures counted { steps.new ≡ steps.old + 1 }
    {
        steps.tick();
        *self.triples.get(i)
    }
}
