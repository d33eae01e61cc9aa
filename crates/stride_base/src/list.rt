//! `List`: a growing list that knows how much room it has reserved.
ghost use Rattle.std.specs.Prelude.{◌≡◌, ◌+◌, ◌^◌, ◌<◌, ◌≤◌, ◌↔◌, [], ◌∷◌, ◌++◌, length, take, IsTrue, IsOk, IsPermutation, IsSorted, OnOk, OnErr, Some, slice_get, slice_index_or};
ghost use Rattle.std.specs.Borrow.{sem};

use crate::no_memory::NoMemory;
use std::alloc::Global;
use std::marker::Model;

/// A growing list. It is seen as its items, in order, beside a number `spare` of items that can be
/// added without memory.
#[derive(Drop)]
pub struct List<T> {
    items: Vec<T>,
    // The vector's capacity is at least its length and this number.
    spare: usize,
}

impl<T> Model for List<T> {
    ghost use Rattle.std.specs.Prelude.{◌+◌, ◌≤◌, vec_len, vec_capacity};
    ghost use Rattle.stride_base.specs.Listed.{Listed, listed_code};

    ghost Value = { Listed T };

    ghost coded = { listed_code T.code };

    ghost view = { λ list. record { items = list.items.items; spare = list.spare } };

    ghost invariant = { λ list. vec_len list.items + list.spare ≤ vec_capacity list.items };
}

impl<T> List<T> {
    ghost use Rattle.stride_base.specs.ListLends.{LendsItem};

    /// The empty list. It takes no memory.
    pub fn new(alloc: Global) -> List<T>
        ensures items { result.items ≡ [] }
        ensures spare { result.spare ≡ 0 }
    {
        List {
            items: Vec::new(alloc),
            spare: 0,
        }
    }

    /// Makes room for at least `n` more items.
    pub fn reserve(&mut self, n: usize) -> Result<(), NoMemory>
        ensures items { self.new.items ≡ self.old.items }
        ensures room { OnOk result (n ≤ self.new.spare) }
        ensures kept { self.old.spare ≤ self.new.spare }
        ensures succeeds { n ≤ self.old.spare → IsOk result }
        ensures err { OnErr result (self.new ≡ self.old) }
    {
        if n > self.spare {
            self.items.reserve(n)?;
            self.spare = self.items.capacity() - self.items.len();
        }
        Ok(())
    }

    /// Appends `item`, and asks for memory only where no room is left.
    pub fn push(&mut self, item: T) -> Result<(), NoMemory>
    where
        T: Drop,
        ensures items { OnOk result (self.new.items ≡ self.old.items ++ item ∷ []) }
        ensures spare { OnOk result (self.old.spare ≤ self.new.spare + 1) }
        ensures succeeds { 0 < self.old.spare → IsOk result }
        ensures err { OnErr result (self.new ≡ self.old) }
    {
        self.reserve(1)?;
        self.push_spare(item);
        Ok(())
    }

    /// Appends `item` into reserved room. It takes no memory.
    pub fn push_spare(&mut self, item: T)
        requires { 0 < self.old.spare }
        ensures items { self.new.items ≡ self.old.items ++ item ∷ [] }
        ensures spare { self.new.spare + 1 ≡ self.old.spare }
    {
        self.items.push_reserved(item);
        self.spare -= 1;
    }

    /// How many items there are.
    pub fn len(&self) -> usize
        ensures len { result ≡ length self.now.items }
        ensures fits { result + self.now.spare < 2 ^ 63 }
    {
        self.items.len()
    }

    /// Whether there is no item.
    pub fn is_empty(&self) -> bool
        ensures { IsTrue result ↔ (self.now.items ≡ []) }
    {
        self.items.is_empty()
    }

    /// The item at `i`, counted from 0.
    pub fn get(&self, i: usize) -> &T
        requires { i < length self.now.items }
        ensures item { slice_get self.now.items i ≡ Some result.now }
        ensures read { result.now ≡ slice_index_or self.now.items i result.now }
    {
        &self.items[i]
    }

    /// The item at `i`, counted from 0, for writing.
    pub fn get_mut(&mut self, i: usize) -> &mut T
        requires { i < length self.old.items }
        ensures* writes_back { sem 𝓛 (LendsItem T.row self.entry i result) }
        ensures item { slice_get self.old.items i ≡ Some result.now }
    {
        &mut self.items[i]
    }

    /// Lets go of the items after the first `len`, whose room becomes spare. It takes no memory.
    pub fn cut(&mut self, len: usize)
    where
        T: Drop,
        requires { len ≤ length self.old.items }
        ensures items { self.new.items ≡ take len self.old.items }
        ensures spare { self.new.spare + len ≡ self.old.spare + length self.old.items }
    {
        self.spare += self.items.len() - len;
        self.items.truncate(len);
    }

    /// The items, in order.
    pub fn as_slice(&self) -> &[T]
        ensures { result.now ≡ self.now.items }
    {
        self.items.as_slice()
    }
}

impl<T: Copy> List<T> {
    /// Appends all of `piece`, and asks for memory only where the room left is less.
    pub fn push_all(&mut self, piece: &[T]) -> Result<(), NoMemory>
        ensures items { OnOk result (self.new.items ≡ self.old.items ++ piece.now) }
        ensures spare { OnOk result (self.old.spare ≤ self.new.spare + length piece.now) }
        ensures succeeds { length piece.now ≤ self.old.spare → IsOk result }
        ensures err { OnErr result (self.new ≡ self.old) }
    {
        self.reserve(piece.len())?;
        self.push_all_spare(piece);
        Ok(())
    }

    /// Appends all of `piece` into reserved room. It takes no memory.
    pub fn push_all_spare(&mut self, piece: &[T])
        requires { length piece.now ≤ self.old.spare }
        ensures items { self.new.items ≡ self.old.items ++ piece.now }
        ensures spare { self.new.spare + length piece.now ≡ self.old.spare }
    {
        self.items.extend_from_slice(piece).unwrap();
        self.spare -= piece.len();
    }
}

impl<T: Ord> List<T> {
    /// Sorts the items. It takes no memory.
    pub(crate) fn sort_unstable(&mut self)
        ensures permutation { IsPermutation self.old.items self.new.items }
        ensures sorted { IsSorted T.cmp self.new.items }
        ensures spare { self.new.spare ≡ self.old.spare }
    {
        self.items.sort_unstable();
    }
}
