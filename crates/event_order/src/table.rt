//! `Table`: what is kept for slots. `Counts`: how often slots are counted.
ghost use Rattle.std.specs.Prelude.{◌≡◌, ℕ, ◌+◌, ◌<◌, ◌≤◌, ◌↔◌, [], length, slice_index, slice_index_or, IfOk, IsTrue, OnOk, Some as Found};
ghost use Rattle.event_order.specs.Tables.{counted, entry, is_given, rows_of, HasNumber, IsPut};
ghost use Rattle.event_order.specs.declared.slot.Slot.{Slot};

use crate::slot::Slot;
use std::alloc::Global;
use stride_base::NoMemory;

/// What is kept for slots. A row takes memory up to the greatest of its numbers for which something is kept.
#[derive(Drop)]
pub(crate) struct Table<T> {
    pub(crate) rows: Vec<Vec<Option<T>>>,
}

impl<T: Copy> Table<T> {
    /// A table that keeps nothing. It takes no memory.
    pub(crate) fn new(alloc: Global) -> Table<T>
        ensures { result.rows.items ≡ [] }
    {
        Table {
            rows: Vec::new(alloc),
        }
    }

    /// What is kept for a slot.
    pub(crate) fn get(&self, slot: Slot) -> Option<T>
        ensures { result ≡ entry (rows_of self.now.rows.items) slot }
    {
        let row = self.rows.get(slot.row as usize)?;
        *row.get(slot.number as usize)?
    }

    fn add_rows(&mut self, alloc: Global, row: u32) -> Result<(), NoMemory>
        ensures there { OnOk result (row < length self.new.rows.items) }
        ensures same { (slot : Slot) → entry (rows_of self.new.rows.items) slot ≡ entry (rows_of self.old.rows.items) slot }
    {
        while self.rows.len() <= row as usize {
            self.rows.push(Vec::new(alloc))?;
        }
        Ok(())
    }

    fn add_numbers(row: &mut Vec<Option<T>>, number: u32) -> Result<(), NoMemory>
        ensures there { OnOk result (number < length row.new.items) }
        ensures same { (i : ℕ) → slice_index_or row.new.items i None ≡ slice_index_or row.old.items i None }
    {
        while row.len() <= number as usize {
            row.push(None)?;
        }
        Ok(())
    }

    /// Keeps a value for a slot, in place of what was kept.
    pub(crate) fn put(&mut self, alloc: Global, slot: Slot, value: T) -> Result<(), NoMemory>
        ensures { OnOk result (IsPut (entry (rows_of self.old.rows.items)) slot value (entry (rows_of self.new.rows.items))) }
    {
        self.add_rows(alloc, slot.row)?;
        let row = &mut self.rows[slot.row as usize];
        Self::add_numbers(row, slot.number)?;
        row[slot.number as usize] = Some(value);
        Ok(())
    }
}

/// How often slots are counted. A row takes memory up to the greatest of its numbers that was ever counted.
#[derive(Drop)]
pub(crate) struct Counts {
    pub(crate) rows: Vec<Vec<u32>>,
}

impl Counts {
    /// No slot is counted, and there is room for so many numbers of each row.
    pub(crate) fn with_room(alloc: Global, lengths: &[u32]) -> Result<Counts, NoMemory>
        ensures { IfOk result (λ counts. (slot : Slot) → counted (rows_of counts.rows.items) slot ≡ 0) }
    {
        let mut rows = Vec::with_capacity(alloc, lengths.len())?;
        for length in lengths {
            rows.push(vec![in alloc; 0; *length as usize]?)?;
        }
        Ok(Counts { rows })
    }

    /// How often a slot is counted.
    pub(crate) fn of(&self, slot: Slot) -> u32
        ensures { result ≡ counted (rows_of self.now.rows.items) slot }
    {
        match self.rows.get(slot.row as usize) {
            Some(row) => row.get(slot.number as usize).copied().unwrap_or(0),
            None => 0,
        }
    }

    fn add_rows(&mut self, alloc: Global, row: u32) -> Result<(), NoMemory>
        ensures there { OnOk result (row < length self.new.rows.items) }
        ensures same { (slot : Slot) → counted (rows_of self.new.rows.items) slot ≡ counted (rows_of self.old.rows.items) slot }
    {
        while self.rows.len() <= row as usize {
            self.rows.push(Vec::new(alloc))?;
        }
        Ok(())
    }

    fn add_numbers(row: &mut Vec<u32>, number: u32) -> Result<(), NoMemory>
        ensures there { OnOk result (number < length row.new.items) }
        ensures same { (i : ℕ) → slice_index row.new.items i ≡ slice_index row.old.items i }
    {
        while row.len() <= number as usize {
            row.push(0)?;
        }
        Ok(())
    }

    fn has_number(&self, slot: Slot) -> bool
        ensures { IsTrue result ↔ HasNumber (rows_of self.now.rows.items) slot }
    {
        match self.rows.get(slot.row as usize) {
            Some(row) => (slot.number as usize) < row.len(),
            None => false,
        }
    }

    #[cold]
    fn grow(&mut self, alloc: Global, slot: Slot) -> Result<(), NoMemory>
        ensures there { OnOk result (HasNumber (rows_of self.new.rows.items) slot) }
        ensures same { (at : Slot) → counted (rows_of self.new.rows.items) at ≡ counted (rows_of self.old.rows.items) at }
    {
        self.add_rows(alloc, slot.row)?;
        let row = &mut self.rows[slot.row as usize];
        Self::add_numbers(row, slot.number)?;
        Ok(())
    }

    // Grows only where the number is not there yet. Mostly it is, by the room that was made at first.
    #[inline(always)]
    fn make_number(&mut self, alloc: Global, slot: Slot) -> Result<(), NoMemory>
        ensures there { OnOk result (HasNumber (rows_of self.new.rows.items) slot) }
        ensures same { (at : Slot) → counted (rows_of self.new.rows.items) at ≡ counted (rows_of self.old.rows.items) at }
    {
        if self.has_number(slot) {
            Ok(())
        } else {
            self.grow(alloc, slot)
        }
    }

    /// Counts a slot once more, if there is one.
    pub(crate) fn raise(&mut self, alloc: Global, slot: Option<Slot>) -> Result<(), NoMemory>
        requires { (at : Slot) → slot ≡ Found at → counted (rows_of self.old.rows.items) at < u32.MAX }
        ensures { OnOk result ((at : Slot) → counted (rows_of self.new.rows.items) at ≡ counted (rows_of self.old.rows.items) at + is_given slot at) }
    {
        if let Some(slot) = slot {
            self.make_number(alloc, slot)?;
            let row = &mut self.rows[slot.row as usize];
            let count = row[slot.number as usize] + 1;
            row[slot.number as usize] = count;
        }
        Ok(())
    }

    /// Counts a slot once less, if there is one. The answer is that slot where it is counted no more.
    pub(crate) fn lower(&mut self, slot: Option<Slot>) -> Option<Slot>
        requires { (at : Slot) → slot ≡ Found at → 0 < counted (rows_of self.old.rows.items) at }
        ensures counts { (at : Slot) → counted (rows_of self.old.rows.items) at ≡ counted (rows_of self.new.rows.items) at + is_given slot at }
        ensures emptied { (at : Slot) → slot ≡ Found at → counted (rows_of self.new.rows.items) at ≡ 0 → result ≡ Found at }
    {
        let slot = slot?;
        let row = &mut self.rows[slot.row as usize];
        let count = row[slot.number as usize] - 1;
        row[slot.number as usize] = count;
        if count == 0 { Some(slot) } else { None }
    }
}
