//! The walk along steps back, until an event is met again.
ghost use Rattle.std.specs.Prelude.{◌≡◌, length, IfOk};
ghost use Rattle.event_order.specs.Backs.{AllRemain, AreFirsts, IsBackOf, Remains};
ghost use Rattle.event_order.specs.Following.{IsWalked};
ghost use Rattle.event_order.specs.Fronts.{done_of};
ghost use Rattle.event_order.specs.Tables.{entry, rows_of};

use crate::backs::step_back;
use crate::deeds::Deeds;
use crate::slot::Slot;
use crate::table::Table;
use interleavings::Place;
use std::alloc::Global;
use stride_base::NoMemory;

/// The events that a walk met, and the number of the one that it met again.
#[derive(Drop)]
pub(crate) struct Walk {
    pub(crate) met: Vec<Place>,
    pub(crate) again: usize,
}

fn mark_of(at: Place) -> Slot
    ensures row { result.row ≡ at.thread }
    ensures number { result.number ≡ at.place }
{
    Slot {
        row: at.thread,
        number: at.place,
    }
}

/// Walks from the first event along steps back, until an event is met again.
pub(crate) fn walk_back(
    alloc: Global,
    deeds: &Deeds,
    done: &[u32],
    firsts: &Table<Place>,
    first: Place,
) -> Result<Walk, NoMemory>
    requires threads { length done.now ≡ length deeds.now }
    requires firsts { AreFirsts deeds.now (done_of done.now) (entry (rows_of firsts.now.rows.items)) }
    requires first { Remains deeds.now (done_of done.now) first }
    requires all { AllRemain deeds.now (done_of done.now) }
    ensures { IfOk result (λ walk. IsWalked (IsBackOf deeds.now (done_of done.now)) first walk.met.items walk.again) }
{
    let mut marks = Table::new(alloc);
    let mut met = Vec::new(alloc);
    let mut at = first;
    loop {
        let mark = mark_of(at);
        if let Some(again) = marks.get(mark) {
            return Ok(Walk { met, again });
        }
        marks.put(alloc, mark, met.len())?;
        met.push(at)?;
        at = step_back(deeds, done, firsts, at).unwrap();
    }
}
