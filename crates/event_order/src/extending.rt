//! The least order as far as it goes: the first thread whose next event waits for nothing takes each turn.
ghost use Rattle.std.specs.Prelude.{IfOk};
ghost use Rattle.event_order.specs.Fronts.{IsExtended};

use crate::deeds::Deeds;
use crate::front::Front;
use std::alloc::Global;
use stride_base::{List, NoMemory};

/// An order as far as it goes, and how many events of each thread are in it.
#[derive(Drop)]
pub(crate) struct Extended {
    pub(crate) done: Vec<u32>,
    pub(crate) order: List<u8>,
}

/// Lets the first thread whose next event waits for nothing take a turn, as long as there is one.
pub(crate) fn extend(alloc: Global, deeds: &Deeds) -> Result<Extended, NoMemory>
    ensures extended { IfOk result (λ extended. IsExtended deeds.now extended.done.items extended.order.items) }
{
    let mut front = Front::new(alloc, deeds)?;
    let mut order = List::new(alloc);
    order.reserve(deeds.total())?;
    while let Some(ready) = front.first_ready(deeds) {
        front.stand(deeds, ready);
        order.push_spare(ready.thread as u8);
    }
    Ok(Extended {
        done: front.done,
        order,
    })
}
