//! `arrange`: one order of all events, or the cycle that leaves none.
ghost use Rattle.std.specs.Prelude.{◌≡◌, ◌+◌, ◌≤◌, length, IfOk};
ghost use Rattle.interleavings.specs.TraceLists.{TraceLists};
ghost use Rattle.linkage.specs.Links.{IsLinked};
ghost use Rattle.event_order.specs.Answers.{IsAnswer, most_looks};
ghost use Rattle.event_order.specs.Backs.{AllRemain, IsBackOf, Remains};
ghost use Rattle.event_order.specs.Cycles.{IsRoundFrom};
ghost use Rattle.event_order.specs.Deeds.{AreDeedsOf};
ghost use Rattle.event_order.specs.DirectOrder.{LinkRows};
ghost use Rattle.event_order.specs.Fronts.{done_of};

use crate::backs::{find_firsts, first_left};
use crate::deeds::Deeds;
use crate::extending::extend;
use crate::order_error::OrderError;
use crate::turning::turned;
use crate::walking::walk_back;
use interleavings::{Place, Traces};
use linkage::Links;
use std::alloc::Global;
use std::sync::ledger::Ledger;
use stride_base::{List, NoMemory, Steps};

// The cycle into which steps back lead from the first event that doesn't stand.
fn cycle_from(
    alloc: Global,
    deeds: &Deeds,
    done: &[u32],
    first: Place,
) -> Result<List<Place>, NoMemory>
    requires threads { length done.now ≡ length deeds.now }
    requires first { Remains deeds.now (done_of done.now) first }
    requires all { AllRemain deeds.now (done_of done.now) }
    ensures { IfOk result (λ cycle. IsRoundFrom (IsBackOf deeds.now (done_of done.now)) first cycle.items) }
{
    let firsts = find_firsts(alloc, deeds, done)?;
    let walk = walk_back(alloc, deeds, done, &firsts, first)?;
    turned(alloc, &walk.met[walk.again..])
}

fn arrange_deeds(alloc: Global, deeds: &Deeds) -> Result<List<u8>, OrderError>
    ensures { (traces : TraceLists) (links : LinkRows) → AreDeedsOf traces links deeds.now → IsAnswer traces links result }
{
    let extended = extend(alloc, deeds)?;
    match first_left(deeds, &extended.done) {
        Some(first) => Err(OrderError::Cycle {
            places: cycle_from(alloc, deeds, &extended.done, first)?,
        }),
        None => Ok(extended.order),
    }
}

/// The thread numbers of all events in the order that agrees with the direct order and is least in dictionary order; or the
/// cycle of the direct order into which steps back lead from its least event.
pub fn arrange<L: Ledger>(
    alloc: Global,
    traces: &Traces,
    links: &Links,
    steps: &mut Steps<L>,
) -> Result<List<u8>, OrderError>
    requires linked { IsLinked traces.now links.now }
    ensures answer { IsAnswer traces.now links.now result }
    ensures looks { steps.new ≤ steps.old + most_looks traces.now }
{
    let deeds = Deeds::of(alloc, traces, links, steps)?;
    arrange_deeds(alloc, &deeds)
}

/// The same, where the events and their links are not wanted afterwards: they are let go before the order is looked for, since
/// both want much memory.
pub fn arrange_owned<L: Ledger>(
    alloc: Global,
    traces: Traces,
    links: Links,
    steps: &mut Steps<L>,
) -> Result<List<u8>, OrderError>
    requires linked { IsLinked traces links }
    ensures answer { IsAnswer traces links result }
    ensures looks { steps.new ≤ steps.old + most_looks traces }
{
    let deeds = Deeds::of(alloc, &traces, &links, steps)?;
    drop(links);
    drop(traces);
    arrange_deeds(alloc, &deeds)
}
