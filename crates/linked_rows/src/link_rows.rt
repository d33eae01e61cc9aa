//! What reads are linked to.
use crate::setting::{entered, left, outcome_of, seen, updated, written};
use interleavings::Event;
use std::alloc::{AllocError, Global};
use std::test::Fail;

/// Events of two threads, and the links of the second.
struct Row<'a> {
    first: &'a [Event],
    second: &'a [Event],
    links: &'a [Option<u32>],
}

const ROWS: &[Row<'static>] = &[
    Row {
        first: &[],
        second: &[],
        links: &[],
    },
    // Equal values at several numbers: the greatest within the bound.
    Row {
        first: &[written!(0, 7, 1), written!(0, 5, 2), written!(0, 7, 3)],
        second: &[
            seen!(0, 7, 3),
            seen!(0, 7, 2),
            seen!(0, 5, 3),
            seen!(0, 5, 1),
            seen!(1, 6, 0),
        ],
        links: &[Some(3), Some(1), Some(2), Some(0), Some(0)],
    },
    // An update between: it is a write of its new value, and is linked to none itself.
    Row {
        first: &[written!(0, 7, 1), written!(0, 7, 3)],
        second: &[
            updated!(0, 7, 8, 2),
            seen!(0, 8, 3),
            seen!(0, 7, 2),
            written!(1, 0, 1),
        ],
        links: &[None, Some(2), Some(1), None],
    },
    // A turn that was left and not entered, and one that was left twice, are no gap.
    Row {
        first: &[entered!(0, 1), left!(0, 1), left!(0, 1), left!(1, 7)],
        second: &[entered!(0, 2), seen!(0, 5, 0), left!(0, 2)],
        links: &[None, Some(0), None],
    },
];

#[test]
fn reads_are_linked(rt: HostRuntime) -> Result<(), Fail> {
    for row in ROWS {
        match outcome_of(&rt, rt.alloc(), &[row.first, row.second])? {
            Ok(links) => assert!(rt; links.get(1).map(|row| row.as_slice()) == Some(row.links)),
            Err(_) => return Err("refused")?,
        }
    }
    Ok(())
}

// So many writes of a variable, all of value 8 but one of value 9.
fn mostly_eights(alloc: Global, count: u32, nine: u32) -> Result<Vec<Event>, AllocError> {
    let mut events = Vec::new(alloc);
    for below in 0..count {
        let value = if below + 1 == nine { 9 } else { 8 };
        events.push(written!(0, value, below + 1))?;
    }
    Ok(events)
}

// Reads at each side of what is looked at before the index is: the write at the bound and eight below.
#[test]
fn far_reads_are_linked_too(rt: HostRuntime) -> Result<(), Fail> {
    let writes = mostly_eights(rt.alloc(), 40, 20)?;
    let reads = [
        seen!(0, 9, 20),
        seen!(0, 9, 28),
        seen!(0, 9, 29),
        seen!(0, 9, 40),
        seen!(0, 5, 8),
        seen!(0, 5, 9),
        seen!(0, 5, 40),
        seen!(0, 8, 40),
        seen!(0, 8, 20),
    ];
    let wanted = [20, 20, 20, 20, 0, 0, 0, 40, 19].map(Some);
    match outcome_of(&rt, rt.alloc(), &[writes.as_slice(), reads.as_slice()])? {
        Ok(links) => assert!(rt; links.get(1).map(|row| row.as_slice()) == Some(wanted.as_slice())),
        Err(_) => return Err("refused")?,
    }
    let unequal = [seen!(0, 9, 40), seen!(0, 9, 19), seen!(0, 7, 40)];
    let outcome = outcome_of(&rt, rt.alloc(), &[writes.as_slice(), unequal.as_slice()])?;
    assert!(rt; outcome.is_err());
    Ok(())
}
