//! What is refused, at its edges.
use crate::setting::{entered, left, outcome_of, place, seen, updated, written};
use interleavings::{Event, Place};
use linkage::LinkError;
use std::test::Fail;

/// Events of threads, and what is refused of them.
struct Row<'a> {
    threads: &'a [&'a [Event]],
    error: LinkError,
}

/// Numbers of writes. The starting value is number 0.
const WRITES: &[Row<'static>] = &[
    Row {
        threads: &[
            &[written!(0, 7, 1)],
            &[written!(0, 8, 3)],
            &[written!(0, 9, 4)],
        ],
        error: LinkError::WriteGap { cell: 0, number: 2 },
    },
    Row {
        threads: &[
            &[written!(0, 7, 1)],
            &[written!(0, 8, 1)],
            &[written!(0, 9, 3)],
        ],
        error: LinkError::TwiceWritten { cell: 0, number: 1 },
    },
    Row {
        threads: &[
            &[written!(0, 7, 0)],
            &[written!(0, 8, 1)],
            &[written!(0, 9, 2)],
        ],
        error: LinkError::TwiceWritten { cell: 0, number: 0 },
    },
    // An update is a write.
    Row {
        threads: &[&[written!(1, 7, 1), updated!(1, 7, 7, 1)]],
        error: LinkError::TwiceWritten { cell: 1, number: 1 },
    },
    Row {
        threads: &[&[updated!(1, 6, 7, 2)]],
        error: LinkError::WriteGap { cell: 1, number: 1 },
    },
    Row {
        threads: &[&[updated!(0, 5, 6, 0)]],
        error: LinkError::TwiceWritten { cell: 0, number: 0 },
    },
    // The least of two cells, and the kind before the cell.
    Row {
        threads: &[
            &[written!(1, 7, 1), written!(1, 7, 1)],
            &[written!(0, 8, 2), written!(0, 8, 2)],
        ],
        error: LinkError::TwiceWritten { cell: 0, number: 2 },
    },
    Row {
        threads: &[&[written!(1, 7, 2)], &[written!(0, 8, 4_294_967_295)]],
        error: LinkError::WriteGap { cell: 0, number: 1 },
    },
    Row {
        threads: &[
            &[written!(0, 7, 2)],
            &[written!(1, 8, 1), written!(1, 8, 1)],
        ],
        error: LinkError::TwiceWritten { cell: 1, number: 1 },
    },
    // Numbers before turns.
    Row {
        threads: &[&[entered!(0, 1), entered!(0, 1), written!(0, 7, 2)]],
        error: LinkError::WriteGap { cell: 0, number: 1 },
    },
];

/// Turns of monitors. Turn 0 is entered and left.
const TURNS: &[Row<'static>] = &[
    Row {
        threads: &[
            &[entered!(0, 1), left!(0, 1)],
            &[entered!(0, 1), left!(0, 1)],
        ],
        error: LinkError::TwiceTurned { mon: 0, turn: 1 },
    },
    Row {
        threads: &[
            &[entered!(0, 1), left!(0, 1)],
            &[entered!(0, 3), left!(0, 3)],
        ],
        error: LinkError::TurnGap { mon: 0, turn: 2 },
    },
    Row {
        threads: &[
            &[entered!(0, 0), left!(0, 0)],
            &[entered!(0, 1), left!(0, 1)],
        ],
        error: LinkError::TwiceTurned { mon: 0, turn: 0 },
    },
    Row {
        threads: &[&[entered!(0, 1)], &[entered!(0, 2)]],
        error: LinkError::TurnGap { mon: 0, turn: 1 },
    },
    // The least of two monitors, and the kind before the monitor.
    Row {
        threads: &[
            &[entered!(1, 2)],
            &[entered!(0, 9), left!(0, 1), left!(0, 3)],
        ],
        error: LinkError::TurnGap { mon: 0, turn: 2 },
    },
    Row {
        threads: &[&[entered!(0, 2)], &[entered!(1, 4), entered!(1, 4)]],
        error: LinkError::TwiceTurned { mon: 1, turn: 4 },
    },
    // Turns before reads.
    Row {
        threads: &[&[seen!(0, 5, 1), entered!(1, 2)]],
        error: LinkError::TurnGap { mon: 1, turn: 1 },
    },
];

/// Bounds, values and updates.
const EVENTS: &[Row<'static>] = &[
    Row {
        threads: &[&[], &[seen!(0, 9, 0)]],
        error: LinkError::NoEqualWrite { at: place!(1, 0) },
    },
    Row {
        threads: &[&[seen!(0, 7, 2)], &[written!(0, 7, 1)]],
        error: LinkError::BoundTooLarge { at: place!(0, 0) },
    },
    // The starting value alone, and a later write of another cell.
    Row {
        threads: &[&[seen!(0, 5, 0), seen!(0, 5, 1)]],
        error: LinkError::BoundTooLarge { at: place!(0, 1) },
    },
    Row {
        threads: &[&[written!(1, 5, 1), seen!(0, 5, 1)]],
        error: LinkError::BoundTooLarge { at: place!(0, 1) },
    },
    // The value is that of another cell, or of a write above the bound.
    Row {
        threads: &[&[written!(1, 9, 1), written!(0, 8, 1)], &[seen!(0, 9, 1)]],
        error: LinkError::NoEqualWrite { at: place!(1, 0) },
    },
    Row {
        threads: &[&[written!(0, 8, 1)], &[seen!(0, 8, 0)]],
        error: LinkError::NoEqualWrite { at: place!(1, 0) },
    },
    // The write before an update, judged by its old value.
    Row {
        threads: &[&[updated!(0, 1, 6, 1)], &[updated!(0, 6, 13, 2)]],
        error: LinkError::UpdateMismatch { at: place!(0, 0) },
    },
    Row {
        threads: &[&[written!(0, 7, 1)], &[updated!(0, 5, 7, 2)]],
        error: LinkError::UpdateMismatch { at: place!(1, 0) },
    },
    // The kind before the place.
    Row {
        threads: &[
            &[updated!(0, 1, 6, 1)],
            &[seen!(1, 9, 0)],
            &[seen!(1, 6, 1)],
        ],
        error: LinkError::BoundTooLarge { at: place!(2, 0) },
    },
    Row {
        threads: &[
            &[updated!(0, 1, 6, 1)],
            &[seen!(1, 6, 0)],
            &[seen!(1, 9, 0), seen!(1, 9, 0)],
        ],
        error: LinkError::NoEqualWrite { at: place!(2, 0) },
    },
];

#[test]
fn each_refusal_is_told(rt: HostRuntime) -> Result<(), Fail> {
    for rows in [WRITES, TURNS, EVENTS] {
        for row in rows {
            let outcome = outcome_of(&rt, rt.alloc(), row.threads)?;
            assert!(rt; outcome.err() == Some(row.error));
        }
    }
    Ok(())
}
