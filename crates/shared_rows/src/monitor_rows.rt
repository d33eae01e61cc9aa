//! Single steps of monitors, in orders made by hand.
use crate::walker::Hall;
use interleavings::OddLooks;
use std::test::Fail;

fn row(mon: u32, count: u32) -> Option<OddLooks> {
    Some(OddLooks { mon, count })
}

// Two look, and one enters.
#[test]
fn an_entry_fails_where_another_came_first(rt: HostRuntime) -> Result<(), Fail> {
    let (hall, mut first) = Hall::prepare(&rt, rt.alloc(), &[], 1)?;
    let mut a = first.split(&rt, &hall);
    let mut b = first.split(&rt, &hall);
    assert_eq!(rt; a.draw(&rt, &hall), 0);
    assert_eq!(rt; b.draw(&rt, &hall), 1);
    assert_eq!(rt; a.look(&rt, &hall, 0), Some(0));
    assert_eq!(rt; b.look(&rt, &hall, 0), Some(0));
    assert_eq!(rt; b.try_enter(&rt, &hall, 0, 0), Some(1));
    assert_eq!(rt; a.try_enter(&rt, &hall, 0, 0), None);
    assert_eq!(rt; a.looks, None);
    assert_eq!(rt; a.look(&rt, &hall, 0), None);
    assert_eq!(rt; a.looks, row(0, 1));
    b.leave(&rt, &hall, 0, 1);
    assert_eq!(rt; a.look(&rt, &hall, 0), Some(1));
    assert_eq!(rt; a.looks, None);
    assert_eq!(rt; a.try_enter(&rt, &hall, 0, 1), Some(2));
    assert_eq!(rt; b.look(&rt, &hall, 0), None);
    a.leave(&rt, &hall, 0, 2);
    assert_eq!(rt; b.look(&rt, &hall, 0), Some(2));
    assert_eq!(rt; b.try_enter(&rt, &hall, 0, 2), Some(3));
    b.leave(&rt, &hall, 0, 3);
    first.gather(&rt, &hall, a);
    first.gather(&rt, &hall, b);
    assert_eq!(rt; hall.close(first).drawn(), 2);
    Ok(())
}

// Each of two holds a monitor, and a third looks at both in turn. A monitor of another number is not theirs.
#[test]
fn monitors_are_found_held(rt: HostRuntime) -> Result<(), Fail> {
    let (hall, mut first) = Hall::prepare(&rt, rt.alloc(), &[1], 64)?;
    let mut a = first.split(&rt, &hall);
    let mut b = first.split(&rt, &hall);
    let mut c = first.split(&rt, &hall);
    assert_eq!(rt; a.draw(&rt, &hall), 0);
    assert_eq!(rt; b.draw(&rt, &hall), 1);
    assert_eq!(rt; c.draw(&rt, &hall), 2);
    assert_eq!(rt; a.look(&rt, &hall, 0), Some(0));
    assert_eq!(rt; a.try_enter(&rt, &hall, 0, 0), Some(1));
    assert_eq!(rt; b.look(&rt, &hall, 63), Some(0));
    assert_eq!(rt; b.try_enter(&rt, &hall, 63, 0), Some(1));
    for (mon, looks) in [
        (0, row(0, 1)),
        (0, row(0, 2)),
        (63, row(63, 1)),
        (0, row(0, 1)),
    ] {
        assert_eq!(rt; c.look(&rt, &hall, mon), None);
        assert_eq!(rt; c.looks, looks, "at monitor {mon}");
    }
    assert_eq!(rt; c.look(&rt, &hall, 62), Some(0));
    assert_eq!(rt; c.looks, None);
    assert_eq!(rt; c.try_enter(&rt, &hall, 62, 0), Some(1));
    c.leave(&rt, &hall, 62, 1);
    b.leave(&rt, &hall, 63, 1);
    assert_eq!(rt; c.look(&rt, &hall, 0), None);
    assert_eq!(rt; c.look(&rt, &hall, 63), Some(1));
    assert_eq!(rt; c.try_enter(&rt, &hall, 63, 1), Some(2));
    // The one who holds a monitor finds it held too.
    assert_eq!(rt; c.look(&rt, &hall, 63), None);
    c.leave(&rt, &hall, 63, 2);
    assert_eq!(rt; c.looks, row(63, 1));
    a.leave(&rt, &hall, 0, 1);
    // Monitors and cells have nothing in common.
    assert_eq!(rt; a.see(&rt, &hall, 0), Some(0));
    first.gather(&rt, &hall, b);
    assert!(rt; a.try_claim(&rt, &hall, 0, 0));
    a.store_value(&rt, &hall, 0, 2);
    a.complete(&rt, &hall, 0, 0);
    first.gather(&rt, &hall, c);
    first.gather(&rt, &hall, a);
    let closed = hall.close(first);
    assert_eq!(rt; closed.drawn(), 3);
    assert_eq!(rt; (closed.value(&rt, 0), closed.number(&rt, 0)), (2, 2));
    Ok(())
}
