//! Single steps of cells, in orders made by hand.
use crate::walker::Hall;
use std::test::Fail;

#[test]
fn two_passes_take_turns(rt: HostRuntime) -> Result<(), Fail> {
    let (hall, mut a) = Hall::prepare(&rt, rt.alloc(), &[5], 0)?;
    let mut b = a.split(&rt, &hall);
    assert_eq!(rt; b.draw(&rt, &hall), 0);
    assert_eq!(rt; b.see(&rt, &hall, 0), Some(0));
    assert!(rt; b.try_claim(&rt, &hall, 0, 0));
    let mut c = a.split(&rt, &hall);
    assert_eq!(rt; c.draw(&rt, &hall), 1);
    assert_eq!(rt; c.see(&rt, &hall, 0), None);
    b.store_value(&rt, &hall, 0, 5);
    b.complete(&rt, &hall, 0, 0);
    assert_eq!(rt; c.see(&rt, &hall, 0), Some(1));
    assert!(rt; c.try_claim(&rt, &hall, 0, 1));
    c.store_value(&rt, &hall, 0, 5);
    c.complete(&rt, &hall, 0, 1);
    a.gather(&rt, &hall, b);
    a.gather(&rt, &hall, c);
    let closed = hall.close(a);
    assert_eq!(rt; closed.drawn(), 2);
    assert_eq!(rt; closed.value(&rt, 0), 5);
    assert_eq!(rt; closed.number(&rt, 0), 4);
    Ok(())
}

#[test]
fn a_read_meets_a_write_that_is_half_done(rt: HostRuntime) -> Result<(), Fail> {
    let (hall, mut first) = Hall::prepare(&rt, rt.alloc(), &[0], 0)?;
    let mut a = first.split(&rt, &hall);
    let mut b = first.split(&rt, &hall);
    assert_eq!(rt; a.draw(&rt, &hall), 0);
    assert_eq!(rt; b.draw(&rt, &hall), 1);
    assert_eq!(rt; b.see(&rt, &hall, 0), Some(0));
    assert!(rt; b.try_claim(&rt, &hall, 0, 0));
    assert_eq!(rt; a.load_value(&rt, &hall, 0), 0);
    assert_eq!(rt; a.load_number(&rt, &hall, 0), None);
    b.store_value(&rt, &hall, 0, 7);
    b.complete(&rt, &hall, 0, 0);
    assert_eq!(rt; a.load_number(&rt, &hall, 0), Some(1));
    first.gather(&rt, &hall, a);
    first.gather(&rt, &hall, b);
    let closed = hall.close(first);
    assert_eq!(rt; closed.drawn(), 2);
    assert_eq!(rt; closed.value(&rt, 0), 7);
    assert_eq!(rt; closed.number(&rt, 0), 2);
    Ok(())
}

// Both see the same number, and one of them claims the next.
#[test]
fn a_claim_fails_where_another_came_first(rt: HostRuntime) -> Result<(), Fail> {
    let (hall, mut first) = Hall::prepare(&rt, rt.alloc(), &[9, 3], 0)?;
    let mut a = first.split(&rt, &hall);
    let mut b = first.split(&rt, &hall);
    assert_eq!(rt; a.draw(&rt, &hall), 0);
    assert_eq!(rt; b.draw(&rt, &hall), 1);
    assert_eq!(rt; a.see(&rt, &hall, 1), Some(0));
    assert_eq!(rt; b.see(&rt, &hall, 1), Some(0));
    assert!(rt; b.try_claim(&rt, &hall, 1, 0));
    // The number is odd, and the claim writes nothing.
    assert!(rt; !a.try_claim(&rt, &hall, 1, 0));
    assert_eq!(rt; a.see(&rt, &hall, 1), None);
    assert_eq!(rt; a.see(&rt, &hall, 0), Some(0));
    assert!(rt; a.try_claim(&rt, &hall, 0, 0));
    a.store_value(&rt, &hall, 0, 10);
    a.complete(&rt, &hall, 0, 0);
    b.store_value(&rt, &hall, 1, 4);
    b.complete(&rt, &hall, 1, 0);
    assert_eq!(rt; a.see(&rt, &hall, 1), Some(1));
    // Once more, with a number that is even again.
    assert_eq!(rt; b.see(&rt, &hall, 1), Some(1));
    assert!(rt; b.try_claim(&rt, &hall, 1, 1));
    b.store_value(&rt, &hall, 1, 5);
    b.complete(&rt, &hall, 1, 1);
    assert!(rt; !a.try_claim(&rt, &hall, 1, 1));
    assert_eq!(rt; a.see(&rt, &hall, 1), Some(2));
    assert!(rt; a.try_claim(&rt, &hall, 1, 2));
    assert_eq!(rt; a.fetch(&rt, &hall, 1), 5);
    a.store_value(&rt, &hall, 1, 6);
    a.complete(&rt, &hall, 1, 2);
    first.gather(&rt, &hall, b);
    first.gather(&rt, &hall, a);
    let closed = hall.close(first);
    assert_eq!(rt; closed.drawn(), 2);
    assert_eq!(rt; (closed.value(&rt, 0), closed.number(&rt, 0)), (10, 2));
    assert_eq!(rt; (closed.value(&rt, 1), closed.number(&rt, 1)), (6, 6));
    Ok(())
}
