//! Whole reads, writes and updates.
use crate::walker::Hall;
use std::test::Fail;
use stride_isa::Change;

#[test]
fn a_read_sees_what_its_pass_has_written(rt: HostRuntime) -> Result<(), Fail> {
    let (hall, mut first) = Hall::prepare(&rt, rt.alloc(), &[1, 2, 3], 0)?;
    let mut a = first.split(&rt, &hall);
    assert_eq!(rt; a.draw(&rt, &hall), 0);
    for k in 1..=20u32 {
        let value = 100 * u64::from(k);
        assert_eq!(rt; a.write(&rt, &hall, 1, value), k);
        let (read, bound) = a.read(&rt, &hall, 1);
        assert!(rt; bound >= k, "after write {k}");
        assert_eq!(rt; (read, bound), (value, k));
        assert_eq!(rt; a.read(&rt, &hall, 0), (1, 0));
        assert_eq!(rt; a.read(&rt, &hall, 2), (3, 0));
    }
    first.gather(&rt, &hall, a);
    let closed = hall.close(first);
    assert_eq!(rt; (closed.value(&rt, 0), closed.number(&rt, 0)), (1, 0));
    assert_eq!(rt; (closed.value(&rt, 1), closed.number(&rt, 1)), (2000, 40));
    assert_eq!(rt; (closed.value(&rt, 2), closed.number(&rt, 2)), (3, 0));
    Ok(())
}

#[test]
fn an_update_falls_between_two_reads(rt: HostRuntime) -> Result<(), Fail> {
    let (hall, mut first) = Hall::prepare(&rt, rt.alloc(), &[u64::MAX], 0)?;
    let mut a = first.split(&rt, &hall);
    let mut b = first.split(&rt, &hall);
    assert_eq!(rt; a.draw(&rt, &hall), 0);
    assert_eq!(rt; b.draw(&rt, &hall), 1);
    // What is added, stored or compared; the value after; the number of the update.
    let changes = [
        (Change::Plus(1), u64::MAX, 0, 1),
        (Change::Plus(8), 0, 8, 2),
        (Change::Store(3), 8, 3, 3),
        (
            Change::IfEqual {
                expected: 4,
                new: 9,
            },
            3,
            3,
            4,
        ),
        (
            Change::IfEqual {
                expected: 3,
                new: 9,
            },
            3,
            9,
            5,
        ),
    ];
    for (change, old, new, number) in changes {
        assert_eq!(rt; a.read(&rt, &hall, 0), (old, number - 1), "before {number}");
        assert_eq!(rt; b.update(&rt, &hall, 0, change), (old, number));
        assert_eq!(rt; a.read(&rt, &hall, 0), (new, number), "after {number}");
    }
    first.gather(&rt, &hall, a);
    first.gather(&rt, &hall, b);
    let closed = hall.close(first);
    assert_eq!(rt; closed.drawn(), 2);
    assert_eq!(rt; (closed.value(&rt, 0), closed.number(&rt, 0)), (9, 10));
    Ok(())
}

// A read whose value was loaded before the update, and whose number after it.
#[test]
fn a_read_stands_around_an_update(rt: HostRuntime) -> Result<(), Fail> {
    let (hall, mut first) = Hall::prepare(&rt, rt.alloc(), &[6], 0)?;
    let mut a = first.split(&rt, &hall);
    let mut b = first.split(&rt, &hall);
    assert_eq!(rt; a.draw(&rt, &hall), 0);
    assert_eq!(rt; b.draw(&rt, &hall), 1);
    assert_eq!(rt; a.load_value(&rt, &hall, 0), 6);
    assert_eq!(rt; b.update(&rt, &hall, 0, Change::Plus(1)), (6, 1));
    assert_eq!(rt; a.load_number(&rt, &hall, 0), Some(1));
    assert_eq!(rt; a.read(&rt, &hall, 0), (7, 1));
    first.gather(&rt, &hall, a);
    first.gather(&rt, &hall, b);
    assert_eq!(rt; hall.close(first).number(&rt, 0), 2);
    Ok(())
}

// Only passes without a name are split, so what has read is gathered first.
#[test]
fn a_pass_split_off_has_seen_as_much(rt: HostRuntime) -> Result<(), Fail> {
    let (hall, mut first) = Hall::prepare(&rt, rt.alloc(), &[0, 0], 0)?;
    let mut writer = first.split(&rt, &hall);
    assert_eq!(rt; writer.draw(&rt, &hall), 0);
    for k in 1..=10u32 {
        assert_eq!(rt; writer.write(&rt, &hall, 0, u64::from(k) + 50), k);
        let mut reader = first.split(&rt, &hall);
        assert_eq!(rt; reader.draw(&rt, &hall), 2 * k - 1);
        let (value, seen) = reader.read(&rt, &hall, 0);
        assert_eq!(rt; (value, seen), (u64::from(k) + 50, k));
        first.gather(&rt, &hall, reader);
        let mut later = first.split(&rt, &hall);
        assert_eq!(rt; later.draw(&rt, &hall), 2 * k);
        let (value, bound) = later.read(&rt, &hall, 0);
        assert!(rt; bound >= seen, "at {k}");
        assert_eq!(rt; (value, bound), (u64::from(k) + 50, k));
        first.gather(&rt, &hall, later);
    }
    first.gather(&rt, &hall, writer);
    let closed = hall.close(first);
    assert_eq!(rt; closed.drawn(), 21);
    assert_eq!(rt; (closed.value(&rt, 0), closed.number(&rt, 0)), (60, 20));
    Ok(())
}
