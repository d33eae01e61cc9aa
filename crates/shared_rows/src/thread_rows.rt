//! Passes in threads of their own.
ghost use Rattle.std.specs.Prelude.{IfOk};
ghost use Rattle.std.specs.Thread.{IsSync};
ghost use Rattle.shared_rule.specs.Passes.{IsPassOf};

use crate::walker::{Hall, Walker};
use std::process::Abort;
use std::sync::Wait;
use std::test::Fail;
use std::thread::{Threads, join, yield_now};
use stride_isa::Change;

// Draws a name, takes the cell and completes its number with the number that was taken.
fn write_once<R: Wait + Abort>(rt: &R, hall: &Hall, mut walker: Walker) -> (Walker, u32, u32)
    requires { IsPassOf hall.now.shared walker.pass }
    ensures { IsPassOf hall.now.shared result.0.pass }
{
    let name = walker.draw(rt, hall);
    let number = walker.take(rt, hall, 0);
    walker.store_value(rt, hall, 0, 5);
    walker.complete(rt, hall, 0, number);
    (walker, name, number)
}

fn write_in_two<R: Threads + Wait + Abort + Sync>(
    rt: &R,
    hall: &Hall,
    first: &mut Walker,
) -> [(u32, u32); 2]
    requires { IsPassOf hall.now.shared first.old.pass }
    ensures { IsPassOf hall.now.shared first.new.pass }
{
    let b = first.split(rt, hall);
    let c = first.split(rt, hall);
    let (b, c) = join(
        rt,
        move || -> (Walker, u32, u32)
            requires { IsPassOf hall.now.shared b.pass }
            ensures { IsPassOf hall.entry.now.shared result.0.pass }
        { write_once(rt, hall, b) },
        move || -> (Walker, u32, u32)
            requires { IsPassOf hall.now.shared c.pass }
            ensures { IsPassOf hall.entry.now.shared result.0.pass }
        { write_once(rt, hall, c) },
    );
    let (b, b_name, b_number) = b;
    let (c, c_name, c_number) = c;
    first.gather(rt, hall, b);
    first.gather(rt, hall, c);
    [(b_name, b_number), (c_name, c_number)]
}

#[test]
fn two_passes_write_in_two_threads(rt: HostRuntime) -> Result<(), Fail> {
    for _ in 0..200u32 {
        let (hall, mut first) = Hall::prepare(&rt, rt.alloc(), &[5], 0)?;
        let [b, c] = write_in_two(&rt, &hall, &mut first);
        // Names and numbers are 0 and 1, each once.
        assert!(rt; b.0 < 2 && c.0 < 2 && b.0 != c.0);
        assert!(rt; b.1 < 2 && c.1 < 2 && b.1 != c.1);
        let closed = hall.close(first);
        assert_eq!(rt; closed.drawn(), 2);
        assert_eq!(rt; closed.value(&rt, 0), 5);
        assert_eq!(rt; closed.number(&rt, 0), 4);
    }
    Ok(())
}

// How often each thread goes round.
const TURNS: u32 = 1500;

// Enters a monitor, once it is free.
fn enter<R: Wait + Abort>(rt: &R, hall: &Hall, walker: &mut Walker, mon: u32) -> u32
    requires { IsPassOf hall.now.shared walker.old.pass }
    ensures { IsPassOf hall.now.shared walker.new.pass }
{
    for _ in rt.forever() {
        let entered = match walker.look(rt, hall, mon) {
            Some(seen) => walker.try_enter(rt, hall, mon, seen),
            None => None,
        };
        match entered {
            Some(turn) => return turn,
            None => yield_now(),
        }
    }
    unreachable!()
}

// Cell 0 is read and written as it comes, cell 1 is updated, cell 2 is read and written inside monitor 0, and cell 3 is updated
// inside monitor 1 and read outside.
fn go_round<R: Wait + Abort>(rt: &R, hall: &Hall, mut walker: Walker) -> Walker
    requires { IsPassOf hall.now.shared walker.pass }
    ensures { IsPassOf hall.now.shared result.pass }
{
    walker.draw(rt, hall);
    let mut seen = 0;
    for turn in 0..TURNS {
        let (value, _) = walker.read(rt, hall, 0);
        walker.write(rt, hall, 0, value.wrapping_add(1));
        walker.update(rt, hall, 1, Change::Plus(1));

        let entered = enter(rt, hall, &mut walker, 0);
        let (value, bound) = walker.read(rt, hall, 2);
        // Whoever is inside has the cell to itself, and each that was there before wrote it once.
        assert_eq!(rt;
            (value, u64::from(bound) + 1),
            (u64::from(bound), u64::from(entered))
        );
        assert_eq!(rt; walker.write(rt, hall, 2, value.wrapping_add(1)), entered);
        walker.leave(rt, hall, 0, entered);

        let entered = enter(rt, hall, &mut walker, 1);
        let (old, number) = walker.update(rt, hall, 3, Change::Plus(2));
        assert_eq!(rt;
            (old, number),
            (2 * (u64::from(number).saturating_sub(1)), entered)
        );
        walker.leave(rt, hall, 1, entered);
        let (_, bound) = walker.read(rt, hall, 3);
        assert!(rt; bound >= number && bound > seen, "in turn {turn}");
        seen = bound;
    }
    walker
}

// As many passes as 2 to the depth, each in a thread of its own, split off and gathered by halves.
fn run_halves<R: Threads + Wait + Abort + Sync>(
    rt: &R,
    hall: &Hall,
    mut walker: Walker,
    depth: u32,
) -> Walker
    requires { IsPassOf hall.now.shared walker.pass }
    ensures { IsPassOf hall.now.shared result.pass }
{
    let other = walker.split(rt, hall);
    if depth == 0 {
        let other = go_round(rt, hall, other);
        walker.gather(rt, hall, other);
        return walker;
    }
    let below = depth - 1;
    let (mut left, right) = join(
        rt,
        move || -> Walker
            requires { IsSync R.row × IsPassOf hall.now.shared walker.pass }
            ensures { IsPassOf hall.entry.now.shared result.pass }
        { run_halves(rt, hall, walker, below) },
        move || -> Walker
            requires { IsSync R.row × IsPassOf hall.now.shared other.pass }
            ensures { IsPassOf hall.entry.now.shared result.pass }
        { run_halves(rt, hall, other, below) },
    );
    left.gather(rt, hall, right);
    left
}

#[test]
fn sixteen_passes_go_round_again_and_again(rt: HostRuntime) -> Result<(), Fail> {
    let made = 16 * u64::from(TURNS);
    for round in 0..20u32 {
        let (hall, first) = Hall::prepare(&rt, rt.alloc(), &[1, 1, 0, 0, 8], 2)?;
        let first = run_halves(&rt, &hall, first, 4);
        let closed = hall.close(first);
        assert_eq!(rt; closed.drawn(), 16, "in round {round}");
        // Of reads and writes without a monitor some are lost, and the last is of a value that was read.
        assert_eq!(rt; closed.number(&rt, 0), 2 * made);
        assert!(rt; closed.value(&rt, 0) > 1 && closed.value(&rt, 0) <= made + 1);
        assert_eq!(rt;
            (closed.value(&rt, 1), closed.number(&rt, 1)),
            (made + 1, 2 * made)
        );
        assert_eq!(rt;
            (closed.value(&rt, 2), closed.number(&rt, 2)),
            (made, 2 * made)
        );
        assert_eq!(rt;
            (closed.value(&rt, 3), closed.number(&rt, 3)),
            (2 * made, 2 * made)
        );
        assert_eq!(rt; (closed.value(&rt, 4), closed.number(&rt, 4)), (8, 0));
    }
    Ok(())
}
