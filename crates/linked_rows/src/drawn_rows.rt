//! Traces that are drawn, linked and linked by a plain slow linker.
use crate::plain_linker::plain_link;
use crate::setting::{STARTS, entered, left, outcome_of, seen, updated, written};
use interleavings::Event;
use std::alloc::{AllocError, Global};
use std::test::Fail;

/// A row of numbers that are drawn, the same each time.
#[derive(Drop)]
pub(crate) struct Draws {
    pub(crate) state: u64,
}

impl Draws {
    /// A number below 2^31.
    pub(crate) fn number(&mut self) -> u32 {
        self.state = self
            .state
            .wrapping_mul(6_364_136_223_846_793_005)
            .wrapping_add(1_442_695_040_888_963_407);
        (self.state >> 33) as u32
    }

    // Mostly this number, now and then one more or one less.
    fn slipped(&mut self, number: u32, slips: bool) -> u32 {
        if !slips {
            return number;
        }
        match self.number() % 40 {
            0 => number.wrapping_add(1) % 1000,
            1 => number.saturating_sub(1),
            _ => number,
        }
    }
}

/// What events are drawn from: the last value and number of each variable, the last turn of each monitor, whether numbers
/// slip, and whether values differ.
#[derive(Drop)]
struct World {
    values: [u64; 2],
    numbers: [u32; 2],
    turns: [u32; 2],
    slips: bool,
    differ: bool,
}

impl World {
    // The value of a write: its number, or one of three.
    fn value(&self, draws: &mut Draws, number: u32) -> u64 {
        if self.differ {
            1000 + number as u64
        } else {
            5 + draws.number() as u64 % 3
        }
    }

    // Adds a read of the last value, or of an older one.
    fn read(&self, draws: &mut Draws, cell: u32) -> Event {
        let at = (cell % 2) as usize;
        let bound = draws.slipped(self.numbers[at], self.slips);
        let older = draws.number() % 100;
        let value = match draws.number() % 3 {
            0 if self.differ && older > 0 && older <= self.numbers[at] => 1000 + older as u64,
            1 => STARTS[at],
            _ => self.values[at],
        };
        seen!(cell, value, bound)
    }

    // Adds a write, or an update that meets the last value.
    fn write(&mut self, draws: &mut Draws, cell: u32, updates: bool) -> Event {
        let at = (cell % 2) as usize;
        let number = self.numbers[at].wrapping_add(1);
        let old = self.values[at];
        let new = self.value(draws, number);
        self.numbers[at] = number;
        self.values[at] = new;
        let told = draws.slipped(number, self.slips);
        if updates {
            updated!(cell, old, new, told)
        } else {
            written!(cell, new, told)
        }
    }

    // Adds an entry, and its exit behind it.
    fn turn(
        &mut self,
        draws: &mut Draws,
        mon: u32,
        events: &mut Vec<Event>,
    ) -> Result<(), AllocError> {
        let at = (mon % 2) as usize;
        let turn = self.turns[at].wrapping_add(1);
        self.turns[at] = turn;
        events.push(entered!(mon, draws.slipped(turn, self.slips)))?;
        events.push(left!(mon, draws.slipped(turn, self.slips)))?;
        Ok(())
    }

    fn step(&mut self, draws: &mut Draws, events: &mut Vec<Event>) -> Result<(), AllocError> {
        let at = draws.number() % 2;
        match draws.number() % 10 {
            0..=3 => events.push(self.read(draws, at))?,
            4..=6 => events.push(self.write(draws, at, false))?,
            7 => events.push(self.write(draws, at, true))?,
            _ => self.turn(draws, at, events)?,
        }
        Ok(())
    }
}

/// The events of three threads, in so many steps.
pub(crate) fn drawn(
    alloc: Global,
    draws: &mut Draws,
    steps: u32,
    slips: bool,
) -> Result<[Vec<Event>; 3], AllocError> {
    let mut world = World {
        values: STARTS,
        numbers: [0; 2],
        turns: [0; 2],
        slips,
        differ: draws.number() % 2 == 0,
    };
    let mut threads = [Vec::new(alloc), Vec::new(alloc), Vec::new(alloc)];
    for _ in 0..steps {
        let thread = (draws.number() % 3) as usize;
        world.step(draws, &mut threads[thread])?;
    }
    Ok(threads)
}

#[test]
fn drawn_traces_are_linked_as_by_scanning(rt: HostRuntime) -> Result<(), Fail> {
    let alloc = rt.alloc();
    let mut draws = Draws { state: 7 };
    let mut linked = 0u32;
    for round in 0..400 {
        let steps = 1 + draws.number() % 100;
        let [first, second, third] = drawn(alloc, &mut draws, steps, round % 2 == 0)?;
        let threads = [first.as_slice(), second.as_slice(), third.as_slice()];
        let outcome = outcome_of(&rt, alloc, &threads)?;
        if outcome.is_ok() {
            linked = linked.wrapping_add(1);
        }
        assert!(rt; outcome == plain_link(alloc, &threads)?);
    }
    assert!(rt; 50 < linked && linked < 350, "linked {linked}");
    Ok(())
}
